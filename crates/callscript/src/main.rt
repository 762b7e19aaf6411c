// Answers the lines of standard input, each a public call of the store (docs/CALLS.md), as the Rust's oracle does.
// Relies on all crates of the store, and on lines for the text.
#![tactic(auto)]

mod answers;
mod calls;
mod commands;
mod fields;
mod list_values;
mod output;
mod questions_answered;
mod questions_asked;
mod reading;
mod states;

use answers::Answer;
use calls::answer_command;
use commands::read_command;
use list_values::Values;
use output::Output;
use reading::{Input, Line};
use std::io;
use std::io::{Read, Write};
use stores::Assignments;

// Answers line after line, until there is no more or the output takes no more.
fn answer_lines<R: Read, W: Write>(input: &mut Input<R>, output: &mut Output<W>) -> io::Result<()> {
    let mut store = Assignments::default();
    let mut line = Line::new();
    let mut values = Values::new();
    // Nothing says that the input ends; no run reads as many lines.
    for number in 1..u64::MAX {
        if !input.read_line(&mut line) {
            break;
        }
        output.write_enough()?;
        let bytes = line.bytes().ok();
        let command = bytes.and_then(|bytes| read_command(bytes, &mut values));
        let mut writer = output.text();
        let answer = Answer {
            writer: &mut writer,
            line: number,
        };
        match command {
            Some(command) => answer_command(answer, &mut store, command, &values),
            None => answer.put_bad(),
        }
        let length = writer.length();
        output.keep(length);
    }
    output.write_kept()
}

fn main(rt: HostRuntime) {
    let mut input = Input::new(rt.stdin());
    let mut output = Output::new(rt.stdout());
    // Where the output takes no more, there is no one to be told.
    let _ = answer_lines(&mut input, &mut output);
}
