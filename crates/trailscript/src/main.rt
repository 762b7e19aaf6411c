// The driver `trailscript`: reads lines from standard input and prints an answer for each to standard output, in constant memory.
#![tactic(auto)]

mod input;

use crate::input::Input;
use driver::answer_lines;
use std::io::Write;
use stores::Assignments;

// How many turns the loop may take: no input is so long. It keeps the lines' numbers within a u64 too.
const TURNS: u64 = 70368744177664;

fn main(rt: HostRuntime) {
    let mut reader = rt.stdin();
    let mut writer = rt.stdout();
    let mut store = Assignments::default();
    let mut number: u64 = 1;
    let mut input = Input::empty();
    let mut output = [0u8; 65536];
    for _turn in 0..TURNS {
        let done = answer_lines(store, number, input.unread(), &mut output);
        store = done.store;
        number = done.number;
        if writer.write_all(&output[..done.written]).is_err() {
            return;
        }
        input.pass(done.read);
        if done.read == 0 && !input.read_on(&mut reader) {
            return;
        }
    }
}
