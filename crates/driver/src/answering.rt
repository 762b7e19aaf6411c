// Lines answered one after another.
ghost use Rattle.std.specs.Prelude.{◌+◌, ◌<◌, ◌^◌, length};
ghost use Rattle.stores.specs.Made.{Made};
ghost use Rattle.driver.specs.Runs.{Ran};

use crate::calls_of::Pairs;
use crate::line_of::answer_line;
use crate::lines_of::line_end;
use lines::Writer;
use replies::put_reply;
use stores::Assignments;

// No answer is longer: it has at most 1,024 pairs of at most 33 bytes, and a few words.
const LONGEST_ANSWER: usize = 34000;

// After some lines: the store, the number of the next line, how many bytes were read, and how many were written.
#[derive(Clone, Copy)]
pub struct Answered {
    pub store: Assignments,
    pub number: u64,
    pub read: usize,
    pub written: usize,
}

// Answers the whole lines at the start of `input`, each ended by LF, as long as `out` has room for the longest answer.
pub fn answer_lines(store: Assignments, first: u64, input: &[u8], out: &mut [u8]) -> Answered
    requires { Made store × (first + length input.now < 2 ^ 64) }
    ensures { Ran store first input.now out.old result out.new }
{
    let mut pairs = Pairs {
        variables: [0; 1024],
        lowers: [0; 1024],
    };
    let mut done = Answered {
        store,
        number: first,
        read: 0,
        written: 0,
    };
    let mut writer = Writer::new(out, 0);
    // No count ends this: it goes on as long as there is a line and room for its answer.
    while LONGEST_ANSWER <= writer.room() {
        let end = line_end(input, done.read);
        if end == input.len() {
            return done;
        }
        let line = &input[done.read..end];
        let answer = answer_line(&mut done.store, line, &mut pairs);
        put_reply(
            &mut writer,
            done.number,
            answer,
            &pairs.variables,
            &pairs.lowers,
        );
        done.written = writer.length();
        done.number += 1;
        done.read = end + 1;
    }
    done
}
