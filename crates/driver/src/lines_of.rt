// Where a line ends.
ghost use Rattle.driver.specs.Runs.{EndsAt};

// How many bytes stand before the first LF, or all where there is none.
fn length_of_line(bytes: &[u8]) -> usize
    ensures { EndsAt bytes.now 0 result }
{
    bytes
        .iter()
        .position(|byte| *byte == b'\n')
        .unwrap_or(bytes.len())
}

// The place of the first LF from `from` on, or the input's length where there is none.
pub fn line_end(input: &[u8], from: usize) -> usize
    ensures { EndsAt input.now from result }
{
    match input.get(from..) {
        Some(rest) => from + length_of_line(rest),
        None => from,
    }
}
