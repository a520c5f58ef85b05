// The text at the output's end: its move to the front, and what is answered of it.
#![tactic(auto)]

ghost use Rattle.output.specs.Text.{Held, Fronted};

use grammar::{Written, limit};
use tree::clear;

// What was written up to the output's end, from the word b - 2 on, goes to its front, with zeros behind. Where b is below 2 there was no room.
// Stays a number: it is what the writer has, and as an Option it misses a bar there (`put` in crates/writer/src/text.rt).
pub fn written(output: &mut [u64], b: usize) -> Written
    requires { Held b output.old }
    ensures { Fronted b output.old output.new result }
{
    let Some(at) = b.checked_sub(2) else {
        clear(output, 0);
        return Written::Refused(limit::SHORT_OUTPUT);
    };
    let n = output.len() - at;
    output.copy_within(at.., 0);
    clear(output, n);
    Written::Tokens(n / 2)
}
