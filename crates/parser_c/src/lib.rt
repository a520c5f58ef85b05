// What C and Rust link of the reader: `host::leatherlava_next_stmt` of crates/parser under its C name, with the same clause.
#![tactic(auto)]

ghost use Rattle.grammar.specs.Contract.{Exports};
ghost use Rattle.grammar.specs.Flat.{reader_of};

use grammar::{Flat, Queue};
use parser::host;

// `next_stmt` on a reader that the host keeps. `Exports` is the equation of answer, reader and store with the definition `next_stmt`, for all inputs
// (grammar's specs/Contract.antt).
// Stays the reader's fields one by one: an exported function takes no reference to a struct.
#[unsafe(no_mangle)]
pub extern "C" fn leatherlava_next_stmt(
    position: &mut usize,
    waiting: &mut usize,
    errors: &mut Queue,
    stopped: &mut u64,
    tokens: &[u64],
    store: &mut [u64],
) -> Flat
    ensures { Exports (reader_of position.old waiting.old errors.old stopped.old) tokens.now store.old
        result (reader_of position.new waiting.new errors.new stopped.new) store.new }
{
    host::leatherlava_next_stmt(position, waiting, errors, stopped, tokens, store)
}
