// The reader behind a function of numbers and lent numbers alone, which crates/parser_c exports to C and Rust. The host keeps the reader and lends its
// fields one by one; an exported function can give back no enum, so an answer is two numbers.
ghost use Rattle.grammar.specs.Contract.{Exports};
ghost use Rattle.grammar.specs.Flat.{reader_of};

use crate::next_stmt;
use grammar::{Flat, Queue, Reader, Stepped};

// `next_stmt` on a reader that the host keeps. `Exports` is the equation of answer, reader and store with the definition `next_stmt`, for all inputs
// (grammar's specs/Contract.antt).
pub fn leatherlava_next_stmt(
    position: &mut usize,
    waiting: &mut usize,
    errors: &mut Queue,
    stopped: &mut u64,
    tokens: &[u64],
    store: &mut [u64],
) -> Flat
    ensures { Exports (reader_of position.old waiting.old errors.old stopped.old) tokens.now store.old
        result (reader_of position.new waiting.new errors.new stopped.new) store.new }
{
    let given = *errors;
    let reader = Reader {
        position: *position,
        waiting: *waiting,
        errors: given,
        stopped: *stopped,
    };
    let Stepped { answer, reader } = next_stmt(reader, tokens, store);
    let left = reader.errors;
    *position = reader.position;
    *waiting = reader.waiting;
    *errors = left;
    *stopped = reader.stopped;
    Flat::from(answer)
}
