// The reader that the host keeps: the call by value on a reader that is lent.
ghost use Rattle.grammar.specs.Contract.{Leaves};

use crate::next_stmt;
use grammar::{Answer, Reader};

// The next answer, as `next_stmt` gives it; the reader that it returns is left in place of the given one. `Leaves` is the equation of
// answer, reader and store with the definition `next_stmt`, for all inputs (grammar's specs/Contract.antt).
pub fn next_stmt_in(reader: &mut Reader, tokens: &[u64], store: &mut [u64]) -> Answer
    ensures { Leaves reader.old tokens.now store.old result reader.new store.new }
{
    let stepped = next_stmt(*reader, tokens, store);
    *reader = stepped.reader;
    stepped.answer
}
