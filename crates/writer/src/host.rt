// The writer behind a function of lent words alone, which crates/writer_c exports to C and Rust. An exported function can give back no enum, so an answer is two
// numbers.
ghost use Rattle.grammar.specs.Contract.{ExportsWriting};

use crate::write_stmt;
use grammar::Flat;

// `write_stmt`, with its answer as two numbers. `ExportsWriting` is the equation of answer and output with the definition `write_stmt`, for all inputs (grammar's
// specs/Contract.antt).
pub fn leatherlava_write_stmt(records: &[u64], output: &mut [u64]) -> Flat
    ensures { ExportsWriting records.now output.old result output.new }
{
    Flat::from(write_stmt(records, output))
}
