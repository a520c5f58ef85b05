// What C and Rust link of the writer: `host::leatherlava_write_stmt` of crates/writer under its C name, with the same clause.
#![tactic(auto)]

ghost use Rattle.grammar.specs.Contract.{ExportsWriting};

use grammar::Flat;
use writer::host;

// `write_stmt`, with its answer as two numbers. `ExportsWriting` is the equation of answer and output with the definition `write_stmt`, for all inputs (grammar's
// specs/Contract.antt).
#[unsafe(no_mangle)]
pub extern "C" fn leatherlava_write_stmt(records: &[u64], output: &mut [u64]) -> Flat
    ensures { ExportsWriting records.now output.old result output.new }
{
    host::leatherlava_write_stmt(records, output)
}
