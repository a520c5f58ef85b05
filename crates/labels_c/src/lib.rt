// What C and Rust link of the check of labels: `host::leatherlava_check_labels` of crates/labels under its C name, with the same clause.
#![tactic(auto)]

ghost use Rattle.labels.specs.Contract.{ExportsChecking};

use labels::{FlatLabels, host};

// `check_labels`, with its answer as two numbers. `ExportsChecking` is the equation of the answer with the definition `check_labels`, for all inputs
// (specs/Contract.antt of crates/labels).
#[unsafe(no_mangle)]
pub extern "C" fn leatherlava_check_labels(records: &[u64]) -> FlatLabels
    ensures { ExportsChecking records.now result }
{
    host::leatherlava_check_labels(records)
}
