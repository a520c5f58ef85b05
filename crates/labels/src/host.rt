// The check behind a function of lent words alone, which crates/labels_c exports to C and Rust. An exported function can give back no enum, so an answer is two numbers.
ghost use Rattle.labels.specs.Contract.{ExportsChecking};

use crate::{FlatLabels, Offence, Refusal, check_labels};
use grammar::limit;

impl From<Result<(), Refusal>> for FlatLabels {
    ghost use Rattle.std.specs.Prelude.{◌≡◌};
    ghost use Rattle.labels.specs.Contract.{flat_labels};

    ghost from_gives = { λ answer flat. flat ≡ flat_labels answer };

    fn from(answer: Result<(), Refusal>) -> FlatLabels {
        let (number, record_number) = match answer {
            Ok(()) => (0, 0),
            Err(Refusal::NoStatement) => (limit::NO_STATEMENT, 0),
            Err(Refusal::Offends(Offence::Labelled, i)) => (limit::OFFENDER_LABELLED, i),
            Err(Refusal::Offends(Offence::Unlabelled, i)) => (limit::OFFENDER_UNLABELLED, i),
        };
        FlatLabels {
            number,
            record_number: record_number as u64,
        }
    }
}

// `check_labels`, with its answer as two numbers. `ExportsChecking` is the equation of the answer with the definition `check_labels`, for all inputs
// (specs/Contract.antt).
pub fn leatherlava_check_labels(records: &[u64]) -> FlatLabels
    ensures { ExportsChecking records.now result }
{
    FlatLabels::from(check_labels(records))
}
