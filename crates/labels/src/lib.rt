// The check of labels: whether each break and continue of a statement has round it what it leaves or goes on with.
#![tactic(auto)]

ghost use Rattle.std.specs.Prelude.{◌*◌, ◌^◌, ◌<◌};
ghost use Rattle.labels.specs.Behind.{Found};
ghost use Rattle.labels.specs.Contract.{Checks};
ghost use Rattle.writer.specs.Verdict.{Whole};

mod behind;
mod entries;
pub mod host;
mod jumps;

use crate::entries::Entries;
use crate::jumps::{noted, offence};
use tree::word::CHILD;
use writer::legal::legal;
use writer::records::shape;

// A break or continue that leads nowhere, by whether it has a label.
#[derive(Clone, Copy, Debug, PartialEq, Eq)]
pub enum Offence {
    Labelled,
    Unlabelled,
}

// Why records are refused: no clean reading gives them, or the record of this number is the first that offends.
#[derive(Clone, Copy, Debug, PartialEq, Eq)]
pub enum Refusal {
    NoStatement,
    Offends(Offence, usize),
}

// An answer for C: document 02's number, 0 where nothing is wrong, and the number of the record.
#[repr(C)]
#[derive(Drop)]
pub struct FlatLabels {
    pub number: u64,
    pub record_number: u64,
}

// How many words the check has of its own: few where the records are few, so that an ordinary statement clears little (docs/DECISIONS.md).
const SMALL_ROOM: usize = 256;

const ROOM: usize = 6144;

// The first offender of the tree whose records these are: from the last record to the first, so the last one that is met. The words of `kept` are any; the
// more there are, the less is sought again.
fn first_offender(records: &[u64], kept: &mut [u64]) -> Result<(), Refusal>
    requires { Whole records.now }
    ensures { Found records.now result }
{
    let mut entries = Entries {
        words: kept,
        count: 0,
    };
    let mut pending: u64 = 1;
    let mut found = Ok(());
    for i in (0..records.len() / 2).rev() {
        let p = 2 * i;
        entries.leave(pending);
        found = noted(i, offence(records, &entries, p + 2), found);
        let kids = records[p] / CHILD;
        pending = pending - 1 + kids;
        entries.enter(records[p] % CHILD, records[p + 1], kids, pending);
    }
    found
}

// The check with these words to keep things in.
fn checked(records: &[u64], kept: &mut [u64]) -> Result<(), Refusal>
    ensures { Checks records.now result }
{
    if shape(records) && legal(records, kept) {
        first_offender(records, kept)
    } else {
        Err(Refusal::NoStatement)
    }
}

// The check with so many words of its own.
// Stays an array: what C links has no heap.
fn checked_in<const N: usize>(records: &[u64]) -> Result<(), Refusal>
    requires { N * 8 < 2 ^ 63 }
    ensures { Checks records.now result }
{
    let mut kept = [0u64; N];
    checked(records, &mut kept)
}

// Whether each break and continue of the statement whose records these are has round it what it needs. `Checks` is the equation of the answer with the
// definition `check_labels`, for all inputs (specs/Contract.antt).
pub fn check_labels(records: &[u64]) -> Result<(), Refusal>
    ensures { Checks records.now result }
{
    if records.len() / 2 <= SMALL_ROOM {
        checked_in::<SMALL_ROOM>(records)
    } else {
        checked_in::<ROOM>(records)
    }
}
