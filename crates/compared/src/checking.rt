// A call of the check of labels held to what is expected of it: its number, and the record number.
ghost use Rattle.std.specs.Prelude.{◌≡◌, OnOk};
ghost use Rattle.labels.specs.Contract.{flat_labels};
ghost use Rattle.labels.specs.Offences.{check_labels as check_labels_def};
ghost use Rattle.compared.specs.Calls.{said_by, verdict, verdict_of, with_verdict};
ghost use Rattle.compared.specs.Trials.{Counts};

use crate::answer::{Case, Said};
use crate::tally::count_one;
use crate::trial::{Outcome, Place, Trial};
use labels::{FlatLabels, check_labels};
use std::io;

// What the check answers: a number, 0 where nothing is wrong, and the number of the record that it is for.
// Stays two numbers: a line of the input may have any record number beside 0, which is then printed as a difference.
#[derive(Clone, Copy)]
pub struct Verdict {
    number: u64,
    record_number: u64,
}

// Nothing is wrong.
pub const FINE: Verdict = Verdict {
    number: 0,
    record_number: 0,
};

impl Verdict {
    pub fn new(number: u64, record_number: u64) -> Verdict
        ensures { result ≡ verdict number record_number }
    {
        Verdict {
            number,
            record_number,
        }
    }

    // One of the two numbers, as an answer where nothing is wrong or as a refusal.
    fn said(self, number: u64) -> Said
        ensures { result ≡ said_by self number }
    {
        let case = if self.number == 0 {
            Case::Fine
        } else {
            Case::Refused
        };
        Said::new(case, number)
    }
}

impl From<FlatLabels> for Verdict {
    ghost from_gives = { λ answer v. v ≡ verdict_of answer };

    fn from(answer: FlatLabels) -> Verdict {
        Verdict::new(answer.number, answer.record_number)
    }
}

impl<R: Print> Trial<'_, R> {
    // Records get this answer.
    pub fn is_checked(&mut self, place: Place, records: &[u64], want: Verdict) -> io::Result<()>
        ensures { OnOk result (Counts (with_verdict (verdict_of (flat_labels (check_labels_def records.now))) want) self.old self.new) }
    {
        let got = Verdict::from(FlatLabels::from(check_labels(records)));
        count_one(&mut self.group.checks);
        let number = Outcome {
            place,
            said: got.said(got.number),
            want: want.said(want.number),
        };
        let record = Outcome {
            place,
            said: got.said(got.record_number),
            want: want.said(want.record_number),
        };
        self.part("number", number.is_expected(), number)?;
        self.part("record number", record.is_expected(), record)
    }
}
