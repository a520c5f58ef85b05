// The counts of a run.
ghost use Rattle.std.specs.Prelude.{◌≡◌, Some};
ghost use Rattle.compared.specs.Tally.{plus, sum_of, tally_text};

use std::fmt;
use std::ops::AddAssign;

// How many sheets were begun, how many calls of the reader, of the writer and of the check were compared, and how many things were not as expected.
#[derive(Clone, Copy, Default)]
pub struct Tally {
    pub sheets: u64,
    pub answers: u64,
    pub writes: u64,
    pub checks: u64,
    pub differences: u64,
}

// A counter does not wrap in any run; to wrap spares a bound that nothing would use.
pub(crate) fn count_one(counter: &mut u64)
    ensures { counter.new ≡ plus counter.old 1 }
{
    *counter = counter.wrapping_add(1);
}

impl AddAssign for Tally {
    ghost add_assign_gives = { λ a b sum. sum ≡ sum_of a b };

    fn add_assign(&mut self, more: Tally) {
        self.sheets = self.sheets.wrapping_add(more.sheets);
        self.answers = self.answers.wrapping_add(more.answers);
        self.writes = self.writes.wrapping_add(more.writes);
        self.checks = self.checks.wrapping_add(more.checks);
        self.differences = self.differences.wrapping_add(more.differences);
    }
}

impl fmt::Display for Tally {
    ghost output = { λ t. Some (tally_text t) };

    fn fmt<W: fmt::Write>(&self, f: &mut fmt::Formatter<W>) -> fmt::Result {
        write!(
            f,
            "sheets {}, answers {}, writes {}, checks {}, differences {}",
            self.sheets, self.answers, self.writes, self.checks, self.differences
        )
    }
}
