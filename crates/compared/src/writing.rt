// A call of the writer held to what is expected of it: the answer, and every word of the output.
ghost use Rattle.std.specs.Prelude.{◌≡◌, length, OnOk};
ghost use Rattle.compared.specs.Calls.{same_said, with_outputs, with_output, with_written, with_not_written};
ghost use Rattle.compared.specs.Trials.{Counts};

use crate::answer::{Case, Said};
use crate::tally::count_one;
use crate::trial::{Outcome, Place, RUBBISH, Trial, holds};
use std::io;
use writer::write_stmt;

// A call of the writer on a tree's records.
#[derive(Clone, Copy)]
pub struct Writing<'a> {
    pub place: Place<'a>,
    pub records: &'a [u64],
}

impl<'a> Writing<'a> {
    pub fn new(place: Place<'a>, records: &'a [u64]) -> Writing<'a>
        ensures place { result.place ≡ place.entry }
        ensures records { result.records.now ≡ records.now }
    {
        Writing { place, records }
    }
}

impl<R: Print> Trial<'_, R> {
    // A call on so many of the lent words, compared. An output longer than those counts as a difference.
    // Stays lent: the longest has 120,003 words in limits, and 1,003 in replay.
    fn on_output(
        &mut self,
        writing: Writing,
        longest: &mut [u64],
        room: usize,
        want: Said,
        text: &[u64],
    ) -> io::Result<()>
        ensures { OnOk result (Counts (with_output writing.entry.records.now (length longest.old) room want text.now) self.old self.new) }
    {
        let place = writing.place;
        if longest.len() < room {
            return self.no_room(place);
        }
        let output = &mut longest[..room];
        output.fill(RUBBISH);
        let said = Said::from(write_stmt(writing.records, output));
        self.outputs(Outcome { place, said, want }, holds(output, text))
    }

    // One call more is compared, by its parts: its answer, its output.
    fn outputs(&mut self, outcome: Outcome, output: bool) -> io::Result<()>
        ensures { OnOk result (Counts (with_outputs (same_said outcome.entry.said outcome.entry.want) output) self.old self.new) }
    {
        count_one(&mut self.group.writes);
        self.part("answer", outcome.is_expected(), outcome)?;
        self.part("output", output, outcome)
    }

    // A text is written: to an output that is exactly long enough, to the longest one, not to one that is one word short, which is zero then.
    pub fn is_written(
        &mut self,
        writing: Writing,
        longest: &mut [u64],
        text: &[u64],
    ) -> io::Result<()>
        ensures { OnOk result (Counts (with_written writing.entry.records.now (length longest.old) text.now) self.old self.new) }
    {
        let (full, words) = (longest.len(), text.len());
        let want = Said::new(Case::Text, (words / 2) as u64);
        self.on_output(writing, longest, words, want, text)?;
        self.on_output(writing, longest, full, want, text)?;
        match words.checked_sub(1) {
            // Stays 66, the paper's number, and 62 below: what tries a refusal or a stop takes none of the code's constants.
            Some(short) => self.on_output(
                writing,
                longest,
                short,
                Said::new(Case::Refused, 66),
                &[],
            ),
            None => Ok(()),
        }
    }

    // Nothing is written, for this reason: to the longest output, nor to an empty one.
    pub fn is_not_written(
        &mut self,
        writing: Writing,
        longest: &mut [u64],
        number: u64,
    ) -> io::Result<()>
        ensures { OnOk result (Counts (with_not_written writing.entry.records.now (length longest.old) number) self.old self.new) }
    {
        let case = if number == 62 {
            Case::Stopped
        } else {
            Case::Refused
        };
        let want = Said::new(case, number);
        let full = longest.len();
        self.on_output(writing, longest, full, want, &[])?;
        self.on_output(writing, longest, 0, want, &[])
    }
}
