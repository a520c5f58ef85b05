// A run of compared calls: where it prints what differs, and what it counts.
ghost use Rattle.std.specs.Prelude.{◌≡◌, ◌↔◌, length, replicate, IsTrue, OnOk, Some};
ghost use Rattle.compared.specs.Calls.{holds as holds_def, same_said};
ghost use Rattle.compared.specs.Tally.{nothing, sum_of, with_sheet, with_difference, with_part};
ghost use Rattle.compared.specs.Trials.{place_text, Counts, Ends};

use crate::answer::Said;
use crate::tally::{Tally, count_one};
use std::alloc::Global;
use std::convert::AsSlice;
use std::{fmt, io};

// What a store or an output holds before a call: rubbish, so that a word that the call leaves as it was is seen.
pub(crate) const RUBBISH: u64 = 11400714819323198485;

// A runtime that prints, and gives memory too.
pub trait Host: Print + AllocGlobal {}

impl<R: Print + AllocGlobal> Host for R {}

// Where a call stands: the name of what is tried, and a number.
#[derive(Clone, Copy)]
pub struct Place<'a> {
    name: &'a str,
    at: u64,
}

impl Place<'_> {
    pub fn new(name: &str, at: u64) -> Place<'_>
        ensures name { result.name.now ≡ name.now }
        ensures at { result.at ≡ at }
    {
        Place { name, at }
    }
}

impl fmt::Display for Place<'_> {
    ghost output = { λ p. Some (place_text p) };

    fn fmt<W: fmt::Write>(&self, f: &mut fmt::Formatter<W>) -> fmt::Result {
        write!(f, "{} {}", self.name, self.at)
    }
}

// What a call answered, and what was expected.
#[derive(Clone, Copy)]
pub(crate) struct Outcome<'a> {
    pub place: Place<'a>,
    pub said: Said,
    pub want: Said,
}

impl Outcome<'_> {
    pub(crate) fn is_expected(&self) -> bool
        ensures { result ≡ same_said self.now.said self.now.want }
    {
        self.said == self.want
    }
}

// The runtime, the counts of the present group, and those of the groups before it.
#[derive(Drop)]
pub struct Trial<'a, R> {
    rt: &'a R,
    pub(crate) group: Tally,
    total: Tally,
}

impl<'a, R: Print> Trial<'a, R> {
    pub fn new(rt: &'a R) -> Trial<'a, R>
        ensures group { result.group ≡ nothing }
        ensures total { result.total ≡ nothing }
    {
        Trial {
            rt,
            group: Tally::default(),
            total: Tally::default(),
        }
    }

    // One sheet more is begun.
    pub fn begin_sheet(&mut self)
        ensures { Counts with_sheet self.old self.new }
    {
        count_one(&mut self.group.sheets);
    }

    // A difference is printed and counted.
    fn differ<T: fmt::Display>(&mut self, difference: &T) -> io::Result<()>
        ensures { OnOk result (Counts with_difference self.old self.new) }
    {
        println!(self.rt; "difference at {difference}")?;
        count_one(&mut self.group.differences);
        Ok(())
    }

    // A line of the input that can't be one.
    pub fn malformed(&mut self, at: u64) -> io::Result<()>
        ensures { OnOk result (Counts with_difference self.old self.new) }
    {
        self.differ(&format_args!("line {at}: malformed"))
    }

    // A call that asks for a longer store or output than there is.
    pub(crate) fn no_room(&mut self, place: Place) -> io::Result<()>
        ensures { OnOk result (Counts with_difference self.old self.new) }
    {
        self.differ(&format_args!("{place}: no room of that length"))
    }

    // A part of a call, the answer, the reader, the store, the output or the record number, is the same as expected, or differs.
    pub(crate) fn part(&mut self, what: &str, same: bool, outcome: Outcome) -> io::Result<()>
        ensures { OnOk result (Counts (with_part same) self.old self.new) }
    {
        if same {
            return Ok(());
        }
        let Outcome { place, said, want } = outcome;
        self.differ(&format_args!("{place}: {what}; answer {said}, expected {want}"))
    }

    // A group ends: its counts are printed behind its name.
    pub fn end_group<N: AsSlice<u8> + Drop>(&mut self, name: N) -> io::Result<()>
        ensures { OnOk result (Ends self.old self.new) }
    {
        self.rt.write_all(name.as_slice())?;
        println!(self.rt; ": {}", self.group)?;
        self.total += self.group;
        self.group = Tally::default();
        Ok(())
    }

    // The counts of all groups so far, the present one among them.
    pub fn tally(&self) -> Tally
        ensures { result ≡ sum_of self.now.total self.now.group }
    {
        let mut all = self.total;
        all += self.group;
        all
    }

    // The counts of all groups are printed.
    pub fn end(&self) -> io::Result<()> {
        println!(self.rt; "all: {}", self.tally())
    }
}

impl<R: Host> Trial<'_, R> {
    // Memory of the runtime, for an output of any length that a caller lends. No call that is compared asks for it.
    pub fn alloc(&self) -> Global {
        self.rt.alloc()
    }
}

// Whether each word is 0.
// Stays beside scan's `all_zeros`: that one is private to its crate, and both are a line.
fn is_zero(words: &[u64]) -> bool
    ensures { IsTrue result ↔ (words.now ≡ replicate (length words.now) 0) }
{
    words.iter().all(|word| *word == 0)
}

// Whether a store holds a tree's records, or an output a text, and 0 behind them.
pub(crate) fn holds(store: &[u64], words: &[u64]) -> bool
    ensures { result ≡ holds_def store.now words.now }
{
    match store.strip_prefix(words) {
        Some(rest) => is_zero(rest),
        None => false,
    }
}

#[cfg(test)]
mod tests {
    use super::*;
    use crate::writing::Writing;
    use std::test::Fail;

    // A name's records and its canonical tokens, on an output that is longer by a word and lies in memory of the runtime.
    #[test]
    fn writes_in_memory_of_the_runtime(rt: HostRuntime) -> Result<(), Fail> {
        let mut trial = Trial::new(&rt);
        let mut longest = vec![in trial.alloc(); 0; 5]?;
        let writing = Writing::new(Place::new("a name", 1), &[31, 1, 258, 0]);
        trial.is_written(writing, &mut longest, &[69, 1, 8, 0])?;
        let tally = trial.tally();
        assert_eq!(rt; tally.writes, 3);
        assert_eq!(rt; tally.differences, 0);
        Ok(())
    }
}
