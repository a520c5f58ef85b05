// The trees that stand in the pass over the nodes (legal.rt): they are finished, and their parents are not yet visited. They are numbered from 0,
// the first one, and `kept[i - base]` is what is kept of the tree number i, from the number `base` on (specs/Standing.antt: entry). What is not kept
// is found in the records, which takes time.
ghost use Rattle.std.specs.Prelude.{◌≡◌, ◌+◌, ◌-◌, ◌<◌, ◌≤◌, length, slice_index, MatchOption};
ghost use Rattle.writer.specs.Stack.{Skipped};
ghost use Rattle.writer.specs.Standing.{TreeAt, Tells, Keeps, word as word_def, first_kept as first_kept_def, serves as serves_def};
ghost use Rattle.tables.specs.Check.{class_of as class_of_def, begins_labelled as begins_labelled_def};

use crate::edges::begins_labelled;
use crate::mode::class_at;
use crate::records::skip;
use crate::target::serves_at;

// Stays one word for a tree, and no struct: what is kept lies in words that are lent, which are the output's or the check of labels' own, one for each tree.
// Of a tree its class, below LABELLED; LABELLED more where it begins with a label; SERVES more where it serves a `fun` with a target; and BEGIN
// times the place where it begins.
const LABELLED: u64 = 128;

const SERVES: u64 = 256;

const BEGIN: u64 = 512;

// A tree that begins here or behind, or is of a class that there is not, is not kept: its number might be no word.
const FAR: usize = 18014398509481984;

// The trees that stand: the records, what is kept from the number `base` on, and how many there are.
// Stays a tree's number and its place, two parameters: the number tells where its word is, the place where its records end, and a loop comes by them apart.
#[derive(Drop)]
pub struct Standing<'a> {
    pub records: &'a [u64],
    pub kept: &'a mut [u64],
    pub base: usize,
    pub count: usize,
}

impl Standing<'_> {
    // What is kept of the tree number i, if it is kept.
    fn word(&self, i: usize) -> Option<u64>
        requires { i < self.now.base + length self.now.kept.now }
        ensures { MatchOption result (i < self.now.base) (λ w. (self.now.base ≤ i) × (w ≡ slice_index self.now.kept.now (i - self.now.base))) }
    {
        let place = i.checked_sub(self.base)?;
        Some(self.kept[place])
    }

    // Where the tree number i, which ends at q, begins.
    pub fn begin_of(&self, i: usize, q: usize) -> usize
        requires { TreeAt self.now i q }
        ensures { Skipped self.now.records.now q result }
    {
        match self.word(i) {
            Some(word) => (word / BEGIN) as usize,
            None => skip(self.records, q),
        }
    }

    pub fn class_of(&self, i: usize, q: usize) -> u64
        requires { TreeAt self.now i q }
        ensures { Tells self.now.records.now q (λ t s. class_of_def t) result }
    {
        match self.word(i) {
            Some(word) => word % LABELLED,
            None => class_at(self.records, q),
        }
    }

    // Whether it begins with a label.
    pub fn labelled_of(&self, i: usize, q: usize) -> bool
        requires { TreeAt self.now i q }
        ensures { Tells self.now.records.now q (λ t s. begins_labelled_def t) result }
    {
        match self.word(i) {
            Some(word) => word / LABELLED % 2 == 1,
            None => begins_labelled(self.records, q),
        }
    }

    // Whether it serves a `fun` with a target.
    pub fn serves_of(&self, i: usize, q: usize) -> bool
        requires { TreeAt self.now i q }
        ensures { Tells self.now.records.now q serves_def result }
    {
        match self.word(i) {
            Some(word) => word / SERVES % 2 == 1,
            None => serves_at(self.records, q),
        }
    }

    // The tree number i stands, the last one, and its word is kept, if it has one.
    pub fn stand(&mut self, i: usize, word: Option<u64>)
        requires { i < 18446744073709551615 }
        ensures keeps { Keeps self.old.kept.now self.new.kept.now self.old.base i word self.new.base }
        ensures same { self.new.records.now ≡ self.old.records.now }
        ensures many { self.new.count ≡ i + 1 }
    {
        let n = self.kept.len();
        self.count = i + 1;
        let Some(word) = word else {
            self.base = i + 1;
            return;
        };
        if n == 0 {
            self.base = i + 1;
            return;
        }
        self.base = first_kept(n, self.base, i);
        self.kept[i - self.base] = word;
    }
}

// What is kept of a tree that has a class and begins at b, if it is kept.
pub fn word_of(class: u64, labelled: bool, serves: bool, b: usize) -> Option<u64>
    ensures { result ≡ word_def class labelled serves b }
{
    if LABELLED <= class || FAR <= b {
        return None;
    }
    Some(class + LABELLED * u64::from(labelled) + SERVES * u64::from(serves) + BEGIN * b as u64)
}

// From which number on trees are kept with the tree number i, the last one, where there are n words: from that one on if its number is below the
// first one's, or if there is no room behind the others, so that there is room for the next ones.
fn first_kept(n: usize, base: usize, i: usize) -> usize
    ensures { result ≡ first_kept_def n base i }
{
    if i < base || n <= i - base { i } else { base }
}
