// A call of the reader held to what is expected of it: the answer, the whole reader, every word of the store.
ghost use Rattle.std.specs.Prelude.{◌≡◌, ◌≤◌, ◌<◌, ◌*◌, ◌^◌, OnOk};
ghost use Rattle.grammar.specs.Reading.Next.{next_stmt as next_stmt_def};
ghost use Rattle.compared.specs.Calls.{needed as needed_def, same_said, with_parts, with_called, with_call, with_full, with_short, with_whole};
ghost use Rattle.compared.specs.Said.{expects};
ghost use Rattle.compared.specs.Trials.{Counts};

use crate::answer::{Case, Said, Want, fresh_at};
use crate::tally::count_one;
use crate::trial::{Outcome, Place, RUBBISH, Trial, holds};
use grammar::Reader;
use parser::next_stmt;
use std::io;

// Words of the store that 01 asks for each unread token.
const SHARE: usize = 16;

// Words of the longest store that is lent: that of 500 tokens; and of one that most calls find long enough, which is made faster.
const ROOM: usize = 8000;

const FEW: usize = 1000;

// Tokens of a sheet, at most.
const TOKENS: usize = 65536;

// A call of the reader on a sheet's tokens.
#[derive(Clone, Copy)]
pub struct Call<'a> {
    pub place: Place<'a>,
    pub reader: Reader,
    pub tokens: &'a [u64],
}

impl<'a> Call<'a> {
    pub fn new(place: Place<'a>, reader: Reader, tokens: &'a [u64]) -> Call<'a>
        ensures place { result.place ≡ place.entry }
        ensures reader { result.reader ≡ reader }
        ensures tokens { result.tokens.now ≡ tokens.now }
    {
        Call {
            place,
            reader,
            tokens,
        }
    }

    // The words of store that the call asks for: 16 for each unread token.
    fn needed(&self) -> usize
        ensures { result ≡ needed_def self.now.reader self.now.tokens.now }
    {
        let left = (self.tokens.len() / 2).saturating_sub(self.reader.position);
        if left <= TOKENS { SHARE * left } else { 0 }
    }
}

impl<R: Print> Trial<'_, R> {
    // A call on a store of so many words, compared. A store longer than there is room for counts as a difference.
    pub fn called(&mut self, call: Call, room: usize, want: Want) -> io::Result<()>
        ensures { OnOk result (Counts (with_call call.entry.reader call.entry.tokens.now room (expects want.entry)) self.old self.new) }
    {
        if ROOM < room {
            return self.no_room(call.place);
        }
        if room <= FEW {
            self.called_in::<FEW>(call, room, want)
        } else {
            self.called_in::<ROOM>(call, room, want)
        }
    }

    // A call on so many words of an array, compared.
    // Stays an array: on the heap the programs would rest on three assumptions more about C's functions, and could end for want of memory.
    fn called_in<const N: usize>(&mut self, call: Call, room: usize, want: Want) -> io::Result<()>
        requires room { room ≤ N }
        requires size { N * 8 < 2 ^ 63 }
        ensures { OnOk result (Counts (with_called (next_stmt_def call.entry.reader call.entry.tokens.now room) (expects want.entry)) self.old self.new) }
    {
        let mut array = [0; N];
        let store = &mut array[..room];
        store.fill(RUBBISH);
        let step = next_stmt(call.reader, call.tokens, store);
        let outcome = Outcome {
            place: call.place,
            said: Said::from(step.answer),
            want: want.said,
        };
        let reader = step.reader == want.reader;
        self.parts(outcome, reader, holds(store, want.tree))
    }

    // One call more is compared, by its parts: its answer, its reader, its store.
    fn parts(&mut self, outcome: Outcome, reader: bool, store: bool) -> io::Result<()>
        ensures { OnOk result (Counts (with_parts (same_said outcome.entry.said outcome.entry.want) reader store) self.old self.new) }
    {
        count_one(&mut self.group.answers);
        self.part("answer", outcome.is_expected(), outcome)?;
        self.part("reader", reader, outcome)?;
        self.part("store", store, outcome)
    }

    // A call on a store that is exactly long enough.
    pub fn called_full(&mut self, call: Call, want: Want) -> io::Result<()>
        ensures { OnOk result (Counts (with_full call.entry.reader call.entry.tokens.now (expects want.entry)) self.old self.new) }
    {
        self.called(call, call.needed(), want)
    }

    // A call on a store that is one word short, where a word of it is asked for: refused, with the reader as given and the store zero.
    pub fn called_short(&mut self, call: Call) -> io::Result<()>
        ensures { OnOk result (Counts (with_short call.entry.reader call.entry.tokens.now) self.old self.new) }
    {
        match call.needed().checked_sub(1) {
            // Stays 63, the paper's number: what tries a refusal takes none of the code's constants.
            Some(room) => self.called(call, room, Want::answer(Case::Refused, 63, call.reader)),
            None => Ok(()),
        }
    }

    // A sheet of one statement and a token behind it, from its start: a tree, all tokens but the last taken.
    pub fn read_whole(&mut self, place: Place, tokens: &[u64], tree: &[u64]) -> io::Result<()>
        ensures { OnOk result (Counts (with_whole tokens.now tree.now) self.old self.new) }
    {
        let taken = (tokens.len() / 2).saturating_sub(1);
        let call = Call::new(place, fresh_at(0), tokens);
        self.called_full(call, Want::tree(tree, fresh_at(taken)))
    }
}
