// The waiting errors: 96 wait, a 97th stops, a failed statement's own included.
ghost use Rattle.std.specs.Prelude.{◌<◌};

use crate::made::{Layers, stops, waiting_at};
use crate::words::Words;
use compared::answer::{Case, Want, fresh_at};
use compared::call::Call;
use compared::trial::{Place, Trial};
use grammar::Reader;
use std::io;
use token::kind;

// The records of an empty `begin end`: a list, no control, their statement list, no result, the block.
const EMPTY_BLOCK: [u64; 14] = [1, 0, 0, 0, 519, 0, 0, 0, 534, 0, 275, 0, 258, 0];

// `begin`, and so many times `) ;`.
const OPEN_BLOCK: Layers = Layers {
    before: &[],
    middle: &[kind::BEGIN, 0],
    behind: &[kind::CLOSE_PAREN, 0, kind::SEMICOLON, 0],
    end: &[],
};

// The same, and the block's end.
const BLOCK: Layers = Layers {
    end: &[kind::END, 0, kind::EOF, 0],
    ..OPEN_BLOCK
};

// Of so many errors that wait, the front one is answered, and the others wait on.
fn front<R: Print>(
    trial: &mut Trial<R>,
    position: usize,
    left: usize,
    tokens: &[u64],
) -> io::Result<()>
    requires { 0 < left }
{
    let call = Call::new(
        Place::new("errors waiting", left as u64),
        waiting_at(position, 47, left),
        tokens,
    );
    let want = Want::answer(Case::Error, 47, waiting_at(position, 47, left - 1));
    trial.called_full(call, want)
}

// 96 errors that wait are answered one after the other, and behind them comes the end.
fn drained<R: Print>(trial: &mut Trial<R>, position: usize, tokens: &[u64]) -> io::Result<()> {
    for left in (1..97).rev() {
        front(trial, position, left, tokens)?;
    }
    let reader = fresh_at(position);
    let call = Call::new(Place::new("errors waiting", 0), reader, tokens);
    let want = Want::answer(Case::End, 0, reader);
    trial.called_full(call, want)
}

// A block with 96 errors: the tree comes before them.
fn full<R: Print>(trial: &mut Trial<R>, words: &mut Words) -> io::Result<()> {
    BLOCK.words(words, 96)?;
    trial.begin_sheet();
    let call = Call::new(
        Place::new("errors in a block", 96),
        fresh_at(0),
        words.all(),
    );
    let want = Want::tree(&EMPTY_BLOCK, waiting_at(194, 47, 96));
    trial.called_full(call, want)?;
    drained(trial, 194, words.all())
}

// A block with 97 errors.
fn over<R: Print>(trial: &mut Trial<R>, words: &mut Words) -> io::Result<()> {
    BLOCK.words(words, 97)?;
    // Stays 64, the paper's number: what tries a stop takes none of the code's constants.
    stops(trial, Place::new("errors in a block", 97), words.all(), 64)
}

// The reader when 95 errors and the statement's own wait, and the front was answered.
fn own_last() -> Reader {
    let mut reader = waiting_at(191, 47, 95);
    reader.errors[94] = 2;
    reader
}

// A block that has no end fails with the end of tokens, behind its 95 errors; behind 96 it stops.
fn own<R: Print>(trial: &mut Trial<R>, words: &mut Words) -> io::Result<()> {
    let name = "errors and the statement's own";
    OPEN_BLOCK.words(words, 95)?;
    trial.begin_sheet();
    let call = Call::new(Place::new(name, 95), fresh_at(0), words.all());
    let want = Want::answer(Case::Error, 47, own_last());
    trial.called_full(call, want)?;
    OPEN_BLOCK.words(words, 96)?;
    stops(trial, Place::new(name, 96), words.all(), 64)
}

pub fn queues<R: Print>(trial: &mut Trial<R>, memory: &mut [u64]) -> io::Result<()> {
    let mut words = Words::new(memory);
    full(trial, &mut words)?;
    over(trial, &mut words)?;
    own(trial, &mut words)
}
