// What the limits are tried on: words laid down many times, readers with errors waiting and with a stop, and a sheet that stops.
ghost use Rattle.std.specs.Prelude.{◌≡◌, ◌++◌, IfOk, OnOk};
ghost use Rattle.limits.specs.Laid.{laid};

use crate::words::Words;
use compared::answer::{Case, Want, fresh_at};
use compared::call::Call;
use compared::trial::{Place, Trial};
use grammar::Reader;
use grammar::limit::QUEUE;
use std::io;
use tree::word;

// Words in layers: some so many times, those in the middle, some as many times behind them, and those at the end.
#[derive(Clone, Copy)]
pub struct Layers {
    pub before: &'static [u64],
    pub middle: &'static [u64],
    pub behind: &'static [u64],
    pub end: &'static [u64],
}

impl Layers {
    // Laid down behind others.
    fn put(self, words: &mut Words, times: usize) -> io::Result<()>
        ensures { OnOk result (words.new ≡ words.old ++ laid self times) }
    {
        words.lay(self.before, times)?;
        words.put(self.middle)?;
        words.lay(self.behind, times)?;
        words.put(self.end)
    }

    // And with none before them.
    pub fn words(self, words: &mut Words, times: usize) -> io::Result<()>
        ensures { OnOk result (words.new ≡ laid self times) }
    {
        words.clear();
        self.put(words, times)
    }
}

// The words of two layers, one behind the other, and nothing before them.
pub(crate) fn both<'w>(
    words: &'w mut Words,
    first: Layers,
    second: Layers,
    times: usize,
) -> io::Result<(&'w [u64], &'w [u64])>
    ensures { IfOk result (λ both. (both.0.now ≡ laid first times) × (both.1.now ≡ laid second times)) }
{
    first.words(words, times)?;
    let length = words.all().len();
    second.put(words, times)?;
    Ok(words.all().split_at(length))
}

// The records of signs before a name.
pub const SIGNS_TREE: Layers = Layers {
    before: &[],
    middle: &[word::IDENTIFIER, 7],
    behind: &[word::UNARY_OP, 0],
    end: &[word::EXPRESSION, 0],
};

// A reader at a position, with one error waiting so many times.
pub fn waiting_at(position: usize, error: u64, waiting: usize) -> Reader {
    let mut errors = [0; QUEUE];
    errors[..waiting.min(QUEUE)].fill(error);
    Reader {
        waiting,
        errors,
        ..fresh_at(position)
    }
}

// A reader at a position that has stopped.
pub fn stopped_at(position: usize, stopped: u64) -> Reader {
    Reader {
        stopped,
        ..fresh_at(position)
    }
}

// A sheet that stops the reader, by this number, and once more the stopped reader.
pub(crate) fn stops<R: Print>(
    trial: &mut Trial<R>,
    place: Place,
    tokens: &[u64],
    number: u64,
) -> io::Result<()> {
    trial.begin_sheet();
    let stopped = stopped_at(0, number);
    let want = Want::answer(Case::Stopped, number, stopped);
    for reader in [fresh_at(0), stopped] {
        trial.called_full(Call::new(place, reader, tokens), want)?;
    }
    Ok(())
}
