// The words of the present sheet, and behind them the records for the writer and the check.
ghost use Rattle.std.specs.Prelude.{◌≤◌};
ghost use Rattle.arrayvec.specs.ArrayVec.{array_vec_len};

use arrayvec::ArrayVec;

// How many words there is room for: of longer records the rest is left out, which shows in what is printed of them.
const ROOM: usize = 9192;

#[derive(Drop)]
pub(crate) struct Held {
    all: ArrayVec<u64, ROOM>,
    of_sheet: usize,
    ghost in_range: { of_sheet ≤ array_vec_len all },
}

impl Held {
    pub(crate) fn new() -> Held {
        Held {
            all: ArrayVec::new(),
            of_sheet: 0,
        }
    }

    // Words behind the others, as many as there is room for.
    fn put(&mut self, words: &[u64]) {
        for word in words {
            if self.all.try_push(*word).is_err() {
                return;
            }
        }
    }

    // A sheet, and no records behind it.
    pub(crate) fn put_sheet(&mut self, words: &[u64]) {
        self.of_sheet = 0;
        self.all.clear();
        self.put(words);
        self.of_sheet = self.all.len();
    }

    // Records in place of those before.
    pub(crate) fn put_records(&mut self, words: &[u64]) {
        self.all.truncate(self.of_sheet);
        self.put(words);
    }

    pub(crate) fn sheet(&self) -> &[u64] {
        self.all.split_at(self.of_sheet).0
    }

    pub(crate) fn records(&self) -> &[u64] {
        self.all.split_at(self.of_sheet).1
    }
}
