// The sheets of the input and the answers that the published parser gave: a line `s` begins a sheet, each line after it expects an answer.
// A line `w` or `n` expects what the writer makes of the tree before it, or of the records of a line `a`, and a line `l` what the check of labels answers of them.
use crate::held::Held;
use crate::input::{Letter, Line, LineError, Numbers};
use compared::answer::{Case, Want, fresh_at};
use compared::call::Call;
use compared::checking::Verdict;
use compared::trial::{Place, Trial};
use compared::writing::Writing;
use grammar::limit::QUEUE;
use grammar::{Queue, Reader};
use std::io;

// Words of the output for a tree of the input: those of 500 tokens, and some more.
const ROOM: usize = 1003;

// Where the replay stands: the counts, the present sheet and the records, and the reader that the next call gets.
#[derive(Drop)]
pub(crate) struct Run<'a, R> {
    trial: Trial<'a, R>,
    held: Held,
    reader: Reader,
}

impl<'a, R: Print> Run<'a, R> {
    // Before the first line.
    pub(crate) fn new(rt: &'a R) -> Run<'a, R> {
        Run {
            trial: Trial::new(rt),
            held: Held::new(),
            reader: fresh_at(0),
        }
    }

    // A whole line. One that can't be one counts as a difference.
    pub(crate) fn line_read(&mut self, line: &mut Line) -> io::Result<()> {
        let at = line.at;
        match self.first_read(line) {
            Ok(()) => Ok(()),
            Err(LineError::Malformed) => self.trial.malformed(at),
            Err(LineError::Failed(error)) => Err(error),
        }
    }

    // The counts of all groups.
    pub(crate) fn end(&self) -> io::Result<()> {
        self.trial.end()
    }

    // A line by its first byte. The name of a group that ends is printed already.
    fn first_read(&mut self, line: &mut Line) -> Result<(), LineError> {
        match line.first {
            None => Err(LineError::Malformed),
            Some(b'#') => Ok(()),
            Some(b'>') => Ok(self.trial.end_group("")?),
            Some(first) => {
                let at = line.at;
                let letter = Letter::try_from(first)?;
                let numbers = line.numbers()?;
                Ok(self.numbers_read(at, letter, numbers)?)
            }
        }
    }

    // A line with numbers, by its letter.
    fn numbers_read(&mut self, at: u64, letter: Letter, numbers: &Numbers) -> io::Result<()> {
        let all = numbers.all();
        match letter {
            Letter::Sheet => {
                self.sheet_read(all);
                Ok(())
            }
            Letter::Answer(case) => self.answer_read(at, case, numbers),
            Letter::Records => {
                self.held.put_records(all);
                Ok(())
            }
            Letter::Text => self.text_expected(at, all),
            Letter::Reason => self.reason_expected(at, all),
            Letter::Check => self.verdict_expected(at, all),
        }
    }

    // A sheet begins: its words, and a fresh reader.
    fn sheet_read(&mut self, words: &[u64]) {
        self.held.put_sheet(words);
        self.reader = fresh_at(0);
        self.trial.begin_sheet();
    }

    // A line that expects an answer. The next call gets the reader that this one was to return; the records are held for the writer and the check.
    fn answer_read(&mut self, at: u64, case: Case, numbers: &Numbers) -> io::Result<()> {
        let (before, behind) = numbers.parts();
        let want = wanted(case, before, behind);
        self.stepped(at, want)?;
        self.stepped_again(at, want)?;
        self.reader = want.reader;
        self.held.put_records(want.tree);
        Ok(())
    }

    // The call whose answer a line expects, on a store that is exactly long enough; before it, where no error waits, the call on a store one word short.
    fn stepped(&mut self, at: u64, want: Want) -> io::Result<()> {
        let call = Call::new(Place::new("line", at), self.reader, self.held.sheet());
        if call.reader.waiting == 0 {
            self.trial.called_short(call)?;
        }
        self.trial.called_full(call, want)
    }

    // After an end or a stop the same call answers the same and leaves the reader as it is.
    fn stepped_again(&mut self, at: u64, want: Want) -> io::Result<()> {
        let call = Call::new(
            Place::new("again, line", at),
            want.reader,
            self.held.sheet(),
        );
        match want.said.case {
            Case::End | Case::Stopped => self.trial.called_full(call, want),
            _ => Ok(()),
        }
    }

    // The text that a line expects for a tree is written, and read back it gives the tree.
    fn text_expected(&mut self, at: u64, text: &[u64]) -> io::Result<()> {
        let back = Place::new("read back, line", at);
        let writing = Writing::new(Place::new("line", at), self.held.records());
        self.trial.is_written(writing, &mut [0; ROOM], text)?;
        self.trial.read_whole(back, text, self.held.records())
    }

    // The reason that a line expects for records that are not written.
    fn reason_expected(&mut self, at: u64, numbers: &[u64]) -> io::Result<()> {
        let writing = Writing::new(Place::new("line", at), self.held.records());
        let number = number_at(numbers, 0);
        self.trial.is_not_written(writing, &mut [0; ROOM], number)
    }

    // What a line expects the check to answer of the records that are held.
    fn verdict_expected(&mut self, at: u64, numbers: &[u64]) -> io::Result<()> {
        let want = Verdict::new(number_at(numbers, 0), number_at(numbers, 1));
        let place = Place::new("line", at);
        self.trial.is_checked(place, self.held.records(), want)
    }
}

// The number at a place of a line, 0 past the end.
fn number_at(numbers: &[u64], i: usize) -> u64 {
    numbers.get(i).copied().unwrap_or(0)
}

// A queue whose first places hold these numbers, with 0 behind them.
fn queue_of(numbers: &[u64]) -> Queue {
    let mut queue = [0; QUEUE];
    for (place, number) in queue.iter_mut().zip(numbers) {
        *place = *number;
    }
    queue
}

// What a line expects: before `=` the tree's records or the number of the answer, behind it the reader, its position, how many errors wait, and those errors.
fn wanted<'a>(case: Case, before: &'a [u64], behind: &[u64]) -> Want<'a> {
    let number = number_at(before, 0);
    let reader = Reader {
        position: number_at(behind, 0) as usize,
        waiting: number_at(behind, 1) as usize,
        // Where fewer than two numbers stand there, all of them.
        errors: queue_of(behind.get(2..).unwrap_or(behind)),
        stopped: if case == Case::Stopped { number } else { 0 },
    };
    match case {
        Case::Tree => Want::tree(before, reader),
        _ => Want::answer(case, number, reader),
    }
}
