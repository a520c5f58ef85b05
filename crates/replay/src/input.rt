// The input's lines, byte by byte: a letter, then numbers, with `=` behind some of them. A line `#` is a comment; what follows `>` is printed.
ghost use Rattle.std.specs.Prelude.{◌≤◌};
ghost use Rattle.arrayvec.specs.ArrayVec.{array_vec_len};

use arrayvec::ArrayVec;
use compared::answer::Case;
use std::io;

// Numbers of a line, at most: a line with more is printed as malformed.
const NUMBERS: usize = 8192;

// What goes wrong with a line: it is malformed, or what it asks for fails.
#[derive(Debug, Drop)]
pub(crate) enum LineError {
    Malformed,
    Failed(io::Error),
}

impl From<io::Error> for LineError {
    fn from(error: io::Error) -> LineError {
        LineError::Failed(error)
    }
}

// What a line with numbers is: a sheet; an answer of the reader to it; records for the writer and the check; a text or the number of a reason, which
// the writer answers; what the check of labels answers.
#[derive(Clone, Copy)]
pub(crate) enum Letter {
    Sheet,
    Answer(Case),
    Records,
    Text,
    Reason,
    Check,
}

impl TryFrom<u8> for Letter {
    type Error = LineError;

    fn try_from(byte: u8) -> Result<Letter, LineError> {
        match byte {
            b's' => Ok(Letter::Sheet),
            b't' => Ok(Letter::Answer(Case::Tree)),
            b'e' => Ok(Letter::Answer(Case::Error)),
            b'.' => Ok(Letter::Answer(Case::End)),
            b'x' => Ok(Letter::Answer(Case::Stopped)),
            b'a' => Ok(Letter::Records),
            b'w' => Ok(Letter::Text),
            b'n' => Ok(Letter::Reason),
            b'l' => Ok(Letter::Check),
            _ => Err(LineError::Malformed),
        }
    }
}

// The numbers of a line, how many of them stand before `=`, and the number that is begun.
#[derive(Drop)]
pub(crate) struct Numbers {
    all: ArrayVec<u64, NUMBERS>,
    mark: usize,
    begun: Option<u64>,
    ghost in_range: { mark ≤ array_vec_len all },
}

impl Numbers {
    fn new() -> Numbers {
        Numbers {
            all: ArrayVec::new(),
            mark: 0,
            begun: None,
        }
    }

    // None again, in the same memory, so that no line pays for the longest.
    fn clear(&mut self) {
        self.mark = 0;
        self.all.clear();
        self.begun = None;
    }

    // One byte more, unless it makes them malformed. A number that `=` stands in is one that stands behind it.
    fn byte_read(&mut self, byte: u8) -> Option<()> {
        match byte {
            b' ' => self.end()?,
            b'=' => self.mark = self.all.len(),
            digit => self.begun = Some(with_digit(self.begun.unwrap_or(0), digit)?),
        }
        Some(())
    }

    // A number that was begun is whole, unless there are too many.
    fn end(&mut self) -> Option<()> {
        if let Some(number) = self.begun {
            self.all.try_push(number).ok()?;
            self.begun = None;
        }
        Some(())
    }

    pub(crate) fn all(&self) -> &[u64] {
        &self.all
    }

    // The numbers before `=`, and those behind it.
    pub(crate) fn parts(&self) -> (&[u64], &[u64]) {
        self.all.split_at(self.mark)
    }
}

// A line so far: its number from 1, its first byte, its numbers, and whether those are malformed. No more of it is kept, so that a line of any length is read.
#[derive(Drop)]
pub(crate) struct Line {
    pub at: u64,
    pub first: Option<u8>,
    numbers: Numbers,
    malformed: bool,
}

impl Line {
    // Before the first byte of the input.
    pub(crate) fn start() -> Line {
        Line {
            at: 1,
            first: None,
            numbers: Numbers::new(),
            malformed: false,
        }
    }

    // Before the first byte of the next line.
    pub(crate) fn next(&mut self) {
        self.at = self.at.wrapping_add(1);
        self.first = None;
        self.numbers.clear();
        self.malformed = false;
    }

    // One byte more, which ends no line. Bytes 0 in front of a line are passed over.
    pub(crate) fn byte_read(&mut self, rt: &impl Print, byte: u8) -> io::Result<()> {
        match self.first {
            None => self.first = Some(byte).filter(|first| *first != 0),
            Some(b'#') => {}
            Some(b'>') => rt.write_all(&[byte])?,
            Some(_) => self.number_byte(byte),
        }
        Ok(())
    }

    // A byte of the numbers.
    fn number_byte(&mut self, byte: u8) {
        if !self.malformed {
            self.malformed = self.numbers.byte_read(byte).is_none();
        }
    }

    // Its numbers, where the line is whole.
    pub(crate) fn numbers(&mut self) -> Result<&Numbers, LineError> {
        if self.malformed {
            return Err(LineError::Malformed);
        }
        self.numbers.end().ok_or(LineError::Malformed)?;
        Ok(&self.numbers)
    }
}

// A number with a digit more, if that is one and the number stays below 2^64.
// Stays beside treelist's `Line::digit`: the two programs share no crate for text, and that one is proved of a definition of its own.
fn with_digit(number: u64, digit: u8) -> Option<u64> {
    let digit = digit.checked_sub(b'0').filter(|d| *d < 10)?;
    number.checked_mul(10)?.checked_add(u64::from(digit))
}
