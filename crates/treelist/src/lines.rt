// The lines of a sheet, read byte by byte into the words of its tokens.
// Stays a reading of bytes: zeros may lead a number without end, so no buffer holds every line, and `parse` takes a sign.
ghost use Rattle.std.specs.Prelude.{◌≡◌, ◌<◌, ℕ, Some, false, MatchOption};
ghost use Rattle.treelist.specs.Lines.{at_line as at_line_def, digit as digit_def, letter as letter_def, line_end as line_end_def, step, read, closed, start, said};
ghost use Rattle.treelist.specs.Sheets.{scan, scan_of, within_line, Whole, NotWhole, progress, words_of};

use crate::line::{KIND_AT, Line, MOST_KIND, MOST_NEWLINE, NEWLINE_AT, TEXT, VALUE_AT, is_due};
use arrayvec::ArrayVec;

// Each `None` is a malformed line.
impl Line {
    // Before a line.
    pub fn start() -> Line
        ensures { (lines : ℕ) → scan lines result ≡ at_line_def lines }
    {
        Line {
            at: 0,
            number: None,
            kind: 0,
            newline: false,
        }
    }

    // A digit more of a number below 2^64.
    #[tactic(auto, unfolding(crate::specs::Lines::digit))]
    fn digit(mut self, d: u8) -> Option<Line>
        requires { d < 10 }
        ensures { (lines : ℕ) → scan_of lines result ≡ digit_def (scan lines self) d }
    {
        let tens = self.number.unwrap_or(0).checked_mul(10)?;
        let number = tens.checked_add(u64::from(d))?;
        self.number = Some(number);
        Some(self)
    }

    // A byte that is no digit of a number: the text must have it, and a number that ends here must be in its range.
    #[tactic(auto, unfolding(crate::specs::Lines::letter, crate::specs::Lines::number_end))]
    fn letter(mut self, byte: u8) -> Option<Line>
        ensures { (lines : ℕ) → scan_of lines result ≡ letter_def (scan lines self) byte }
    {
        if *TEXT.get(self.at)? != byte {
            return None;
        }
        match self.at {
            KIND_AT => {
                let kind = self.number.filter(|n| *n <= MOST_KIND)?;
                self.kind = kind as u8;
            }
            NEWLINE_AT => {
                let newline = self.number.filter(|n| *n <= MOST_NEWLINE)?;
                self.newline = newline == 1;
            }
            _ => {}
        }
        self.at += 1;
        self.number = None;
        Some(self)
    }

    // A byte that is no line end.
    pub fn byte(self, byte: u8) -> Option<Line>
        ensures { (lines : ℕ) → scan_of lines result ≡ within_line (scan lines self) byte }
    {
        if byte.is_ascii_digit() && is_due(self.at) {
            self.digit(byte - b'0')
        } else {
            self.letter(byte)
        }
    }

    // The two words of the line's token, if the line is whole.
    pub fn token(self) -> Option<[u64; 2]>
        ensures { MatchOption result (NotWhole self) (Whole self) }
    {
        if self.at != VALUE_AT {
            return None;
        }
        let word = u64::from(self.kind) + 256 * u64::from(self.newline);
        Some([word, self.number?])
    }
}

// Lines of a sheet, at most.
const LINES: usize = 500;

// The two words of each token.
pub type Tokens = ArrayVec<[u64; 2], LINES>;

// The tokens of the whole lines, and the line that is being read; none once a line was malformed.
#[derive(Drop)]
pub struct Sheet {
    tokens: Tokens,
    line: Option<Line>,
}

impl Sheet {
    // Before the first line.
    pub fn new() -> Sheet
        ensures { progress result ≡ start }
    {
        Sheet {
            tokens: ArrayVec::new(),
            line: Some(Line::start()),
        }
    }

    // A line's end: the line must be whole, and one that may still come. Gives the line that comes next.
    #[tactic(auto, unfolding(crate::specs::Lines::line_end))]
    fn line_end(&mut self, line: Line) -> Option<Line>
        requires { self.old.line ≡ Some line }
        ensures { progress (record self.new { line = result }) ≡ line_end_def (progress self.old) }
    {
        self.tokens.try_push(line.token()?).ok()?;
        Some(Line::start())
    }

    // One byte more.
    #[tactic(auto, unfolding(crate::specs::Lines::step))]
    fn byte(&mut self, byte: u8)
        ensures { progress self.new ≡ step (progress self.old) byte }
    {
        if let Some(line) = self.line {
            self.line = if byte == b'\n' {
                self.line_end(line)
            } else {
                line.byte(byte)
            };
        }
    }

    // The bytes that were read, one after the other.
    #[tactic(auto, using(crate::proofs::Scans::read_more, crate::proofs::Scans::read_all), unfolding(crate::specs::Lines::read))]
    pub fn read(&mut self, bytes: &[u8])
        ensures { progress self.new ≡ read (progress self.old) bytes.now }
    {
        for byte in bytes {
            self.byte(*byte);
        }
    }

    // The end of the input also ends a line that was begun.
    #[tactic(auto, unfolding(crate::specs::Lines::closed))]
    pub fn finish(mut self) -> Option<Tokens>
        ensures { words_of result ≡ said (closed (progress self)) }
    {
        let line = self.line?;
        if line.at > 0 {
            self.line_end(line)?;
        }
        Some(self.tokens)
    }
}
