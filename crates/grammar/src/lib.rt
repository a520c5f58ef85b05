// The types of the calls: the reader that goes in and out, what a reading call answers, what the writer answers, and both as two numbers for C
// (their variants in variant.rt); and the limits.
#![tactic(auto)]

ghost use Rattle.std.specs.Prelude.{◌≡◌};
ghost use Rattle.grammar.specs.Reading.Next.{kind_number, error_kind};
ghost use Rattle.grammar.specs.Flat.{flat_answer, flat_written};

pub mod limit;
pub mod variant;

// Why a statement failed: a lexer error, no token left, or a syntax error by its number.
#[derive(Clone, Copy, PartialEq, Eq)]
pub enum ErrorKind {
    LexerError,
    EndofTokenStream,
    SyntaxError(u64),
}

// Its number, as the table of errors has it (docs/NUMBERS.md).
impl From<ErrorKind> for u64 {
    ghost from_gives = { λ kind number. number ≡ kind_number kind };

    fn from(kind: ErrorKind) -> u64 {
        match kind {
            ErrorKind::LexerError => 1,
            ErrorKind::EndofTokenStream => 2,
            ErrorKind::SyntaxError(n) => n,
        }
    }
}

// The error kind of a number.
impl From<u64> for ErrorKind {
    ghost from_gives = { λ number kind. kind ≡ error_kind number };

    fn from(number: u64) -> ErrorKind {
        match number {
            1 => ErrorKind::LexerError,
            2 => ErrorKind::EndofTokenStream,
            _ => ErrorKind::SyntaxError(number),
        }
    }
}

// What a call answers: a tree of so many nodes in the store, an error, the end, a stop or a refusal by its number.
#[derive(Clone, Copy, PartialEq, Eq)]
pub enum Answer {
    Tree(usize),
    Error(ErrorKind),
    End,
    Stopped(u64),
    Refused(u64),
}

// The numbers of the errors that wait, the oldest first, and 0 behind them.
pub type Queue = [u64; limit::QUEUE];

// Where a reading stands: the tokens taken so far, how many errors wait, which they are, and the number of the stop, 0 for none.
// Stays an array with a count, and a number with 0 for none: C keeps these words, and hands in any.
// Stays without a constructor: a host writes the four fields, in C as in Rattle.
#[derive(Clone, Copy, PartialEq, Eq)]
pub struct Reader {
    pub position: usize,
    pub waiting: usize,
    pub errors: Queue,
    pub stopped: u64,
}

// The answer of a call, and the reader to hand to the next one.
#[derive(Clone, Copy)]
pub struct Stepped {
    pub answer: Answer,
    pub reader: Reader,
}

// What the writer answers: so many tokens written, or a stop or a refusal by its number.
// Stays an enum of its own and no Result, as `Answer` does: document 01 names its cases, and a Result would have two of the three one level deeper, in an enum of errors.
#[derive(Clone, Copy, PartialEq, Eq)]
pub enum Written {
    Tokens(usize),
    Stopped(u64),
    Refused(u64),
}

// An answer for C: its variant (variant.rt) and its number: how many nodes or tokens, 0 for the end, else document 01's number.
#[repr(C)]
#[derive(Clone, Copy, PartialEq, Eq)]
pub struct Flat {
    pub variant: u64,
    pub number: u64,
}

impl From<Answer> for Flat {
    ghost from_gives = { λ answer flat. flat ≡ flat_answer answer };

    fn from(answer: Answer) -> Flat {
        match answer {
            Answer::Tree(nodes) => Flat {
                variant: variant::TREE,
                number: nodes as u64,
            },
            Answer::Error(kind) => Flat {
                variant: variant::ERROR,
                number: u64::from(kind),
            },
            Answer::End => Flat {
                variant: variant::END,
                number: 0,
            },
            Answer::Stopped(number) => Flat {
                variant: variant::STOPPED,
                number,
            },
            Answer::Refused(number) => Flat {
                variant: variant::REFUSED,
                number,
            },
        }
    }
}

impl From<Written> for Flat {
    ghost from_gives = { λ written flat. flat ≡ flat_written written };

    fn from(written: Written) -> Flat {
        match written {
            Written::Tokens(tokens) => Flat {
                variant: variant::TOKENS,
                number: tokens as u64,
            },
            Written::Stopped(number) => Flat {
                variant: variant::STOPPED,
                number,
            },
            Written::Refused(number) => Flat {
                variant: variant::REFUSED,
                number,
            },
        }
    }
}
