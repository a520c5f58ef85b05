// What calls answer, as the input of `replay` writes it and as a difference prints it: a letter for the case, and a number.
ghost use Rattle.std.specs.Prelude.{◌≡◌, Some, [], ◌∷◌};
ghost use Rattle.grammar.specs.Reading.Next.{reader_at};
ghost use Rattle.compared.specs.Said.{letter, said_text, said, said_of_answer, said_of_written, expects, no_tree, a_tree};

use grammar::limit::QUEUE;
use grammar::{Answer, Reader, Written};
use std::fmt;

// The cases of the answers of the reader, of the writer and of the check of labels, which finds nothing wrong or refuses.
#[derive(Clone, Copy, PartialEq, Eq)]
pub enum Case {
    Tree,
    Error,
    End,
    Stopped,
    Refused,
    Text,
    Fine,
}

impl fmt::Display for Case {
    ghost output = { λ c. Some (letter c ∷ []) };

    fn fmt<W: fmt::Write>(&self, f: &mut fmt::Formatter<W>) -> fmt::Result {
        f.write_str(match self {
            Case::Tree => "t",
            Case::Error => "e",
            Case::End => ".",
            Case::Stopped => "x",
            Case::Refused => "r",
            Case::Text => "w",
            Case::Fine => "l",
        })
    }
}

// An answer by its case and a number: of a tree the count of its nodes, of a text that of its tokens, 0 of the end and where nothing is wrong.
// Stays a case and a number: a line of the input may have any number beside the end, which is then printed as a difference.
#[derive(Clone, Copy, PartialEq, Eq)]
pub struct Said {
    pub case: Case,
    pub number: u64,
}

impl Said {
    pub(crate) fn new(case: Case, number: u64) -> Said
        ensures { result ≡ said case number }
    {
        Said { case, number }
    }
}

impl fmt::Display for Said {
    ghost output = { λ s. Some (said_text s) };

    fn fmt<W: fmt::Write>(&self, f: &mut fmt::Formatter<W>) -> fmt::Result {
        write!(f, "{} {}", self.case, self.number)
    }
}

impl From<Answer> for Said {
    ghost from_gives = { λ answer s. s ≡ said_of_answer answer };

    fn from(answer: Answer) -> Said {
        match answer {
            Answer::Tree(nodes) => Said::new(Case::Tree, nodes as u64),
            Answer::Error(kind) => Said::new(Case::Error, u64::from(kind)),
            Answer::End => Said::new(Case::End, 0),
            Answer::Stopped(n) => Said::new(Case::Stopped, n),
            Answer::Refused(n) => Said::new(Case::Refused, n),
        }
    }
}

impl From<Written> for Said {
    ghost from_gives = { λ written s. s ≡ said_of_written written };

    fn from(answer: Written) -> Said {
        match answer {
            Written::Tokens(count) => Said::new(Case::Text, count as u64),
            Written::Stopped(n) => Said::new(Case::Stopped, n),
            Written::Refused(n) => Said::new(Case::Refused, n),
        }
    }
}

// What is expected of a call of the reader: its answer, the reader that comes back, and the records of the tree in the store, none but of a tree.
#[derive(Clone, Copy)]
pub struct Want<'a> {
    pub said: Said,
    pub reader: Reader,
    pub tree: &'a [u64],
}

impl<'a> Want<'a> {
    // An answer that is no tree.
    pub fn answer(case: Case, number: u64, reader: Reader) -> Want<'a>
        ensures { expects result ≡ no_tree case number reader }
    {
        Want {
            said: Said::new(case, number),
            reader,
            tree: &[],
        }
    }

    // A tree by its records, of two words each.
    pub fn tree(tree: &'a [u64], reader: Reader) -> Want<'a>
        ensures { expects result ≡ a_tree tree.now reader }
    {
        Want {
            said: Said::new(Case::Tree, (tree.len() / 2) as u64),
            reader,
            tree,
        }
    }
}

// A reader at a position, nothing waiting.
pub fn fresh_at(position: usize) -> Reader
    ensures { result ≡ reader_at position [] }
{
    Reader {
        position,
        waiting: 0,
        errors: [0; QUEUE],
        stopped: 0,
    }
}
