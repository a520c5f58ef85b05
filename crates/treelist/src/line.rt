// Where the reading of a line of a sheet stands, `token=K newline=N value=V`.
ghost use Rattle.std.specs.Prelude.{◌≡◌, ◌≤◌};
ghost use Rattle.treelist.specs.Lines.{value_at, is_due as is_due_def};

// The bytes of a line but its numbers; a number is due behind 6, 15 and all 22 of them.
pub const TEXT: [u8; 22] = *b"token= newline= value=";

pub const KIND_AT: usize = 6;

pub const NEWLINE_AT: usize = 15;

pub const VALUE_AT: usize = 22;

pub const MOST_KIND: u64 = 76;

pub const MOST_NEWLINE: u64 = 1;

// Where the reading of a line stands: how many bytes of the text were met, the number that is due once it has a digit, and the
// kind and the newline once they are read. Its methods stand in lines.rt: a struct with a ghost field imports what the clauses of its
// file name, and theirs name the struct.
#[derive(Clone, Copy)]
pub struct Line {
    pub at: usize,
    pub number: Option<u64>,
    pub kind: u8,
    pub newline: bool,
    ghost within: { at ≤ value_at },
}

// Whether a number is due behind so many bytes of the text.
pub fn is_due(at: usize) -> bool
    ensures { result ≡ is_due_def at }
{
    matches!(at, KIND_AT | NEWLINE_AT | VALUE_AT)
}
