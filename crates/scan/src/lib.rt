// How a reading ends, and what looks at the tokens and at the errors that wait.
#![tactic(auto)]

ghost use Rattle.std.specs.Prelude.{◌≡◌};
ghost use Rattle.scan.specs.Parts.{action_number};

pub mod number;
pub mod queue;
pub mod tokens;

// Where a reading stands: past this word of the tokens, and past this word of the store.
#[derive(Clone, Copy)]
pub struct Cursor {
    pub pos: usize,
    pub at: usize,
}

// An error on its way to whoever catches it: its number, and past which word of the tokens it left off.
#[derive(Clone, Copy)]
pub struct Failure {
    // Stays a number: it waits among the words of the reader that C keeps.
    pub error: u64,
    pub pos: usize,
}

// Why a reading has no result: an error, or a stop by its number.
#[derive(Clone, Copy)]
pub enum Halt {
    Fail(Failure),
    Stop(u64),
}

// The `MatchAction` that a keyword before an assignment stands for: `local`, `nonlocal`, `let` and `var`.
#[derive(Clone, Copy)]
pub enum Action {
    AssignLocal,
    AssignNonLocal,
    DeclImmutable,
    DeclMutable,
}

// An action's number is its place in its enum.
impl From<Action> for u64 {
    ghost from_gives = { λ action number. number ≡ action_number action };

    fn from(action: Action) -> u64 {
        action as u64
    }
}

// The keyword before an assignment, if there is one, and past which word of the tokens.
#[derive(Clone, Copy)]
pub struct Keyword {
    pub pos: usize,
    pub action: Option<Action>,
}

// A number that was read, and past which word of the tokens.
// Stays a number where it may be none (a label): 0, or 1 + it, is what the record has that it goes into, and nothing takes it apart before.
#[derive(Clone, Copy)]
pub struct Found {
    pub pos: usize,
    pub number: u64,
}

// The statements of a list without control: past which words they end, how many they are, and where the last one starts, if it is an expression statement.
#[derive(Clone, Copy)]
pub struct Suite {
    pub end: Cursor,
    pub count: u64,
    pub last: Option<usize>,
}

// Where a statement list ends: before `End`; in a branch of a conditional before `Elif` and `Else` too.
#[derive(Clone, Copy)]
pub enum Until {
    End,
    Branch,
}

// A statement list up to its end. With a control the list and the control are written.
#[derive(Clone, Copy)]
pub enum Listed {
    Suite(Suite),
    Control(Cursor),
}

// What stood at a place of a statement list: a statement; a control; an error that was caught, past which word of the tokens.
#[derive(Clone, Copy)]
pub enum Entry {
    Stmt(Cursor),
    Control(Cursor),
    Caught(usize),
}
