// What ends trees in the store, and what is read into it without recursion.
#![tactic(auto)]

pub mod fields;
pub mod records;

use scan::Cursor;

// A parameter up to its default's expression: past which word of the tokens, and its name with its access.
#[derive(Clone, Copy)]
pub enum Head {
    Required(usize, u64),
    Variadic(usize, u64),
    Default(usize, u64),
}

// A parameter: past which word of the tokens, and its name with its access; a default is written.
#[derive(Clone, Copy)]
pub enum Parameter {
    Required(usize, u64),
    Variadic(usize, u64),
    Default(Cursor),
}

// Parameters so far: how many are required and how many have a default; and the name of a variadic one with its access.
#[derive(Clone, Copy)]
pub struct Counts {
    pub required: u64,
    pub default: u64,
    pub variadic: Option<u64>,
}

// Parameters so far: past which words they end, and their counts.
#[derive(Clone, Copy)]
pub struct Joined {
    pub end: Cursor,
    pub counts: Counts,
}
