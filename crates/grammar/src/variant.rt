// The variants of `Flat`. specs/Flat.antt has the same.
// Stays numbers: `Flat` is what C gets.

pub const TREE: u64 = 0;

pub const ERROR: u64 = 1;

pub const END: u64 = 2;

pub const STOPPED: u64 = 3;

pub const REFUSED: u64 = 4;

pub const TOKENS: u64 = 5;
