// How the records of an expression, in a store, become those of the pattern that it is, in place and in two steps: `can_be_pattern` decides
// over the whole expression and only reads the store; `move_to_pattern` then moves the records and has no failing answer. docs/PATTERNS.md shows the way of one pattern through both.
// Records stand in post-order, so from the right they are read root first, then the last child:
// what stands from `from` up to one index is a row of trees that are all to be patterns, and no depth is kept.
#![tactic(auto)]

pub mod deciding;
pub mod moving;
