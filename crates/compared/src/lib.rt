// Calls of the reader, of the writer and of the check of labels, compared with what is expected of them: what the programs `replay` and `limits` share.
#![tactic(auto)]

pub mod answer;
pub mod call;
pub mod checking;
pub mod tally;
pub mod trial;
pub mod writing;
