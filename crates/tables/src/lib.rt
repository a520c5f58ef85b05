// Definitions in specs/ and theorems in proofs/ only: the tables by which the writer decides and writes, and that they say what the crate grammar's definitions say.
#![tactic(auto)]
