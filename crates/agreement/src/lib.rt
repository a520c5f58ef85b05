// No functions: definitions in specs/ and theorems in proofs/, what calls of the entries on two sheets have to do with the canonical tokens of what is left unread.
#![tactic(auto)]
