// Definitions and laws on lists and numbers, for every crate: see specs/ and proofs/. There is no code here.
#![tactic(auto)]
