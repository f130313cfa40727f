// Definitions and theorems: see specs/ and proofs/. There is no code here.
#![tactic(auto)]
