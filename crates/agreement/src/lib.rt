// Whole shares of a list of parties (document 02, h): when they agree, what is rebuilt from them, and whom a disagreement names. No code.
#![tactic(auto)]
