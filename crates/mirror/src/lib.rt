// No code: what is proved of a table turned over, in specs/ and proofs/.
#![tactic(auto)]
