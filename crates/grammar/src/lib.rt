// The grammar of formula lines and what is proved of it: in specs/ and proofs/.
#![tactic(auto)]
