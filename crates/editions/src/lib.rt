// The conversions between editions 3 and 4 and what is proved of them: all in specs/.
#![tactic(auto)]
