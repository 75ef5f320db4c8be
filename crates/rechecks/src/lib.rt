// The record beside a module and the check of one body, and what is proved of them: all in specs/.
#![tactic(auto)]
