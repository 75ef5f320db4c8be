// The stack that an accepted module needs: theorems, all in specs/.
#![tactic(auto)]
