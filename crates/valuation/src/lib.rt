// The value of a block of policies on a curve: definitions and theorems, no function.
#![tactic(auto)]
