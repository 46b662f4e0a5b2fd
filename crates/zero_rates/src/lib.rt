// The annual zero rates of a year's band: definitions and theorems, no function.
#![tactic(auto)]
