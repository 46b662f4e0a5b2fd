// The shift of a sheet's quotes that meets a target: definitions and theorems, no function.
#![tactic(auto)]
