// Exact fractions, rounding and enclosure: definitions in specs/, laws in proofs/. No function.
#![tactic(auto)]
