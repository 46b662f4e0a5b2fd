// The book, its page, every list of calls and the count: definitions in specs/, the three demands in proofs/. No function.
#![tactic(auto)]
