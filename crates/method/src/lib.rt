// Sections 1 to 6 of docs/SPECIFICATION.md, up to the curve, the true curve and the enclosure: definitions in specs/, theorems
// in proofs/. No function.
#![tactic(auto)]
