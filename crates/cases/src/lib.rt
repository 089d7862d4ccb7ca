#![tactic(auto)]

// Worked cases over the definitions, each with what the rules say of it: the list stands in specs/, its proof in proofs/. No code.
