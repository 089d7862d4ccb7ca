#![tactic(auto)]

// What the block format finds: the theorems stand in proofs/, over the definitions of the crate block. No code.
