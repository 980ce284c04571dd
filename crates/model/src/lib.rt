#![tactic(auto)]

// The board of functions: definitions and proofs only, no code.
