#![tactic(auto)]

// What the board promises: demand 3 of the people it is built for, stated in specs/ over the rules and proved in proofs/. No code.
