#![tactic(auto)]

// What is printed for a sheet that was run, as definitions, with their laws. There is no code here: definitions in specs/, proofs in proofs/.
