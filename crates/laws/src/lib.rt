#![tactic(auto)]

// Laws of the rules that hold on any board, reached by commands or not. There is no code here: statements in specs/, proofs in proofs/.
