// What holds of a guide after a list of calls that keep their contracts: demands 3 and 1 of the program. The claims are in specs/, the
// proofs in proofs/.
#![tactic(auto)]
