// The journal of a list of calls, and the claim about it: all is in specs/ and proofs/.
#![tactic(auto)]
