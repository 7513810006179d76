// No call of a guide is refused whose fixes lie on the globe: the states and lines meant are in specs/, the proof in proofs/.
#![tactic(auto)]
