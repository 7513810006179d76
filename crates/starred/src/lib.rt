// Document 01's starred lines as one table about the rules: the table is in specs/, its proof in proofs/.
#![tactic(auto)]
