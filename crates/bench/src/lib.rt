// The checks of RULES.md, "Bench checks", of the store: one table in specs/ and one proof in proofs/. There is no code here.
#![tactic(auto)]
