// Two makers' scenes that meet the hypotheses of demand 3: scenes and tables, in specs/, and what holds of them, in
// proofs/. There is no code.
#![tactic(auto)]
