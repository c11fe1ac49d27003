// Demand 3 in its own words, and what else is claimed of lists of calls. Definitions and proofs only.
#![tactic(auto)]
