// The tree behind a total, in both kinds of net. Definitions and proofs only.
#![tactic(auto)]
