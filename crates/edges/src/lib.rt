// No code: the table of document 01's examples and its theorem.
#![tactic(auto)]
