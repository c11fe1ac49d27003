// Laws only: no code.
#![tactic(auto)]
