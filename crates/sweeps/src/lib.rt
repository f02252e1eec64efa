// Laws of unmapping a range mapping by mapping; no code.
#![tactic(auto)]
