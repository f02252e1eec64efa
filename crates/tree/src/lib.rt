// Theory only: see specs/.
#![tactic(auto)]
