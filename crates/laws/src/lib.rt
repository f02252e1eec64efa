// Definitions and laws of lists: see specs/.
#![tactic(auto)]
