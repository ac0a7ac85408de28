// No code.
#![tactic(auto)]
