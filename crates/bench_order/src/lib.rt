// No code: what a whole script does on the bench, and that it is a run of the set.
#![tactic(auto)]
