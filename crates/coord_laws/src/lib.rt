// No code: theorems about the steps of a coordinator, for runs of the set.
#![tactic(auto)]
