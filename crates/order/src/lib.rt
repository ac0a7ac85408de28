// No code: definitions and theorems about histories.
#![tactic(auto)]
