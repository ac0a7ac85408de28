// No code: document 01's starred figures, one theorem over a table of them; its worked case as a run, computed.
#![tactic(auto)]
