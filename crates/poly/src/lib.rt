// Polynomials over a field: no code, only the definitions and theorems of specs/.
#![tactic(auto)]
