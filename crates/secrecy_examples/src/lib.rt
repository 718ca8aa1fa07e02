// Pairs of files for demand 3, as theorems about the definition: no function.
#![tactic(auto)]
