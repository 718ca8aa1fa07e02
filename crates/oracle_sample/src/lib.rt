// Index files and what the oracle printed for them, as theorems about the definition: no function.
#![tactic(auto)]
