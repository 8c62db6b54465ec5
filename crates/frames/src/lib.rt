// Theorems about frames as they are read and written; no code of its own.
#![tactic(auto)]
