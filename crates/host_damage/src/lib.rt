// Condition 3 for lists of calls that a C host makes. This crate has no function: what it gives is in specs/ and proofs/.
#![tactic(auto)]
