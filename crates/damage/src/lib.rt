// What holds of the decoder over whole lists of calls, damage included. This crate has no function: what it gives is in specs/ and proofs/.
#![tactic(auto)]
