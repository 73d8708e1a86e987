// Demand 3: one theorem about any list of calls after any accepted start. This crate has no code: the statement is
// specs/Demand3.antt, and its proof proofs/Holds.antt.
#![tactic(auto)]
