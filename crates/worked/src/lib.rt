// The specification's worked examples (SPECIFICATION 14). This crate has no code: its table is specs/Examples.antt, and its proof proofs/Worked.antt.
#![tactic(auto)]
