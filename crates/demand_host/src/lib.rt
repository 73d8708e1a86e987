// Demand 3 where the host stands, over the exports' own contracts: no code.
#![tactic(auto)]
