// How a store stands in the lent arrays: relations in specs/, laws in proofs/. It has no code.
#![tactic(auto)]
