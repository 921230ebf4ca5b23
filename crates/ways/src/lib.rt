// The theory of ways down a graph: definitions in specs/, laws in proofs/. It has no code.
#![tactic(auto)]
