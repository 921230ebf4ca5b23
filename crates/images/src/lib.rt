// Writing and loading undo each other: laws in proofs/. It has no code.
#![tactic(auto)]
