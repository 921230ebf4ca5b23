// That the rules keep a store right, and what each step does to the counts: laws in proofs/. It has no code.
#![tactic(auto)]
