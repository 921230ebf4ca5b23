// Laws that docs/PORT.md names, of loops and answers that src/ no longer has: in proofs/, and nothing rests on them. It has no code.
#![tactic(auto)]
