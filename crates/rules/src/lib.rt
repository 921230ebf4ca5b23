// The rules of document 01 as definitions in specs/, and the starred cases computed from them. It has no code.
#![tactic(auto)]
