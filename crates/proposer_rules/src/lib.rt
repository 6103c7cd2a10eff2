// The crate's proposer.rs as rules on values: 01's section line by line in specs/Rules.antt, over the state of specs/State.antt.
#![tactic(auto)]
