// The crate's acceptor.rs as rules on values: 01's section line by line in specs/Rules.antt.
#![tactic(auto)]
