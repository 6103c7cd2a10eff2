// Messages and answers in numbers, as callers in C and Rust pass and take them (include/mirkaspel.h).
#![tactic(auto)]

mod answer;
mod head;

pub use answer::{hand_back, refusal_of};
pub use head::{Head, incoming};
