// Answers and lent areas as lines of a script's output (docs/SCRIPT.md), put into a lent buffer from a place on, or into an `Output`; what
// doesn't fit there is left out.
#![tactic(auto, using(script_words::specs::LentLaws::joined), unfolding(crate::specs::Lines::area_line, crate::specs::Lines::answer_line))]

mod answer;
mod message;
mod output;
mod show;

pub use answer::put_answer_at;
pub use output::{put_answer, put_area, put_block};
pub use show::{put_area_at, put_block_at};
