// A place of the proposer's area: one pending request in 976 bytes (docs/LAYOUT.md). Its front is taken out and put back as a struct by
// value; its key, values and lists stay in their rows. specs/State.antt has the request, specs/Area.antt its image.
#![tactic(auto)]

mod accepted;
mod front;
mod rows;

pub use accepted::Accepted;
pub use front::{Front, Phase, arrival, ballot, is_free, put, take};
pub use rows::{Rows, again, note_no, note_promise, note_yes, second_phase, write};

pub const PLACE: usize = 976;

pub const WAITED: usize = 52;

pub const YES: usize = 82;

pub const NO: usize = 112;

pub const LISTS_END: usize = 142;

pub const KEY: usize = 144;

pub const VALUES: usize = 208;

pub const PROMISED: usize = 720;
