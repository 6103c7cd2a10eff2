// The message of a script's line (docs/SCRIPT.md): which it is, and which of the line's words hold its bytes. Any input is taken.
#![tactic(auto)]

mod message;
mod places;

pub use message::read_message;
pub use places::{Places, places_of};
