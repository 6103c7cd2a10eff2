// Scripts: one line of text is one step of a run (docs/SCRIPT.md). Reads a line into a step, and its bytes into lent buffers. Any input is
// taken, and nothing outside the lent buffers is touched.
#![tactic(auto)]

mod step;

pub use step::{Line, Step, read};
