// The words of a script's line (docs/SCRIPT.md): numbers, bytes and lists are read, and text, numbers and bytes are put out. Any input is
// taken, and nothing outside the lent buffers is touched.
#![tactic(auto)]

mod bytes;
mod list;
mod number;
mod put;
mod words;

pub use bytes::{BYTES_MOST, is_bytes, unhex};
pub use list::{LIST_ROOM, is_list, read_list};
pub use number::{read_address, read_number};
pub use put::{Output, put_byte, put_hex, put_number, put_text};
pub use words::{WORDS_MOST, Words, place_of, split};
