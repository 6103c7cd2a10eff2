// The proposer's lent area: its header, its places, and the searches over them.
#![tactic(auto)]

mod area;
mod entries;
mod places;
mod search;

ghost use Rattle.std.specs.Prelude.{◌≡◌, ◌≤◌, ◌<◌, length};
ghost use Rattle.std.proofs.lemmas.List.Edits.{sets};
ghost use Rattle.leaf_fields.specs.Fields.{to_le};
ghost use Rattle.proposer_place.specs.Area.{counter_at, header_bytes, sized};
ghost use Rattle.proposer_area.specs.Places.{header_in};

pub use area::Area;
pub use entries::{address, list, listed};
use messages::PENDING_MOST;
pub use places::{
    again, drop_place, fill_place, note_no, note_promise, note_yes, places_in, second_phase,
    take_place,
};
use proposer_place::PLACE;
pub use search::{find, held, lowest_free};

pub const HEADER: usize = 80;

// The entries of the accept list and of the propose list.
pub const ACCEPT_LIST: usize = 20;

pub const PROPOSE_LIST: usize = 50;

// The numbers of the header, and how many entries the two lists have.
#[derive(Clone, Copy)]
pub struct Header {
    pub counter: u64,
    pub timeout: u64,
    pub accept: usize,
    pub propose: usize,
}

// The header, taken out. That there is room for one is a clause here and of `places_in`, and no fact of a type: of what is lent nothing is
// known but its size when refusal 2 is tested. `put_counter` asks for no more than that room, though its callers have an `Area`.
pub fn take_header(area: &[u8]) -> Header
    requires { header_bytes ≤ length area.now }
    ensures { (result ≡ header_in area.now) × (result.accept < 256) × (result.propose < 256) }
{
    Header {
        counter: leaf_fields::read(area, 0),
        timeout: leaf_fields::read(area, 8),
        accept: usize::from(area[16]),
        propose: usize::from(area[17]),
    }
}

// The counter, put back.
pub fn put_counter(area: &mut [u8], counter: u64)
    requires { header_bytes ≤ length area.old }
    ensures { area.new ≡ sets area.old counter_at (to_le 8 counter) }
{
    leaf_fields::write(area, 0, counter);
}

// Whether the area has the size for its places, 1 to 32. The public operations are lent the two side by side and refuse them by this test
// (01, refusal 1).
#[tactic(auto, using(std::proofs::lemmas::Bool::Decides::nat_tests), unfolding(proposer_place::specs::Area::sized))]
pub fn is_sized(area: &[u8], places: usize) -> bool
    ensures { result ≡ sized area.now places }
{
    (1..=PENDING_MOST).contains(&places) && area.len() == HEADER + PLACE * places
}
