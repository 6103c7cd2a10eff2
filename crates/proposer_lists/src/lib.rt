// `SetAcceptAcceptors` and `SetProposeAcceptors`: the two lists of the header; and the area of a start, which has one list as both.
#![tactic(auto)]

ghost use Rattle.std.specs.Prelude.{◌≡◌, true, ◌+◌, ◌≤◌, ◌<◌, length, set};
ghost use Rattle.std.proofs.lemmas.List.Edits.{sets};
ghost use Rattle.messages.specs.Limits.{list_most, list_fits};
ghost use Rattle.proposer_rules.specs.Rules.{with_lists, start};
ghost use Rattle.proposer_place.specs.Area.{list_bytes, list_row, area_image, sized};
ghost use Rattle.proposer_area.specs.State.{Becomes, state};

use messages::LIST_MOST;
use proposer_area::{ACCEPT_LIST, Area, PROPOSE_LIST};

// A list of the header: where its row begins, and where its count stands.
#[derive(Clone, Copy)]
struct Slot {
    row: usize,
    count: usize,
}

const ACCEPT: Slot = Slot {
    row: ACCEPT_LIST,
    count: 16,
};

const PROPOSE: Slot = Slot {
    row: PROPOSE_LIST,
    count: 17,
};

const TIMEOUT: usize = 8;

// The bytes of a list's row.
const ROW: usize = 2 * LIST_MOST;

// A list's row of 30 bytes: two bytes an entry, unused ones zero. That a list is within the limits is a clause throughout, and no fact of a
// type: a message's limits are tested in one place, and such a list would be made in three places of proposer and taken apart here. Tried
// for the loop: `d.chunks_exact_mut(2).zip(list)`, where `returns` stayed open: nothing told what d is when the chunks have come back.
fn write_row(d: &mut [u8], list: &[u16])
    requires { (length d.old ≡ list_bytes) × (length list.now ≤ list_most) }
    ensures { d.new ≡ list_row list.now }
{
    leaf_fields::clear(d);
    for (i, address) in list.iter().enumerate() {
        leaf_fields::write(d, 2 * i, *address);
    }
}

// A list in the header: its row and its count.
fn put_list(area: &mut [u8], slot: Slot, list: &[u16])
    requires { (slot.row + list_bytes ≤ length area.old) × (slot.count < length area.old) × (length list.now ≤ list_most) }
    ensures { area.new ≡ set (sets area.old slot.row (list_row list.now)) slot.count (length list.now) }
{
    write_row(&mut area[slot.row..slot.row + ROW], list);
    area[slot.count] = list.len() as u8;
}

// Another accept list. As one with `set_propose` it would take an enum of the two lists and its matches, for these two lines.
pub fn set_accept(area: &mut Area<'_>, list: &[u16])
    requires { list_fits list.now ≡ true }
    ensures { Becomes area.old area.new (with_lists (state area.old) list.now (state area.old).propose_acceptors) }
{
    put_list(area.bytes, ACCEPT, list);
}

// Another propose list.
pub fn set_propose(area: &mut Area<'_>, list: &[u16])
    requires { list_fits list.now ≡ true }
    ensures { Becomes area.old area.new (with_lists (state area.old) (state area.old).accept_acceptors list.now) }
{
    put_list(area.bytes, PROPOSE, list);
}

// The image of the start, in any bytes of the right size. `start` is lent the area and its places side by side and refuses them (01,
// refusal 1), and before this there is no `Area`.
pub fn begin(area: &mut [u8], places: usize, timeout: u64, list: &[u16])
    requires { (sized area.old places ≡ true) × (list_fits list.now ≡ true) }
    ensures { area.new ≡ area_image (start timeout list.now places) }
{
    leaf_fields::clear(area);
    leaf_fields::write(area, TIMEOUT, timeout);
    put_list(area, ACCEPT, list);
    put_list(area, PROPOSE, list);
}
