// The places of an area, and one of them: its 976 bytes alone are lent on.
ghost use Rattle.std.specs.Prelude.{◌≡◌, ◌+◌, ◌≤◌, ◌<◌, length};
ghost use Rattle.std.specs.Prelude.{ℕ, ◌^◌, None, Some};
ghost use Rattle.std.proofs.lemmas.List.Edits.{sets};
ghost use Rattle.messages.specs.Message.{given};
ghost use Rattle.messages.specs.Limits.{list_most};
ghost use Rattle.proposer_rules.specs.State.{with_no, with_yes, second_phase, asked_again};
ghost use Rattle.proposer_rules.specs.Rules.{promised_by};
ghost use Rattle.proposer_place.specs.Area.{
  header_bytes,
  area_bytes,
  place_bytes,
  place_image,
  read_pending,
};
ghost use Rattle.proposer_place.specs.Front.{front_of, rows_image, Small, Used, Fit};
ghost use Rattle.proposer_place.specs.Rows.{numbers};
ghost use Rattle.proposer_area.specs.State.{pending};
ghost use Rattle.proposer_area.specs.Places.{place_at, place_in, places_in};

use super::HEADER;
use super::area::Area;
use messages::{Address, Ballot};
use proposer_place::{Accepted, Front, PLACE, Rows};

// The places, each as its bytes.
pub fn places_in(area: &[u8]) -> &[[u8; PLACE]]
    requires { header_bytes ≤ length area.now }
    ensures { (n : ℕ) → length area.now ≡ area_bytes n → result.now ≡ places_in area.now n }
{
    area[HEADER..].as_chunks().0
}

// Where place i begins.
fn start(i: usize) -> usize
    requires { place_at i + place_bytes < 2 ^ 64 }
    ensures { result ≡ place_at i }
{
    HEADER + PLACE * i
}

// What follows lends place i on to `proposer_place` as its array, in the same lines each time. A function that hands out the place itself
// was tried (`place_mut(area, i) -> &mut [u8]`): its `ensures*` is proved only of a body that hands on a field or a call's result, and of
// no part of a slice.

// The front of place i, taken out.
#[tactic(auto, using(crate::specs::HeldLaws::place_room))]
pub fn take_place(area: &Area<'_>, i: usize) -> Front
    requires { i < area.now.places }
    ensures { (result ≡ front_of (pending area.now i)) × (Small result) × (result.first_len + result.second_len ≤ 768) × (result.value_len ≤ 256) }
{
    proposer_place::take(&places_in(&area.bytes)[i])
}

// Place i made free.
pub fn drop_place(area: &mut [u8], i: usize)
    requires { place_at i + place_bytes ≤ length area.old }
    ensures { area.new ≡ sets area.old (place_at i) (place_image None) }
{
    let (_, rest) = area.split_at_mut(start(i));
    let Some(b) = rest.first_chunk_mut::<PLACE>() else {
        unreachable!()
    };
    leaf_fields::clear(b);
}

// A new request at place i, which is free: its front and its rows.
#[tactic(auto, using(crate::specs::PlaceLent::free_room))]
pub fn fill_place(area: &mut [u8], i: usize, f: Front, rows: Rows)
    requires { (place_in area.old i ≡ place_image None) × (Small f) × (Fit rows) }
    ensures { area.new ≡ sets area.old (place_at i) (rows_image f rows.entry) }
{
    let (_, rest) = area.split_at_mut(start(i));
    let Some(b) = rest.first_chunk_mut() else {
        unreachable!()
    };
    proposer_place::write(b, f, rows);
}

// That place i is used is a clause of the five functions below: an `Area` says that each of its places is good, and not which of them are
// used, so on an `Area` they would have a clause too.

// One more no at place i. Why `note_yes` has the same shape stands in proposer_place/src/rows.rt.
#[tactic(auto, using(crate::specs::PlaceLent::used_room))]
pub fn note_no(area: &mut [u8], i: usize, from: Address)
    requires { (Used (place_in area.old i)) × (length (read_pending (place_in area.old i)).nacks_from < list_most) }
    ensures { area.new ≡ sets area.old (place_at i) (place_image (Some (with_no (read_pending (place_in area.old i)) from))) }
{
    let (_, rest) = area.split_at_mut(start(i));
    let Some(b) = rest.first_chunk_mut() else {
        unreachable!()
    };
    proposer_place::note_no(b, from);
}

// One more yes at place i; the promise stays as it was.
#[tactic(auto, using(crate::specs::PlaceLent::used_room))]
pub fn note_yes(area: &mut [u8], i: usize, from: Address)
    requires { (Used (place_in area.old i)) × (length (read_pending (place_in area.old i)).acks_from < list_most) }
    ensures { area.new ≡ sets area.old (place_at i) (place_image (Some (with_yes (read_pending (place_in area.old i)) from (read_pending (place_in area.old i)).promised (read_pending (place_in area.old i)).value))) }
{
    let (_, rest) = area.split_at_mut(start(i));
    let Some(b) = rest.first_chunk_mut() else {
        unreachable!()
    };
    proposer_place::note_yes(b, from);
}

// One more yes at place i, whose front is f; the promise is taken over if its ballot is above the highest promised.
#[tactic(auto, using(crate::specs::PlaceLent::used_room))]
pub fn note_promise(area: &mut [u8], i: usize, f: Front, from: Address, accepted: Accepted)
    requires { (Used (place_in area.old i)) × (f ≡ front_of (read_pending (place_in area.old i))) × (length (read_pending (place_in area.old i)).acks_from < list_most) }
    ensures { area.new ≡ sets area.old (place_at i) (place_image (Some (promised_by (read_pending (place_in area.old i)) from accepted.entry.ballot (given accepted.entry.mark accepted.entry.bytes.now)))) }
{
    let (_, rest) = area.split_at_mut(start(i));
    let Some(b) = rest.first_chunk_mut() else {
        unreachable!()
    };
    if accepted.ballot.above(f.promised) {
        proposer_place::note_promise(b, from, accepted);
    } else {
        proposer_place::note_yes(b, from);
    }
}

// The second phase of the request at place i: the entries of the list are waited for.
#[tactic(auto, using(crate::specs::PlaceLent::used_room))]
pub fn second_phase(area: &mut [u8], i: usize, list: &[[u8; 2]])
    requires { (Used (place_in area.old i)) × (length list.now ≤ list_most) }
    ensures { area.new ≡ sets area.old (place_at i) (place_image (Some (second_phase (numbers list.now) (read_pending (place_in area.old i))))) }
{
    let (_, rest) = area.split_at_mut(start(i));
    let Some(b) = rest.first_chunk_mut() else {
        unreachable!()
    };
    proposer_place::second_phase(b, list);
}

// The request at place i anew at a ballot: the entries of the list are waited for.
#[tactic(auto, using(crate::specs::PlaceLent::used_room))]
pub fn again(area: &mut [u8], i: usize, ballot: Ballot, list: &[[u8; 2]])
    requires { (Used (place_in area.old i)) × (length list.now ≤ list_most) }
    ensures { area.new ≡ sets area.old (place_at i) (place_image (Some (asked_again ballot (numbers list.now) (read_pending (place_in area.old i))))) }
{
    let (_, rest) = area.split_at_mut(start(i));
    let Some(b) = rest.first_chunk_mut() else {
        unreachable!()
    };
    proposer_place::again(b, ballot, list);
}
