// The rows of a place: lists, key and values, and what a message changes of them.
ghost use Rattle.std.specs.Prelude.{◌≡◌, ◌+◌, ◌*◌, ◌≤◌, ◌<◌, length, replicate};
ghost use Rattle.std.specs.Prelude.{Some};
ghost use Rattle.std.proofs.lemmas.List.Edits.{sets};
ghost use Rattle.messages.specs.Answers.{entry_bytes};
ghost use Rattle.messages.specs.Limits.{list_most};
ghost use Rattle.messages.specs.Message.{given};
ghost use Rattle.proposer_rules.specs.State.{with_no, with_yes, second_phase, asked_again};
ghost use Rattle.proposer_place.specs.Area.{place_bytes, waited_at, place_image, read_pending};
ghost use Rattle.proposer_place.specs.Front.{Small, Used, Fit, rows_image};
ghost use Rattle.proposer_place.specs.Rows.{numbers};

use super::accepted::Accepted;
use super::{Front, KEY, LISTS_END, NO, PLACE, PROMISED, VALUES, WAITED, YES, put, take};
use messages::{Address, Ballot};

// The rows of a place behind its front: the three lists, the key, the request's values and the promised one. By default they are empty.
#[derive(Clone, Copy, Default)]
pub struct Rows<'a> {
    pub waited: &'a [u8],
    pub yes: &'a [u8],
    pub no: &'a [u8],
    pub key: &'a [u8],
    pub first: &'a [u8],
    pub second: &'a [u8],
    pub promised: &'a [u8],
}

// A whole place, on one of zeros: its front, and each row with zeros behind what it holds.
pub fn write(b: &mut [u8; PLACE], f: Front, rows: Rows)
    requires { (b.old ≡ replicate place_bytes 0) × (Small f) × (Fit rows) }
    ensures { b.new ≡ rows_image f rows.entry }
{
    leaf_fields::copy(b, WAITED, rows.waited);
    leaf_fields::copy(b, YES, rows.yes);
    leaf_fields::copy(b, NO, rows.no);
    leaf_fields::copy(b, KEY, rows.key);
    leaf_fields::copy(b, VALUES, rows.first);
    leaf_fields::copy(b, VALUES + rows.first.len(), rows.second);
    leaf_fields::copy(b, PROMISED, rows.promised);
    put(b, f);
}

// The five functions below require `Used` and no type over the lent place carries it, as `Area` carries `Held`: such a field has to hold
// after each store through the lent bytes. A work stores in an `Area` by calls, each of which leaves an image; here a function writes a row
// and then the front that counts it, and between the two the place is no image.

// One more no. As one function with `note_yes` it would take the row and the field as parameters, for these two lines.
#[tactic(auto, using(crate::specs::PlaceRows::used_length, crate::specs::PlaceRows::room_no))]
pub fn note_no(b: &mut [u8; PLACE], from: Address)
    requires { (Used b.old) × (length (read_pending b.old).nacks_from < list_most) }
    ensures { b.new ≡ place_image (Some (with_no (read_pending b.old) from)) }
{
    let f = take(b);
    leaf_fields::write(b, NO + 2 * f.nacks_from, from.0);
    put(
        b,
        Front {
            nacks_from: f.nacks_from + 1,
            ..f
        },
    );
}

// One more yes; the promise stays as it was.
#[tactic(auto, using(crate::specs::PlaceRows::used_length, crate::specs::PlaceRows::room_yes))]
pub fn note_yes(b: &mut [u8; PLACE], from: Address)
    requires { (Used b.old) × (length (read_pending b.old).acks_from < list_most) }
    ensures { b.new ≡ place_image (Some (with_yes (read_pending b.old) from (read_pending b.old).promised (read_pending b.old).value)) }
{
    let f = take(b);
    leaf_fields::write(b, YES + 2 * f.acks_from, from.0);
    put(
        b,
        Front {
            acks_from: f.acks_from + 1,
            ..f
        },
    );
}

// One more yes, whose ballot and value are taken over as the highest promised.
#[tactic(auto, using(crate::specs::PlaceRows::used_length, crate::specs::PlaceRows::room_yes))]
pub fn note_promise(b: &mut [u8; PLACE], from: Address, accepted: Accepted)
    requires { (Used b.old) × (length (read_pending b.old).acks_from < list_most) }
    ensures { b.new ≡ place_image (Some (with_yes (read_pending b.old) from accepted.entry.ballot (given accepted.entry.mark accepted.entry.bytes.now))) }
{
    let f = take(b);
    let value = accepted.value();
    leaf_fields::write(b, YES + 2 * f.acks_from, from.0);
    leaf_fields::clear(&mut b[PROMISED..PLACE]);
    leaf_fields::copy(b, PROMISED, value);
    put(
        b,
        f.promised_by(accepted.ballot, accepted.mark, value.len()),
    );
}

// The entries of a list, stored as those that are waited for. The place is lent as a slice here. Tried with its array: `returns` of
// the two functions below stayed open, since what is stored must be known to be bytes, and the check tells that of a slice alone.
fn wait_for(b: &mut [u8], list: &[[u8; 2]])
    requires { waited_at + 2 * length list.now ≤ length b.old }
    ensures { b.new ≡ sets b.old waited_at (entry_bytes (numbers list.now)) }
{
    leaf_fields::copy(b, WAITED, list.as_flattened());
}

// The second phase: the entries of the list are waited for, and nobody has answered. That they are few is a clause, here, in `again` and in
// the two of proposer_area, and no fact of a type: a short list would be made in the two works of proposer_rounds and taken apart here.
#[tactic(auto, using(crate::specs::PlaceRows::used_length))]
pub fn second_phase(b: &mut [u8; PLACE], list: &[[u8; 2]])
    requires { (Used b.old) × (length list.now ≤ list_most) }
    ensures { b.new ≡ place_image (Some (second_phase (numbers list.now) (read_pending b.old))) }
{
    let f = take(b);
    leaf_fields::clear(&mut b[WAITED..LISTS_END]);
    wait_for(b, list);
    put(b, f.second_phase(list.len()));
}

// The request anew at a ballot: the entries of the list are waited for, and nothing is promised.
#[tactic(auto, using(crate::specs::PlaceRows::used_length))]
pub fn again(b: &mut [u8; PLACE], ballot: Ballot, list: &[[u8; 2]])
    requires { (Used b.old) × (length list.now ≤ list_most) }
    ensures { b.new ≡ place_image (Some (asked_again ballot (numbers list.now) (read_pending b.old))) }
{
    let f = take(b);
    leaf_fields::clear(&mut b[WAITED..LISTS_END]);
    leaf_fields::clear(&mut b[PROMISED..PLACE]);
    wait_for(b, list);
    put(b, f.again(ballot, list.len()));
}
