// Whether an area is the image of a state that may be lent: the test of refusal 2.
#![tactic(auto)]

mod entries;

ghost use Rattle.std.specs.Prelude.{◌≡◌, true, ℕ, ◌≤◌, ◌<◌, length, map};
ghost use Rattle.std.specs.Prelude.{Some};
ghost use Rattle.std.specs.List.{list_all};
ghost use Rattle.leaf_fields.specs.Fields.{byte, same};
ghost use Rattle.proposer_place.specs.Area.{
  header_bytes,
  read_pending,
  read_place,
  place_image,
  sizes_fit,
  answers_fit,
  promise_fits,
  ballots_of,
  sized,
  is_image,
};
ghost use Rattle.proposer_place.specs.Area as Area;
ghost use Rattle.proposer_image.specs.Good.{header_good, used_good, place_good, TakenFrom};

use entries::{distinct, each_listed, none_zero};
use messages::{KEY_MOST, LIST_MOST, VALUE_MOST};
use proposer_area::{ACCEPT_LIST, HEADER, PROPOSE_LIST, held, list, places_in, take_header};
use proposer_place::{Front, KEY, NO, PLACE, PROMISED, Rows, VALUES, WAITED, YES};

// The header: two lists within the limits, and zeros behind them. A list is read as entries (`list`), and what stands
// behind it as bytes (a range).
#[tactic(auto, unfolding(crate::specs::Good::header_good))]
fn header_good(area: &[u8]) -> bool
    requires { header_bytes ≤ length area.now }
    ensures { result ≡ header_good area.now }
{
    let h = take_header(area);
    let accept = ACCEPT_LIST + 2 * h.accept;
    let propose = PROPOSE_LIST + 2 * h.propose;
    h.accept <= LIST_MOST
        && h.propose <= LIST_MOST
        && area[18] == 0
        && area[19] == 0
        && leaf_fields::zeros(&area[accept..PROPOSE_LIST])
        && leaf_fields::zeros(&area[propose..HEADER])
        && none_zero(list(area, ACCEPT_LIST, h.accept))
        && none_zero(list(area, PROPOSE_LIST, h.propose))
}

// A used place that is read: its bytes, and the front that was taken out of them. No `Request` of proposer_works, whose methods rest on
// `Used`: a place is read here to find out whether it is an image.
#[derive(Drop)]
struct Read<'a> {
    bytes: &'a [u8; PLACE],
    front: Front,
    ghost numbers: { (i : ℕ) → byte bytes.now i < 256 },
    ghost taken: { TakenFrom bytes.now front },
}

impl<'a> Read<'a> {
    fn of(bytes: &'a [u8; PLACE]) -> Read<'a>
        ensures { result.bytes.now ≡ bytes.now }
    {
        Read {
            bytes,
            front: proposer_place::take(bytes),
        }
    }

    // Whether the sizes of a pending request are within the limits, and neither its client nor one that it waits for is address 0.
    fn sizes_fit(&self) -> bool
        ensures { result ≡ sizes_fit (read_pending self.now.bytes.now) }
    {
        let b = self.bytes;
        let f = self.front;
        f.client.0 != 0
            && f.key_len <= KEY_MOST
            && f.first_len <= VALUE_MOST
            && f.second_len <= VALUE_MOST
            && f.waiting_for <= LIST_MOST
            && f.acks_from <= LIST_MOST
            && f.nacks_from <= LIST_MOST
            && none_zero(list(b, WAITED, f.waiting_for))
    }

    // What is read of a place and written again is the same bytes.
    fn same_again(&self) -> bool
        requires { sizes_fit (read_pending self.now.bytes.now) ≡ true }
        ensures { result ≡ same self.now.bytes.now (place_image (Some (read_pending self.now.bytes.now))) }
    {
        let mut written = [0u8; PLACE];
        let b = self.bytes;
        let f = self.front;
        let first = VALUES + f.first_len;
        let rows = Rows {
            waited: &b[WAITED..WAITED + 2 * f.waiting_for],
            yes: &b[YES..YES + 2 * f.acks_from],
            no: &b[NO..NO + 2 * f.nacks_from],
            key: &b[KEY..KEY + f.key_len],
            first: &b[VALUES..first],
            second: &b[first..first + f.second_len],
            promised: &b[PROMISED..PROMISED + f.value_len],
        };
        proposer_place::write(&mut written, f, rows);
        leaf_fields::same(b, &written)
    }

    // Each answerer stands in the waited-for list and answered once.
    fn answers_fit(&self) -> bool
        requires { sizes_fit (read_pending self.now.bytes.now) ≡ true }
        ensures { result ≡ answers_fit (read_pending self.now.bytes.now) }
    {
        let b = self.bytes;
        let f = self.front;
        let waited = list(b, WAITED, f.waiting_for);
        let yes = list(b, YES, f.acks_from);
        let no = list(b, NO, f.nacks_from);
        each_listed(yes, waited, true)
            && each_listed(no, waited, true)
            && distinct(yes)
            && distinct(no)
            && each_listed(yes, no, false)
    }

    // Promised ballot 0 has no value.
    fn promise_fits(&self) -> bool
        ensures { result ≡ promise_fits (read_pending self.now.bytes.now).promised (read_pending self.now.bytes.now).value }
    {
        self.front.mark.is_none() || self.front.promised.0 != 0
    }
}

// A used place, under a counter.
#[tactic(auto, unfolding(crate::specs::Good::used_good, proposer_place::specs::Front::front_of))]
fn used_good(b: &[u8; PLACE], counter: u64) -> bool
    ensures { result ≡ used_good counter b.now }
{
    let place = Read::of(b);
    place.sizes_fit()
        && place.same_again()
        && place.answers_fit()
        && place.promise_fits()
        && (1..=counter).contains(&place.front.ballot.0)
}

// Any place; a free one is all zeros.
#[tactic(auto, unfolding(crate::specs::Good::place_good))]
fn place_good(b: &[u8; PLACE], counter: u64) -> bool
    ensures { result ≡ place_good counter b.now }
{
    if proposer_place::is_free(b) {
        leaf_fields::zeros(b)
    } else {
        used_good(b, counter)
    }
}

// All places.
fn places_good(places: &[[u8; PLACE]], counter: u64) -> bool
    ensures { result ≡ list_all (place_good counter) places.now }
{
    places.iter().all(|b| place_good(b, counter))
}

// No two pending requests have one ballot. The chain is that of `distinct` in entries.rt, over other things: as one function it would take
// the test as a closure, and each caller would still write it, for these three lines.
fn ballots_distinct(places: &[[u8; PLACE]]) -> bool
    ensures { result ≡ Area.distinct (ballots_of (map read_place places.now)) }
{
    places.iter().enumerate().all(|(i, b)| {
        proposer_place::is_free(b) || !held(&places[i + 1..], proposer_place::ballot(b))
    })
}

// Whether the area is the image of a state that may be lent, with as many places as it has the size for. That there is room for a header is
// a clause, as in proposer_area, and no `Area`: whether it may be one is what is tested.
pub fn is_image(area: &[u8]) -> bool
    requires { header_bytes ≤ length area.now }
    ensures { (n : ℕ) → sized area.now n ≡ true → result ≡ is_image area.now n }
{
    let places = places_in(area);
    header_good(area) && places_good(places, take_header(area).counter) && ballots_distinct(places)
}
