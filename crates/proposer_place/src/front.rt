// The front of a place, bytes 0 to 51, as a struct by value.
ghost use Rattle.messages.specs.Message.{of_mark};
ghost use Rattle.std.specs.Prelude.{◌≡◌, Bool, cond, ◌||◌, ◌≤◌, ◌<◌, ◌-◌, ◌+◌, min, eqb, length};
ghost use Rattle.std.proofs.lemmas.List.Edits.{sets};
ghost use Rattle.leaf_fields.specs.Fields.{byte};
ghost use Rattle.proposer_place.specs.Area.{
  used_at,
  waited_at,
  flag_byte,
  phase_from,
  read_pending,
};
ghost use Rattle.proposer_place.specs.Front.{
  phase_of,
  front_of,
  phase_code,
  kind_code,
  first_code,
  second_code,
  mark_bytes,
  number_bytes,
  count_bytes,
  front_bytes,
  with_promise,
  in_second,
  anew,
  Small,
};

use super::{PLACE, PROMISED, VALUES};
use messages::{Address, Ballot, Lent, Req};

// The first phase asks for promises, the second for acceptances.
#[derive(Clone, Copy, PartialEq, Eq)]
pub enum Phase {
    Propose = 1,
    Accept = 2,
}

// A pending request but for its key, values and lists, of which it has the lengths and marks, as bytes 0 to 51 have them. The counts are of
// the type of lengths and not bytes: they say how long rows are and are compared with lengths, and as bytes each such use would widen them.
#[derive(Clone, Copy)]
pub struct Front {
    pub phase: Phase,
    pub retried: bool,
    pub req: Req,
    pub key_len: usize,
    // the request's own values: a `Set`'s or a `Cas`'s old one, a `Cas`'s new one
    pub first_len: usize,
    pub second_len: usize,
    // the promised value
    pub mark: Option<Lent>,
    pub value_len: usize,
    pub client: Address,
    pub id: u64,
    pub ballot: Ballot,
    pub promised: Ballot,
    pub received_at: u64,
    pub waiting_for: usize,
    pub acks_from: usize,
    pub nacks_from: usize,
}

impl Front {
    // One more yes, and its promise taken over.
    pub fn promised_by(self, promised: Ballot, mark: Option<Lent>, value_len: usize) -> Front
        requires { self.acks_from < 256 }
        ensures { result ≡ with_promise self promised mark value_len }
    {
        Front {
            mark,
            value_len,
            promised,
            acks_from: self.acks_from + 1,
            ..self
        }
    }

    // The second phase, with n entries waited for.
    pub fn second_phase(self, n: usize) -> Front
        ensures { result ≡ in_second self n }
    {
        Front {
            phase: Phase::Accept,
            waiting_for: n,
            acks_from: 0,
            nacks_from: 0,
            ..self
        }
    }

    // The request anew at a ballot, with n entries waited for.
    pub fn again(self, ballot: Ballot, n: usize) -> Front
        ensures { result ≡ anew self ballot n }
    {
        Front {
            phase: Phase::Propose,
            retried: true,
            mark: None,
            value_len: 0,
            ballot,
            promised: Ballot(0),
            waiting_for: n,
            acks_from: 0,
            nacks_from: 0,
            ..self
        }
    }
}

// Every byte but 1 is the second phase, as `phase_from` says.
impl From<u8> for Phase {
    ghost from_gives = { λ byte phase. phase ≡ phase_of (phase_from byte) };

    fn from(byte: u8) -> Phase {
        match byte {
            1 => Phase::Propose,
            _ => Phase::Accept,
        }
    }
}

impl From<Phase> for u8 {
    ghost from_gives = { λ phase byte. byte ≡ phase_code phase };

    fn from(phase: Phase) -> u8 {
        phase as u8
    }
}

// The request without its bytes, from its kind and the marks of its two values. Bytes of this layout and a type of another crate, so no
// `From`: this and `kind_code`. The numbers are those of docs/LAYOUT.md; message_numbers has those of include/mirkaspel.h, a second table
// that happens to agree.
fn req_from(kind: u8, first: u8, second: u8) -> Req
    ensures { result ≡ cond (eqb kind 1) Req.Get (cond (eqb kind 2) Req.Del (cond (eqb kind 3) Req.Set (Req.Cas (of_mark first) (of_mark second)))) }
{
    match kind {
        1 => Req::Get,
        2 => Req::Del,
        3 => Req::Set,
        _ => Req::Cas {
            old: Lent::of_mark(first.into()),
            new: Lent::of_mark(second.into()),
        },
    }
}

// The length of a value by its mark, no further than its row goes: a damaged length is read so far, and its place is no image then.
fn length_from(mark: u8, len: u16, room: usize) -> usize
    ensures { (result ≡ cond (eqb mark 0) 0 (min len room)) × (result ≤ room) }
{
    match mark {
        0 => 0,
        _ => usize::from(len).min(room),
    }
}

// The length of a request's first value: `Get` and `Del` have none. The number is matched here again, and not the `Req` that is made of it:
// the clause then is the row of tests that `read_pending` has, and over a `Req` would need a definition and a law to say the same.
fn first_from(kind: u8, mark: u8, len: u16) -> usize
    ensures { (result ≡ cond (eqb kind 1) 0 (cond (eqb kind 2) 0 (cond (eqb mark 0) 0 (min len 768)))) × (result ≤ 768) }
{
    match kind {
        1 | 2 => 0,
        _ => length_from(mark, len, PLACE - VALUES),
    }
}

// And of its second: only a `Cas` has one, directly behind the first.
fn second_from(kind: u8, mark: u8, len: u16, first: usize) -> usize
    requires { first ≤ 768 }
    ensures { (result ≡ cond (eqb kind 1) 0 (cond (eqb kind 2) 0 (cond (eqb kind 3) 0 (cond (eqb mark 0) 0 (min len (768 - first)))))) × (first + result ≤ 768) }
{
    match kind {
        1 | 2 | 3 => 0,
        _ => length_from(mark, len, PLACE - VALUES - first),
    }
}

// Whether a place is free.
pub fn is_free(b: &[u8; PLACE]) -> bool
    ensures { result ≡ eqb (byte b.now used_at) 0 }
{
    b[0] == 0
}

// The ballot of a used place.
#[tactic(auto, unfolding(crate::specs::Area::read_pending))]
pub fn ballot(b: &[u8; PLACE]) -> Ballot
    ensures { result ≡ (read_pending b.now).ballot }
{
    Ballot(leaf_fields::read(b, 24))
}

// The arrival time of a used place.
#[tactic(auto, unfolding(crate::specs::Area::read_pending))]
pub fn arrival(b: &[u8; PLACE]) -> u64
    ensures { result ≡ (read_pending b.now).received_at }
{
    leaf_fields::read(b, 40)
}

// The front of a place, taken out.
pub fn take(b: &[u8; PLACE]) -> Front
    ensures { (result ≡ front_of (read_pending b.now)) × (Small result) × (result.first_len + result.second_len ≤ 768) × (result.value_len ≤ 256) }
{
    let first = first_from(b[3], b[5], leaf_fields::read::<u16>(b, 10));
    let second = second_from(b[3], b[6], leaf_fields::read::<u16>(b, 12), first);
    let value = length_from(b[7], leaf_fields::read::<u16>(b, 14), PLACE - PROMISED);
    Front {
        phase: Phase::from(b[1]),
        retried: b[2] == 1,
        req: req_from(b[3], b[5], b[6]),
        key_len: usize::from(b[4]),
        first_len: first,
        second_len: second,
        mark: Lent::of_mark(b[7].into()),
        value_len: value,
        client: Address(leaf_fields::read(b, 8)),
        id: leaf_fields::read(b, 16),
        ballot: Ballot(leaf_fields::read(b, 24)),
        promised: Ballot(leaf_fields::read(b, 32)),
        received_at: leaf_fields::read(b, 40),
        waiting_for: usize::from(b[48]),
        acks_from: usize::from(b[49]),
        nacks_from: usize::from(b[50]),
    }
}

fn kind_code(req: Req) -> u8
    ensures { result ≡ kind_code req }
{
    match req {
        Req::Get => 1,
        Req::Del => 2,
        Req::Set => 3,
        Req::Cas { .. } => 4,
    }
}

// The marks of a request's two values.
fn marks(req: Req) -> (u8, u8)
    ensures { (result.0 ≡ first_code req) × (result.1 ≡ second_code req) }
{
    match req {
        Req::Get | Req::Del => (0, 0),
        Req::Set => (1, 0),
        Req::Cas { old, new } => (Lent::mark(old), Lent::mark(new)),
    }
}

// The front of a place, put back: it asks for its own bytes alone, and not for the place behind them. `Small` is no ghost field of `Front`:
// `second_phase` and `again` above are public and take any number of entries, and would have to require that it fits a byte. The three
// lengths are put by their width: tried with `write` of an `as u16`, where `overflow_cast` stayed open, since `Small` bounds the single
// bytes alone.
pub fn put(b: &mut [u8], f: Front)
    requires { (waited_at ≤ length b.old) × (Small f) }
    ensures { b.new ≡ sets b.old 0 (front_bytes f) }
{
    let (first, second) = marks(f.req);
    leaf_fields::copy(
        b,
        0,
        &[
            1,
            u8::from(f.phase),
            u8::from(f.retried),
            kind_code(f.req),
            f.key_len as u8,
            first,
            second,
            Lent::mark(f.mark),
        ],
    );
    leaf_fields::write(b, 8, f.client.0);
    leaf_fields::put(b, 10, 2, f.first_len as u64);
    leaf_fields::put(b, 12, 2, f.second_len as u64);
    leaf_fields::put(b, 14, 2, f.value_len as u64);
    leaf_fields::write(b, 16, f.id);
    leaf_fields::write(b, 24, f.ballot.0);
    leaf_fields::write(b, 32, f.promised.0);
    leaf_fields::write(b, 40, f.received_at);
    leaf_fields::copy(
        b,
        48,
        &[
            f.waiting_for as u8,
            f.acks_from as u8,
            f.nacks_from as u8,
            0,
        ],
    );
}
