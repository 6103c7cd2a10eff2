// What the works of the proposer's messages share: a message to each entry of a list in the answer area, the pending request as it is
// read, the test for a majority, and a request dropped or a no noted with another counter. What a work is stands in specs/Works.antt.
#![tactic(auto)]

mod request;

ghost use Rattle.std.specs.Prelude.{◌≡◌, not, [], ◌≤◌, max, leb, length};
ghost use Rattle.std.specs.Prelude.{None, Some, MatchOption};
ghost use Rattle.std.specs.List.{flat_map};
ghost use Rattle.messages.specs.Message.{Reply, failure_of};
ghost use Rattle.messages.specs.Limits.{key_most, value_most, list_most};
ghost use Rattle.messages.specs.Answers.{rows_at, answer_of};
ghost use Rattle.proposer_rules.specs.State.{with_no};
ghost use Rattle.proposer_rules.specs.Rules.{majority_of, to_client};
ghost use Rattle.proposer_area.specs.State.{state, pending, HasPending, Becomes};
ghost use Rattle.proposer_works.specs.Works.{MayAsk, Noted, Outvoted, placed};
ghost use Rattle.proposer_works.specs.Sent.{sent_in, told_in};

pub use messages::{ENTRIES_AT, KEY_AT, ROW, ROWS_AT};
use messages::{Address, Answer, Ballot, Error, Rpc};
use proposer_area::Area;
pub use request::{Request, request_at};

// The largest counter: no ballot is above it.
pub const COUNTER_MOST: u64 = u64::MAX;

// A message to each entry of a list: its value, its key and the entries are put into the answer area, and the enum is answered. A list
// without entries is the answer nothing, which needs no bytes. The limits are clauses: each part is a slice of a place, of the header or of a
// message, whose type has its own.
pub fn send(answer: &mut [u8], rpc: Rpc, value: &[u8], key: &[u8], list: &[[u8; 2]]) -> Answer
    requires { (rows_at ≤ length answer.old) × (length value.now ≤ value_most) × (length key.now ≤ key_most) × (length list.now ≤ list_most) }
    ensures { let entries = flat_map (λ e. e) list.now in (answer.new ≡ sent_in answer.old value.now key.now entries) × (result ≡ told_in rpc value.now key.now entries) }
{
    if list.is_empty() {
        return Answer::Nothing;
    }
    leaf_fields::copy(answer, 0, value);
    leaf_fields::copy(answer, KEY_AT, key);
    leaf_fields::copy(answer, ENTRIES_AT, list.as_flattened());
    Answer::Broadcast {
        rpc,
        entries: list.len(),
        key_len: key.len(),
        value_len: value.len(),
    }
}

// Whether a majority of n entries is not reached by that many answers.
pub fn short_of(answers: usize, n: usize) -> bool
    ensures { result ≡ not (leb (majority_of n) answers) }
{
    answers < proposer_change::majority(n)
}

// The higher of two numbers: `max`, under the name that callers of this crate have for it.
pub fn higher(x: u64, y: u64) -> u64
    ensures { result ≡ max x y }
{
    x.max(y)
}

// What is done at place i takes the area and i, and requires what the place then holds. Of a type of both, with that as its ghost field,
// the field is false once `drop_with` has dropped the place; and the type would hold the `&mut Area`, so that each work had to promise of
// two lenders, the area's and the bytes', that they stay (`lent` of `WorkedOn` twice).

// The request at place i dropped, its client told an error, and the counter raised.
pub fn drop_with(area: &mut Area<'_>, i: usize, counter: u64, error: Error) -> Answer
    requires { HasPending area.old i }
    ensures { (result ≡ answer_of (to_client (pending area.old i) (Reply.Failed (failure_of error [])))) × Becomes area.old area.new (placed (state area.old) counter i None) }
{
    let f = proposer_area::take_place(area, i);
    proposer_area::drop_place(area.bytes, i);
    proposer_area::put_counter(area.bytes, counter);
    Answer::Message {
        to: f.client,
        rpc: Rpc::ClientResponse(f.id, Err(error)),
        value_len: 0,
    }
}

// One more no at place i, and another counter.
pub fn raise_with(area: &mut Area<'_>, i: usize, counter: u64, from: Address)
    requires { MayAsk area.old i }
    ensures { Becomes area.old area.new (placed (state area.old) counter i (Some (with_no (pending area.old i) from))) }
{
    proposer_area::note_no(area.bytes, i, from);
    proposer_area::put_counter(area.bytes, counter);
}

// One more no at place i, whose message has `last`: short of a majority it is noted and the counter raised; else the raised counter, and
// nothing has moved.
pub fn noted(area: &mut Area<'_>, i: usize, from: Address, last: Ballot) -> Option<u64>
    requires { MayAsk area.old i }
    ensures { MatchOption result (Noted area.old area.new i from last) (λ counter. Outvoted area.old area.new i from last counter) }
{
    let h = area.header();
    let f = proposer_area::take_place(area, i);
    let counter = higher(h.counter, last.0);
    if short_of(f.nacks_from + 1, f.waiting_for) {
        raise_with(area, i, counter, from);
        return None;
    }
    Some(counter)
}
