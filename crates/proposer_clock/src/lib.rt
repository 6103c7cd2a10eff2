// A tick: requests over time, in ascending ballot order.
#![tactic(auto)]

mod clock;

ghost use Rattle.std.specs.Prelude.{◌≡◌, [], ◌∷◌, ◌+◌, ◌*◌, ◌≤◌, length};
ghost use Rattle.std.proofs.lemmas.List.Edits.{sets};
ghost use Rattle.messages.specs.Answers.{rows_at, row_bytes, rows_bytes};
ghost use Rattle.proposer_rules.specs.Rules.{moved, in_time, late_ones, rows_of};
ghost use Rattle.proposer_rules.specs.Rules as Rules;
ghost use Rattle.proposer_area.specs.State.{state, Becomes};
ghost use Rattle.proposer_works.specs.Works.{answer_bytes, WorkedOn};

use clock::{clock_back, lowest_late};
use messages::{Address, Answer, ROW, ROWS_AT, Refusal};
use proposer_area::Area;

// A client and its request's id, as row k of the answer area.
fn put_row(answer: &mut [u8], k: usize, client: Address, id: u64)
    requires { rows_at + row_bytes * k + row_bytes ≤ length answer.old }
    ensures { answer.new ≡ sets answer.old (rows_at + row_bytes * k) (rows_bytes (record { client = client; id = id } ∷ [])) }
{
    let at = ROWS_AT + ROW * k;
    leaf_fields::write(answer, at, client.0);
    leaf_fields::write(answer, at + 2, id);
}

// Drops every request over time, the one with the lowest ballot first; how many they are. A `for` and no chain: each turn changes the area
// and drops one request, so there are at most as many turns as places, and the turn that finds none is the count. The length of the answer
// area is required beside the area, as in proposer_rounds.
fn expire(area: &mut Area<'_>, t: u64, answer: &mut [u8]) -> usize
    requires { length answer.old ≡ answer_bytes area.old.places }
    ensures { (result ≡ length (late_ones (state area.old) t (state area.old).places)) × Becomes area.old area.new (moved (state area.old) (state area.old).counter (in_time (state area.old) t (state area.old).places)) × (answer.new ≡ sets answer.old rows_at (rows_bytes (rows_of (late_ones (state area.old) t (state area.old).places)))) }
{
    for k in 0..area.places {
        let Some(i) = lowest_late(area, t) else {
            return k;
        };
        let f = proposer_area::take_place(area, i);
        put_row(answer, k, f.client, f.id);
        proposer_area::drop_place(area.bytes, i);
    }
    area.places
}

// A tick.
#[tactic(auto, unfolding(proposer_rules::specs::Rules::tick))]
pub fn tick(area: &mut Area<'_>, t: u64, answer: &mut [u8]) -> Answer
    requires { length answer.old ≡ answer_bytes area.old.places }
    ensures { WorkedOn area.old answer.old (Rules.tick (state area.old) t) result area.new answer.new }
{
    if clock_back(area, t) {
        return Answer::Refused(Refusal::ClockBack);
    }
    match expire(area, t, answer) {
        0 => Answer::Nothing,
        rows => Answer::Timeouts(rows),
    }
}
