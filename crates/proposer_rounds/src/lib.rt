// A round of a pending request, sent after an answer: the second phase, and the first anew.
#![tactic(auto)]

ghost use Rattle.std.specs.Prelude.{◌≡◌, ℕ, length};
ghost use Rattle.proposer_rules.specs.Rules.{next_ballot};
ghost use Rattle.proposer_area.specs.State.{state, pending, HasPending};
ghost use Rattle.proposer_works.specs.Works.{answer_bytes, WorkedOn, accepting, retrying};

use messages::{Answer, Ballot, ENTRIES_AT, Rpc};
use proposer_area::Area;
use proposer_works::send;

// The length of the answer area is required beside the area, here and in each work. `send` puts into the answer area what is still lent
// from the area (a key, a value, a list), so a type of both is taken apart into its two parts all the same; with the length as its ghost
// field it would show the length anew after each write, and each work promise of two lenders that they stay. The clause is one equation.

// What place i holds is required beside `area` and `i`, as in proposer_works.

// Two functions, and not one: the list, the message, the value sent and what is then stored differ, and one would take them all.

// The second phase of the request at place i, whose majority of yeses is noted: its accept requests.
pub fn to_accept(area: &mut Area<'_>, i: usize, answer: &mut [u8]) -> Answer
    requires { (length answer.old ≡ answer_bytes area.old.places) × HasPending area.old i }
    ensures { WorkedOn area.old answer.old (accepting (state area.old) i (pending area.old i)) result area.new answer.new }
{
    let request = proposer_works::request_at(area, i);
    let change = request.change();
    let rpc = Rpc::AcceptReq(request.front.ballot, change.new_mark());
    let list = area.accept_list();
    let sent = send(answer, rpc, change.new_value(), request.key(), list);
    let waited = proposer_area::list(answer, ENTRIES_AT, list.len());
    proposer_area::second_phase(area.bytes, i, waited);
    sent
}

// The request at place i proposed anew at a ballot, which is then the counter.
pub fn propose_again(area: &mut Area<'_>, i: usize, ballot: Ballot, answer: &mut [u8]) -> Answer
    requires { (length answer.old ≡ answer_bytes area.old.places) × HasPending area.old i }
    ensures { (counter : ℕ) → ballot ≡ next_ballot counter → WorkedOn area.old answer.old (retrying (state area.old) counter i (pending area.old i)) result area.new answer.new }
{
    let key = proposer_works::request_at(area, i).key();
    let list = area.propose_list();
    let sent = send(answer, Rpc::ProposeReq(ballot), &[], key, list);
    let waited = proposer_area::list(answer, ENTRIES_AT, list.len());
    proposer_area::again(area.bytes, i, ballot, waited);
    proposer_area::put_counter(area.bytes, ballot.0);
    sent
}
