// `ProposeRes`: promises and refused proposals of the first phase.
#![tactic(auto)]

ghost use Rattle.std.specs.Prelude.{◌≡◌, true, List, ℕ, length};
ghost use Rattle.std.specs.Prelude.{Option};
ghost use Rattle.messages.specs.Message.{Value, given, result_of};
ghost use Rattle.proposer_rules.specs.Rules.{pending_at, on_promise};
ghost use Rattle.proposer_place.specs.Area.{may_be_lent};
ghost use Rattle.proposer_area.specs.State.{state, pending};
ghost use Rattle.proposer_works.specs.Works.{answer_bytes, MayAsk, WorkedOn, granting, rejecting};

use messages::{Address, Answer, Ballot, Error, Refusal};
use proposer_area::Area;
use proposer_place::{Accepted, Phase};
use proposer_rounds::{propose_again, to_accept};
use proposer_works::{drop_with, noted, short_of};

// The length of the answer area is required beside the area, as in proposer_rounds, and what place i holds beside `area` and `i`, as in
// proposer_works.

// An Ok promise from one who is waited for and has not answered.
fn granted(
    area: &mut Area<'_>,
    i: usize,
    from: Address,
    accepted: Accepted,
    answer: &mut [u8],
) -> Answer
    requires { (length answer.old ≡ answer_bytes area.old.places) × MayAsk area.old i }
    ensures { WorkedOn area.old answer.old (granting (state area.old) (pending area.old i) from accepted.entry.ballot (given accepted.entry.mark accepted.entry.bytes.now)) result area.new answer.new }
{
    let f = proposer_area::take_place(area, i);
    if !f.ballot.above(f.promised) {
        return Answer::Refused(Refusal::PromisedAbove);
    }
    proposer_area::note_promise(area.bytes, i, f, from, accepted);
    if short_of(f.acks_from + 1, f.waiting_for) {
        return Answer::Nothing;
    }
    to_accept(area, i, answer)
}

// A refused proposal from one who is waited for and has not answered.
#[tactic(auto, using(std::proofs::lemmas::Bool::Decides::nat_tests), unfolding(proposer_place::specs::Front::front_of))]
fn rejected(area: &mut Area<'_>, i: usize, from: Address, last: Ballot, answer: &mut [u8]) -> Answer
    requires { (length answer.old ≡ answer_bytes area.old.places) × MayAsk area.old i }
    ensures { (b : Ballot) (v : Option Value) → WorkedOn area.old answer.old (rejecting (state area.old) (pending area.old i) from last b v) result area.new answer.new }
{
    let f = proposer_area::take_place(area, i);
    let Some(counter) = noted(area, i, from, last) else {
        return Answer::Nothing;
    };
    if f.retried {
        return drop_with(area, i, counter, Error::ProposalRejected { last });
    }
    let Some(next) = counter.checked_add(1) else {
        return Answer::Refused(Refusal::CounterUsedUp);
    };
    propose_again(area, i, Ballot(next), answer)
}

// An answer to a proposal, within the limits. That the state may be lent is required, and no ghost field of `Area`: that the ballots are
// distinct and none is above the counter is a law of all places together, which proposer/specs/Stays.antt has for a whole message. A field
// would have to show it at each store of one place, where `Held` asks for a law of that place alone (`place_held` of proposer_area).

// The head, down to `refused`, is `acceptance`'s too (proposer_acceptance), but for the test of the phase in the midst of it: here another
// phase is answered with nothing, there with a refusal. One function would take the phase and that answer, and give an i or an `Answer`,
// which each caller would take apart again.
pub fn promise(
    area: &mut Area<'_>,
    from: Address,
    ballot: Ballot,
    accepted: Accepted,
    res: Result<(), Error>,
    answer: &mut [u8],
) -> Answer
    requires { (length answer.old ≡ answer_bytes area.old.places) × (may_be_lent (state area.old) ≡ true) }
    ensures { (w : List ℕ) → WorkedOn area.old answer.old (on_promise (state area.old) (pending_at ballot (state area.old).places) from accepted.entry.ballot (given accepted.entry.mark accepted.entry.bytes.now) (result_of res w)) result area.new answer.new }
{
    let Some(i) = proposer_area::find(area, ballot) else {
        return Answer::Nothing;
    };
    let request = proposer_works::request_at(area, i);
    if request.front.phase == Phase::Accept {
        return Answer::Nothing;
    }
    if let Some(refusal) = request.refused(from) {
        return Answer::Refused(refusal);
    }
    match res {
        Ok(_) => granted(area, i, from, accepted, answer),
        // no nested pattern: it tells the arms behind it nothing (docs/PROVING.md), and the last needs that the error is another
        Err(e) => match e {
            Error::ProposalRejected { last } => rejected(area, i, from, last, answer),
            Error::AcceptRejected { .. } | Error::CasFailed(_) | Error::Timeout => {
                Answer::Refused(Refusal::ForeignError)
            }
        },
    }
}
