// `AcceptRes`: acceptances and refused ones of the second phase.
#![tactic(auto)]

ghost use Rattle.std.specs.Prelude.{◌≡◌, true, cond, List, ℕ, length, Ok, Err};
ghost use Rattle.messages.specs.Message.{Failure, Verdict, result_of};
ghost use Rattle.messages.specs.Answers.{marked};
ghost use Rattle.proposer_rules.specs.Rules.{
  pending_at,
  acceptance_work,
  on_acceptance,
};
ghost use Rattle.proposer_change.specs.Change.{applied_in};
ghost use Rattle.proposer_place.specs.Area.{may_be_lent};
ghost use Rattle.proposer_area.specs.State.{state, pending, HasPending};
ghost use Rattle.proposer_works.specs.Works.{answer_bytes, MayAsk, WorkedOn, settled};

use messages::{Address, Answer, Ballot, Error, Lent, Refusal, Rpc};
use proposer_area::Area;
use proposer_change::Change;
use proposer_place::Phase;
use proposer_works::{drop_with, noted, short_of};

// What a client is told of its request: the new value, or a failed compare with the promised one, which then is the new value too.
fn response(change: Change) -> Result<Option<Lent>, Error>
    ensures { let new = applied_in change.entry in result ≡ cond new.failed (Err (Error.CasFailed (marked new.value))) (Ok (marked new.value)) }
{
    let new = change.new_mark();
    if change.cas_failed() {
        return Err(Error::CasFailed(new));
    }
    Ok(new)
}

// The length of the answer area is required beside the area, as in proposer_rounds, and what place i holds beside `area` and `i`, as in
// proposer_works.

// The request at place i is settled: it is dropped and its client told.
fn settle(area: &mut Area<'_>, i: usize, answer: &mut [u8]) -> Answer
    requires { (length answer.old ≡ answer_bytes area.old.places) × HasPending area.old i }
    ensures { WorkedOn area.old answer.old (settled (state area.old) i (pending area.old i)) result area.new answer.new }
{
    let request = proposer_works::request_at(area, i);
    let f = request.front;
    let change = request.change();
    let told = response(change);
    let value = change.new_value();
    let len = value.len();
    leaf_fields::copy(answer, 0, value);
    proposer_area::drop_place(area.bytes, i);
    Answer::Message {
        to: f.client,
        rpc: Rpc::ClientResponse(f.id, told),
        value_len: len,
    }
}

// An acceptance from one who is waited for and has not answered.
fn taken(area: &mut Area<'_>, i: usize, from: Address, answer: &mut [u8]) -> Answer
    requires { (length answer.old ≡ answer_bytes area.old.places) × MayAsk area.old i }
    ensures { WorkedOn area.old answer.old (acceptance_work (state area.old) (pending area.old i) from Verdict.Granted) result area.new answer.new }
{
    let f = proposer_area::take_place(area, i);
    if short_of(f.acks_from + 1, f.waiting_for) {
        proposer_area::note_yes(area.bytes, i, from);
        return Answer::Nothing;
    }
    settle(area, i, answer)
}

// A refused acceptance from one who is waited for and has not answered.
fn turned_down(area: &mut Area<'_>, i: usize, from: Address, last: Ballot) -> Answer
    requires { MayAsk area.old i }
    ensures { (w : List ℕ) → WorkedOn area.old w (acceptance_work (state area.old) (pending area.old i) from (Verdict.Denied (Failure.AcceptRejected last))) result area.new w }
{
    let Some(counter) = noted(area, i, from, last) else {
        return Answer::Nothing;
    };
    drop_with(area, i, counter, Error::AcceptRejected { last })
}

// An answer to an accept request, within the limits. That the state may be lent is required, and the head is not one function with that of
// `promise`: the reasons stand there (proposer_promise).
pub fn acceptance(
    area: &mut Area<'_>,
    from: Address,
    ballot: Ballot,
    res: Result<(), Error>,
    answer: &mut [u8],
) -> Answer
    requires { (length answer.old ≡ answer_bytes area.old.places) × (may_be_lent (state area.old) ≡ true) }
    ensures { (w : List ℕ) → WorkedOn area.old answer.old (on_acceptance (state area.old) (pending_at ballot (state area.old).places) from (result_of res w)) result area.new answer.new }
{
    let Some(i) = proposer_area::find(area, ballot) else {
        return Answer::Nothing;
    };
    let request = proposer_works::request_at(area, i);
    if request.front.phase == Phase::Propose {
        return Answer::Refused(Refusal::FirstPhase);
    }
    if let Some(refusal) = request.refused(from) {
        return Answer::Refused(refusal);
    }
    match res {
        Ok(_) => taken(area, i, from, answer),
        // no nested pattern: it tells the arms behind it nothing (docs/PROVING.md), and the last needs that the error is another
        Err(e) => match e {
            Error::AcceptRejected { last } => turned_down(area, i, from, last),
            Error::ProposalRejected { .. } | Error::CasFailed(_) | Error::Timeout => {
                Answer::Refused(Refusal::ForeignError)
            }
        },
    }
}
