// The crate's proposer.rs over a lent area. Its rules stand in proposer_rules/specs/Rules.antt, what of them is promised in
// specs/Contract.antt, the area's and the answer area's layout in docs/LAYOUT.md. The works of each message, of the two that set a list
// and of a tick are a crate each: proposer_request, proposer_promise, proposer_acceptance, proposer_lists and proposer_clock.
#![tactic(auto)]

ghost use Rattle.std.specs.Prelude.{◌≡◌, true, cond, List, ℕ, length};
ghost use Rattle.messages.specs.Message.{arrived, message_of};
ghost use Rattle.messages.specs.Refusals.{first_due};
ghost use Rattle.proposer_rules.specs.Rules.{foreign};
ghost use Rattle.proposer_rules.specs.Rules as Rules;
ghost use Rattle.proposer_place.specs.Area.{may_be_lent};
ghost use Rattle.proposer.specs.Contract.{
  area_tests,
  outcome_on,
  tick_on,
  start_on,
  Done,
  Started,
};
ghost use Rattle.proposer_area.specs.State.{state};
ghost use Rattle.proposer_works.specs.Works.{answer_bytes, WorkedOn};

pub use messages::{ENTRIES_AT, KEY_AT, ROW, ROWS_AT};
use messages::{Address, Answer, Incoming, Refusal, Rpc};
use proposer_area::Area;
use proposer_place::Accepted;
use proposer_request::Order;

// `area` and `places` are two parameters in `start`, `refused`, `receive` and `tick`: 01 and the C interface take both, and where they do
// not fit that is refusal 1 or 2. Behind that test `Area` has both. The length of the answer area, refusal 1 too, is required beside an
// `Area`: what is lent from the area is put into the answer area, so a type of both would be taken apart again (proposer_rounds).

// The start: counter 0, nothing pending, and one given list as both lists. Refusals are 1 and 4.
#[tactic(auto, unfolding(crate::specs::Contract::start_on))]
pub fn start(area: &mut [u8], places: usize, timeout: u64, list: &[u16]) -> Answer
    ensures { Started area.old (start_on area.old places timeout list.now) result area.new }
{
    if !proposer_area::is_sized(area, places) {
        return Answer::Refused(Refusal::AreaSize);
    }
    if !messages::list_fits(list) {
        return Answer::Refused(Refusal::OverLimit);
    }
    proposer_lists::begin(area, places, timeout, list);
    Answer::Nothing
}

// Refusal 1 or 2, where it is due to what is lent: an area of that many places, and an answer area. Tried: a function that answers the
// `Area` or the refusal; its caller is told what becomes of the area by an `ensures*` (`RestsIfErr`), which the check proves only of a body
// that hands on a field or a call's result (`lent_spec` stayed open). An `Option`, as `first_due` of its clause is one: of a `Result` the
// callers, which answer an `Answer`, would hand the refusal on by the same `if let`.
#[tactic(auto, using(std::proofs::lemmas::Bool::Decides::nat_tests), unfolding(proposer_place::specs::Area::sized))]
fn refused(area: &[u8], places: usize, answer: &[u8]) -> Option<Refusal>
    ensures { result ≡ first_due (area_tests area.now places answer.now) }
{
    if !proposer_area::is_sized(area, places) || answer.len() != ROWS_AT + ROW * places {
        return Some(Refusal::AreaSize);
    }
    if !proposer_image::is_image(area) {
        return Some(Refusal::Damaged);
    }
    None
}

// A message from an address at a time, on a lent area of that many places. The bytes of an answer are put into the lent answer area. Any
// input is taken; refusals are 1 to 11.
pub fn receive(
    area: &mut [u8],
    places: usize,
    from: Address,
    at: u64,
    message: Incoming,
    answer: &mut [u8],
) -> Answer
    ensures { Done area.old answer.old (outcome_on area.old places answer.old from at (arrived message.entry)) result area.new answer.new }
{
    if let Some(refusal) = refused(area, places, answer) {
        return Answer::Refused(refusal);
    }
    let mut area = Area {
        bytes: area,
        places,
    };
    work(&mut area, from, at, message, answer)
}

// The refusal of a message that is over the limits: a wrong kind ranks before them. The three kinds stand in the match of `work` too, where
// each of the others has an arm of its own.
fn over_limit(rpc: Rpc) -> Refusal
    ensures { (k v u l : List ℕ) → result ≡ cond (foreign (message_of rpc k v u l)) Refusal.WrongKind Refusal.OverLimit }
{
    match rpc {
        Rpc::ClientResponse(..) | Rpc::ProposeReq(_) | Rpc::AcceptReq(..) => Refusal::WrongKind,
        _ => Refusal::OverLimit,
    }
}

// The same on an area that is an image. That its state may be lent is required, and no ghost field of `Area`, as in proposer_promise.
#[tactic(auto, unfolding(proposer_rules::specs::Rules::receive, messages::specs::Limits::within_limits))]
fn work(area: &mut Area<'_>, from: Address, at: u64, message: Incoming, answer: &mut [u8]) -> Answer
    requires { (length answer.old ≡ answer_bytes area.old.places) × (may_be_lent (state area.old) ≡ true) }
    ensures { WorkedOn area.old answer.old (Rules.receive (state area.old) from at (arrived message.entry)) result area.new answer.new }
{
    if !message.fits(from) {
        return Answer::Refused(over_limit(message.rpc));
    }
    let Incoming {
        rpc,
        key,
        value,
        other,
        list,
    } = message;
    match rpc {
        Rpc::ClientRequest(id, req) => {
            let order = Order::of(req, key, value, other);
            proposer_request::request(area, from, at, id, order, answer)
        }
        Rpc::SetAcceptAcceptors => {
            proposer_lists::set_accept(area, list);
            Answer::Nothing
        }
        Rpc::SetProposeAcceptors => {
            proposer_lists::set_propose(area, list);
            Answer::Nothing
        }
        Rpc::ProposeRes {
            req_ballot,
            last_accepted_ballot,
            last_accepted_value,
            res,
        } => {
            let accepted = Accepted::of(last_accepted_ballot, last_accepted_value, value);
            proposer_promise::promise(area, from, req_ballot, accepted, res, answer)
        }
        Rpc::AcceptRes(ballot, res) => {
            proposer_acceptance::acceptance(area, from, ballot, res, answer)
        }
        Rpc::ClientResponse(..) | Rpc::ProposeReq(_) | Rpc::AcceptReq(..) => {
            Answer::Refused(Refusal::WrongKind)
        }
    }
}

// A tick at a time: requests over time are dropped and their clients told. Refusals are 1, 2 and 12.
pub fn tick(area: &mut [u8], places: usize, t: u64, answer: &mut [u8]) -> Answer
    ensures { Done area.old answer.old (tick_on area.old places answer.old t) result area.new answer.new }
{
    if let Some(refusal) = refused(area, places, answer) {
        return Answer::Refused(refusal);
    }
    let mut area = Area {
        bytes: area,
        places,
    };
    proposer_clock::tick(&mut area, t, answer)
}
