// `ClientRequest`: a new pending request, and its proposals.
#![tactic(auto)]

mod order;

ghost use Rattle.std.specs.Prelude.{◌≡◌, true, length};
ghost use Rattle.messages.specs.Message.{Message};
ghost use Rattle.messages.specs.Limits.{within_limits};
ghost use Rattle.proposer_rules.specs.Rules.{on_request};
ghost use Rattle.proposer_area.specs.State.{state};
ghost use Rattle.proposer_works.specs.Works.{answer_bytes, WorkedOn};
ghost use Rattle.proposer_request.specs.Order.{asked_in};

use messages::{Address, Answer, Ballot, ENTRIES_AT, ENTRY, Refusal, Rpc};
pub use order::Order;
use proposer_area::Area;
use proposer_place::Rows;
use proposer_works::{COUNTER_MOST, send};

// A request that is within the limits.
pub fn request(
    area: &mut Area<'_>,
    from: Address,
    at: u64,
    id: u64,
    order: Order,
    answer: &mut [u8],
) -> Answer
    requires { (length answer.old ≡ answer_bytes area.old.places) × (within_limits from (Message.ClientRequest id (asked_in order)) ≡ true) }
    ensures { WorkedOn area.old answer.old (on_request (state area.old) from at id (asked_in order.entry)) result area.new answer.new }
{
    let h = area.header();
    if h.counter == COUNTER_MOST {
        return Answer::Refused(Refusal::CounterUsedUp);
    }
    let Some(i) = proposer_area::lowest_free(area) else {
        return Answer::Refused(Refusal::NoRoom);
    };
    let ballot = Ballot(h.counter + 1);
    let list = area.propose_list();
    let sent = send(answer, Rpc::ProposeReq(ballot), &[], order.key, list);
    let entries = ENTRIES_AT + ENTRY * h.propose;
    let rows = Rows {
        waited: &answer[ENTRIES_AT..entries],
        key: order.key,
        first: order.first(),
        second: order.second(),
        ..Rows::default()
    };
    let front = order.front(from, at, id, ballot, h.propose);
    proposer_area::fill_place(area.bytes, i, front, rows);
    proposer_area::put_counter(area.bytes, h.counter + 1);
    sent
}
