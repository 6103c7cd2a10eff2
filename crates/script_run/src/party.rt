// A message or a tick at the party that there is.
ghost use Rattle.messages.specs.Message.{arrived};
ghost use Rattle.script_run.specs.Obeyed.{is_proposer, message_on, message_in, ticked_in, tick_in, Held, Gave, Stepped};

use super::run::{Party, Run};
use messages::{Address, Answer, Incoming};
use script_answer::put_answer_at;

// A message to a proposer or an acceptor, with what is lent.
#[tactic(auto, unfolding(crate::specs::Obeyed::message_on))]
fn receive(run: Run, table: &mut [u8], area: &mut [u8], from: Address, message: Incoming) -> Answer
    ensures { Gave (message_on (is_proposer run.party) table.old run.capacity area.old from run.clock (arrived message.entry)) result table.new area.new }
{
    let capacity = run.capacity;
    match run.party {
        Some(Party::Proposer) => proposer::receive(table, capacity, from, run.clock, message, area),
        _ => acceptor::receive(table, capacity, from, message, area),
    }
}

// `FROM MESSAGE`. What is lent is written `0..n` here and below: tried with `..n`, `returns` stays open, since what comes back of it is not
// known.
pub fn send(
    run: Run,
    table: &mut [u8],
    area: &mut [u8],
    out: &mut [u8],
    from: Address,
    message: Incoming,
) -> Run
    requires { Held run table.old area.old out.old }
    ensures { Stepped run out.old (message_in run table.old area.old from (arrived message.entry)) result table.new area.new out.new }
{
    let answer = receive(
        run,
        &mut table[0..run.bytes],
        &mut area[0..run.area],
        from,
        message,
    );
    let at = put_answer_at(out, run.at, answer, &area[0..run.area]);
    run.put_up_to(at)
}

// A tick to the proposer, with what is lent.
fn tick_proposer(run: Run, table: &mut [u8], area: &mut [u8], out: &mut [u8], time: u64) -> Run
    requires { Held run table.old area.old out.old }
    ensures { Stepped run out.old (ticked_in run table.old area.old time) result table.new area.new out.new }
{
    let answer = proposer::tick(
        &mut table[0..run.bytes],
        run.capacity,
        time,
        &mut area[0..run.area],
    );
    let at = put_answer_at(out, run.at, answer, &area[0..run.area]);
    run.put_up_to(at)
}

// `tick TIME`: a proposer is lent both, an acceptor nothing.
pub fn tick(run: Run, table: &mut [u8], area: &mut [u8], out: &mut [u8], time: u64) -> Run
    requires { Held run table.old area.old out.old }
    ensures { Stepped run out.old (tick_in run table.old area.old time) result table.new area.new out.new }
{
    if run.is_proposer() {
        return tick_proposer(run, table, area, out, time);
    }
    let at = put_answer_at(out, run.at, acceptor::tick(), &area[0..run.area]);
    run.put_up_to(at)
}
