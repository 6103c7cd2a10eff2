// The crate's acceptor.rs over a lent table. acceptor_rules/specs/Rules.antt has 01's section line by line, specs/Contract.antt what of it
// is promised.
#![tactic(auto)]

ghost use Rattle.std.specs.Prelude.{◌≡◌, true, ◌+◌, ◌*◌, ◌≤◌, length};
ghost use Rattle.std.proofs.lemmas.List.Edits.{sets};
ghost use Rattle.messages.specs.Message.{given, arrived};
ghost use Rattle.messages.specs.Limits.{key_most, value_most};
ghost use Rattle.messages.specs.Answers.{bytes_of};
ghost use Rattle.storage_block.specs.Block.{block_bytes, readable, register_of, register_with};
ghost use Rattle.storage_search.specs.Table.{block_at};
ghost use Rattle.acceptor_rules.specs.Rules.{proposed, accepted};
ghost use Rattle.acceptor.specs.Contract.{Placed, Received};

use messages::{Address, Answer, Ballot, Incoming, Lent, Refusal, Rpc, VALUE_MOST};
use storage_block::BLOCK;
use storage_search::Found;

// The answer area: the value that an answer to a proposal carries.
pub const ANSWER: usize = VALUE_MOST;

// A message that is for the acceptor; its key and bytes stay with it.
#[derive(Clone, Copy)]
enum Job {
    Proposal(Ballot),
    Acceptance(Ballot, Option<Lent>),
}

// A proposal on block i of the table: that block alone is lent on, as storage's `set_at` does and says why there is no one function for it.
fn propose_at(
    table: &mut [u8],
    i: usize,
    from: Address,
    ballot: Ballot,
    key: &[u8],
    area: &mut [u8; ANSWER],
) -> Answer
    requires { (i * block_bytes + block_bytes ≤ length table.old) × (readable (block_at table.old i) ≡ true) × (length key.now ≤ key_most) }
    ensures { (Placed (proposed ballot (register_with key.now (block_at table.old i))) from table.old i result table.new) × (area.new ≡ sets area.old 0 (bytes_of (register_of (block_at table.old i)).value)) }
{
    let (_, rest) = table.split_at_mut(i * BLOCK);
    let Some(b) = rest.first_chunk_mut() else {
        unreachable!()
    };
    acceptor_work::propose_in(b, from, ballot, key, area)
}

// An acceptance on block i of the table, in the same lines as `propose_at`: the reason stands at storage's `set_at`.
fn accept_at(
    table: &mut [u8],
    i: usize,
    from: Address,
    ballot: Ballot,
    key: &[u8],
    value: Option<Lent>,
    bytes: &[u8],
) -> Answer
    requires { (i * block_bytes + block_bytes ≤ length table.old) × (length key.now ≤ key_most) × (length (bytes_of (given value bytes.now)) ≤ value_most) }
    ensures { Placed (accepted ballot (given value bytes.now) (register_with key.now (block_at table.old i))) from table.old i result table.new }
{
    let (_, rest) = table.split_at_mut(i * BLOCK);
    let Some(b) = rest.first_chunk_mut() else {
        unreachable!()
    };
    acceptor_work::accept_in(b, from, ballot, key, value, bytes)
}

// A message from an address, on a lent table of that many registers. The value of an answer is put into the lent answer area. Any input is
// taken; refusals are 1, 2, 3, 4 and 11. The table and its registers come side by side, as the C interface has them.
pub fn receive(
    table: &mut [u8],
    registers: usize,
    from: Address,
    message: Incoming,
    area: &mut [u8],
) -> Answer
    ensures { Received table.old registers area.old from (arrived message.entry) result table.new area.new }
{
    let Some(area) = area.as_mut_array() else {
        return Answer::Refused(Refusal::AreaSize);
    };
    let blocks = match storage_search::sound(table, registers) {
        Ok(blocks) => blocks,
        Err(refusal) => return Answer::Refused(refusal),
    };
    let job = match message.rpc {
        Rpc::ProposeReq(ballot) => Job::Proposal(ballot),
        Rpc::AcceptReq(ballot, o) => Job::Acceptance(ballot, o),
        _ => return Answer::Refused(Refusal::WrongKind),
    };
    // the block that has the key or takes it
    let block = match storage_search::locate(blocks, message.key) {
        Found::At(i) | Found::Free(i) => Some(i),
        Found::Full => None,
        Found::Twice => return Answer::Refused(Refusal::Damaged),
    };
    if !message.fits(from) {
        return Answer::Refused(Refusal::OverLimit);
    }
    match (job, block) {
        (Job::Proposal(ballot), Some(i)) => propose_at(table, i, from, ballot, message.key, area),
        // over the limits is refused above, so here the message fits
        (Job::Proposal(ballot), None) => acceptor_work::propose_full(from, ballot, true),
        (Job::Acceptance(ballot, o), Some(i)) => accept_at(
            table,
            i,
            from,
            ballot,
            message.key,
            o,
            message.value,
        ),
        (Job::Acceptance(_, _), None) => Answer::Refused(Refusal::NoRoom),
    }
}

// A tick lends no table and is answered with nothing.
pub fn tick() -> Answer
    ensures { result ≡ Answer.Nothing }
{
    Answer::Nothing
}
