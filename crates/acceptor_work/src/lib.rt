// The acceptor's work on one block of a lent table, and its answer where no block holds the key and none is free.
#![tactic(auto)]

ghost use Rattle.std.specs.Prelude.{◌≡◌, true, [], ◌≤◌, length};
ghost use Rattle.std.proofs.lemmas.List.Edits.{sets};
ghost use Rattle.messages.specs.Message.{given};
ghost use Rattle.messages.specs.Limits.{key_most, value_most};
ghost use Rattle.messages.specs.Answers.{bytes_of};
ghost use Rattle.storage_block.specs.Block.{readable, register_of, register_with, fresh};
ghost use Rattle.acceptor_rules.specs.Rules.{proposed, accepted};
ghost use Rattle.acceptor_work.specs.Contract.{Worked, full_answer};

use messages::{Address, Answer, Ballot, Error, Lent, Refusal, Rpc, VALUE_MOST};
use storage_block::BLOCK;
use storage_write::Register;

// A proposal on the block that holds its key, or on a free one.
pub fn propose_in(
    b: &mut [u8; BLOCK],
    from: Address,
    ballot: Ballot,
    key: &[u8],
    area: &mut [u8; VALUE_MOST],
) -> Answer
    requires { (readable b.old ≡ true) × (length key.now ≤ key_most) }
    ensures { (Worked (proposed ballot (register_with key.now b.old)) from b.old result b.new) × (area.new ≡ sets area.old 0 (bytes_of (register_of b.old).value)) }
{
    let seen = storage_block::highest_seen(b);
    let last = storage_block::accepted_ballot(b);
    let value = storage_block::copy_value(b, area);
    let mark = value.and(Some(Lent));
    let len = value.unwrap_or(0);
    let res = if ballot.above(seen) {
        let bytes = &area[..len];
        let promised = Register {
            key,
            seen: ballot,
            accepted: last,
            value: value.and(Some(bytes)),
        };
        storage_write::write(b, promised);
        Ok(())
    } else {
        Err(Error::ProposalRejected { last: seen })
    };
    Answer::Message {
        to: from,
        rpc: Rpc::ProposeRes {
            req_ballot: ballot,
            last_accepted_ballot: last,
            last_accepted_value: mark,
            res,
        },
        value_len: len,
    }
}

// An acceptance on the block that holds its key, or on a free one. Its answer carries no value. The value comes as
// the message has it, a mark and bytes beside it (01, 'bytes beside them'), and is stored as an `Option` of them.
pub fn accept_in(
    b: &mut [u8; BLOCK],
    from: Address,
    ballot: Ballot,
    key: &[u8],
    value: Option<Lent>,
    bytes: &[u8],
) -> Answer
    requires { (length key.now ≤ key_most) × (length (bytes_of (given value bytes.now)) ≤ value_most) }
    ensures { Worked (accepted ballot (given value bytes.now) (register_with key.now b.old)) from b.old result b.new }
{
    let seen = storage_block::highest_seen(b);
    let res = if seen.above(ballot) {
        Err(Error::AcceptRejected { last: seen })
    } else {
        let taken = Register {
            key,
            seen: ballot,
            accepted: ballot,
            value: value.and(Some(bytes)),
        };
        storage_write::write(b, taken);
        Ok(())
    };
    Answer::Message {
        to: from,
        rpc: Rpc::AcceptRes(ballot, res),
        value_len: 0,
    }
}

// A proposal for an unknown key on a full table: above ballot 0 it needs a block. `fits`: whether the message is within the limits.
pub fn propose_full(from: Address, ballot: Ballot, fits: bool) -> Answer
    ensures { result ≡ full_answer (proposed ballot (fresh [])) fits from }
{
    if !fits {
        return Answer::Refused(Refusal::OverLimit);
    }
    if ballot.above(Ballot(0)) {
        return Answer::Refused(Refusal::NoRoom);
    }
    Answer::Message {
        to: from,
        rpc: Rpc::ProposeRes {
            req_ballot: ballot,
            last_accepted_ballot: Ballot(0),
            last_accepted_value: None,
            res: Err(Error::ProposalRejected { last: Ballot(0) }),
        },
        value_len: 0,
    }
}
