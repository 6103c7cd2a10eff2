// The crate's storage.rs: its six operations with MemStorage's behaviour, over a lent table. A key without a block has ballots 0 and no
// value; a set takes the lowest free block for a new key. specs/Operations.antt says what each answers and stores.
#![tactic(auto)]

ghost use Rattle.std.specs.Prelude.{◌≡◌, true, [], ◌+◌, ◌*◌, ◌≤◌, length, option_map};
ghost use Rattle.storage_block.specs.Block.{block_bytes, readable, register_with, register, fresh};
ghost use Rattle.storage_search.specs.Table.{block_at};
ghost use Rattle.storage.specs.Operations.{BlockOf, highest_seen, accepted_ballot, ValueGot, changed, RegisterSet, BlockSet, full_by, KeySet};

use messages::{Ballot, KEY_MOST, Lent, Refusal, VALUE_MOST};
use storage_block::BLOCK;
use storage_search::Found;
use storage_write::Register;

// What a set changes of a register. A value's bytes are lent beside it, as the clauses of the three sets have it: `KeySet` and `changed`
// take a change and, beside it, the bytes.
#[derive(Clone, Copy)]
pub enum Change {
    HighestSeen(Ballot),
    AcceptedBallot(Ballot),
    AcceptedValue(Option<Lent>),
}

// The area that a value is handed back in.
pub const VALUE_AREA: usize = VALUE_MOST;

// The key's block, if it has one, or refusal 1, 2 or 4.
fn block_of<'a>(
    table: &'a [u8],
    registers: usize,
    key: &[u8],
) -> Result<Option<&'a [u8; BLOCK]>, Refusal>
    ensures { BlockOf table.now registers key.now result }
{
    let blocks = storage_search::sound(table, registers)?;
    match storage_search::locate(blocks, key) {
        Found::Twice => Err(Refusal::Damaged),
        _ if KEY_MOST < key.len() => Err(Refusal::OverLimit),
        Found::At(i) => Ok(Some(&blocks[i])),
        Found::Free(_) | Found::Full => Ok(None),
    }
}

// Each operation is lent a table and its registers side by side and refuses them (01, refusal 1), as those of the C interface do; what is
// behind that test has the blocks. This and the next are two of 01's six operations, by its names; each is one line over `block_of`.
#[tactic(auto, unfolding(crate::specs::Operations::highest_seen))]
pub fn get_highest_seen(table: &[u8], registers: usize, key: &[u8]) -> Result<Ballot, Refusal>
    ensures { result ≡ highest_seen table.now registers key.now }
{
    let block = block_of(table, registers, key)?;
    Ok(block.map_or(Ballot(0), storage_block::highest_seen))
}

#[tactic(auto, unfolding(crate::specs::Operations::accepted_ballot))]
pub fn get_accepted_ballot(table: &[u8], registers: usize, key: &[u8]) -> Result<Ballot, Refusal>
    ensures { result ≡ accepted_ballot table.now registers key.now }
{
    let block = block_of(table, registers, key)?;
    Ok(block.map_or(Ballot(0), storage_block::accepted_ballot))
}

// The accepted value of a key, put into the lent area of 256 bytes; its length, if there is one.
pub fn get_accepted_value(
    table: &[u8],
    registers: usize,
    key: &[u8],
    area: &mut [u8],
) -> Result<Option<usize>, Refusal>
    ensures { ValueGot table.now registers key.now area.old result area.new }
{
    let Some(area) = area.as_mut_array::<VALUE_AREA>() else {
        return Err(Refusal::AreaSize);
    };
    let Some(b) = block_of(table, registers, key)? else {
        return Ok(None);
    };
    // `and_then` was tried: after it no byte is known of the area that its closure borrows, and `returns` stayed open
    Ok(storage_block::copy_value(b, area))
}

// A register's block, if the register is within 01's limits and its accepted ballot is not above highest seen.
fn write_register(b: &mut [u8; BLOCK], r: Register) -> Result<(), Refusal>
    ensures { RegisterSet (register r.entry.key.now r.entry.seen r.entry.accepted (option_map (λ v. v.now) r.entry.value)) b.old result b.new }
{
    if r.accepted.above(r.seen) {
        return Err(Refusal::Damaged);
    }
    let mark = r.value.and(Some(Lent));
    if !messages::register_fits(r.key, mark, r.value.unwrap_or(b"")) {
        return Err(Refusal::OverLimit);
    }
    storage_write::write(b, r);
    Ok(())
}

// A change of the register in a block that holds the key or is free. The register that is there is made here and in acceptor_work's
// `propose_in`. Tried: one function that copies the value into a lent area and answers with the register over it; what it leaves in the
// area stayed open, since such a clause is proved only of a body that hands on a field or a call's result.
fn set_in(b: &mut [u8; BLOCK], key: &[u8], change: Change, bytes: &[u8]) -> Result<(), Refusal>
    requires { readable b.old ≡ true }
    ensures { RegisterSet (changed change bytes.now (register_with key.now b.old)) b.old result b.new }
{
    let mut area = [0; VALUE_AREA];
    let len = storage_block::copy_value(b, &mut area);
    let kept = len.and(Some(&area[..len.unwrap_or(0)]));
    let r = Register {
        key,
        seen: storage_block::highest_seen(b),
        accepted: storage_block::accepted_ballot(b),
        value: kept,
    };
    match change {
        Change::HighestSeen(seen) => write_register(b, Register { seen, ..r }),
        Change::AcceptedBallot(accepted) => write_register(b, Register { accepted, ..r }),
        Change::AcceptedValue(o) => {
            let value = o.and(Some(bytes));
            write_register(b, Register { value, ..r })
        }
    }
}

// The same on block i of the table: that block alone is lent on. The acceptor lends it on in the same lines, twice. Tried for the three:
// `as_chunks_mut`, of which no clause says what the table ends as; a function that hands the block out, whose clause on the table stayed
// open, as above; and one that takes a closure, after which nothing is known of the answer area that the closure borrows.
// That block i is in the table is asked of the three: a type with that fact would hold the table and i, and the first line of each would
// take them out again.
fn set_at(
    table: &mut [u8],
    i: usize,
    key: &[u8],
    change: Change,
    bytes: &[u8],
) -> Result<(), Refusal>
    requires { (i * block_bytes + block_bytes ≤ length table.old) × (readable (block_at table.old i) ≡ true) }
    ensures { BlockSet (changed change bytes.now (register_with key.now (block_at table.old i))) table.old i result table.new }
{
    let (_, rest) = table.split_at_mut(i * BLOCK);
    let Some(b) = rest.first_chunk_mut() else {
        unreachable!()
    };
    set_in(b, key, change, bytes)
}

// A change for a key that no block takes: what would refuse it on a spare free block refuses it first.
fn set_full(key: &[u8], change: Change, bytes: &[u8]) -> Result<(), Refusal>
    ensures { result ≡ full_by (changed change bytes.now (fresh key.now)) }
{
    set_in(&mut [0; BLOCK], key, change, bytes).and(Err(Refusal::NoRoom))
}

// A change of a key's register.
fn set(
    table: &mut [u8],
    registers: usize,
    key: &[u8],
    change: Change,
    bytes: &[u8],
) -> Result<(), Refusal>
    ensures { KeySet table.old registers key.now change bytes.now result table.new }
{
    let blocks = storage_search::sound(table, registers)?;
    match storage_search::locate(blocks, key) {
        Found::At(i) | Found::Free(i) => set_at(table, i, key, change, bytes),
        Found::Full => set_full(key, change, bytes),
        Found::Twice => Err(Refusal::Damaged),
    }
}

pub fn set_highest_seen(
    table: &mut [u8],
    registers: usize,
    key: &[u8],
    ballot: Ballot,
) -> Result<(), Refusal>
    ensures { KeySet table.old registers key.now (Change.HighestSeen ballot) [] result table.new }
{
    set(table, registers, key, Change::HighestSeen(ballot), &[])
}

pub fn set_accepted_ballot(
    table: &mut [u8],
    registers: usize,
    key: &[u8],
    ballot: Ballot,
) -> Result<(), Refusal>
    ensures { KeySet table.old registers key.now (Change.AcceptedBallot ballot) [] result table.new }
{
    set(table, registers, key, Change::AcceptedBallot(ballot), &[])
}

pub fn set_accepted_value(
    table: &mut [u8],
    registers: usize,
    key: &[u8],
    value: Option<Lent>,
    bytes: &[u8],
) -> Result<(), Refusal>
    ensures { KeySet table.old registers key.now (Change.AcceptedValue value) bytes.now result table.new }
{
    set(table, registers, key, Change::AcceptedValue(value), bytes)
}
