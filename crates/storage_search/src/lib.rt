// The table: as many blocks of 512 bytes as it has registers. Where a key's block is, or the block that a new key takes. The public
// operations are lent a table with its registers side by side and refuse them (refusal 1); behind that test there are blocks alone.
#![tactic(auto)]

ghost use Rattle.std.specs.Prelude.{◌≡◌, true, Some, MatchResult, ◌≤◌, length, map, drop};
ghost use Rattle.messages.specs.Refusals.{first_due};
ghost use Rattle.storage_block.specs.Block.{slot_of};
ghost use Rattle.storage_search.specs.Table.{
  BlocksOf,
  is_sized,
  LentAs,
  table_tests,
  none_bad,
  holds,
  is_free,
  first_from,
  where_is,
};

use messages::{REGISTERS_MOST, Refusal};
use storage_block::{BLOCK, BlockState};

// Where a key is. An enum of four cases, since the definition `where_is` answers with it, and `is_twice`, `is_full`, `put_at` and
// `placed_at` are by its cases.
#[derive(Clone, Copy)]
pub enum Found {
    // the one block that holds the key
    At(usize),
    // no block holds it; this is the lowest free one
    Free(usize),
    // no block holds it, and none is free
    Full,
    // two blocks hold it
    Twice,
}

// Whether the table has 1 to 1,024 registers and 512 bytes for each: refusal 1 is not due.
pub fn is_sized(table: &[u8], registers: usize) -> bool
    ensures { result ≡ is_sized table.now registers }
{
    (1..=REGISTERS_MOST).contains(&registers) && table.len() == registers * BLOCK
}

// The table as its blocks, if it is sized.
fn blocks(table: &[u8], registers: usize) -> Option<&[[u8; BLOCK]]>
    ensures { BlocksOf table.now registers result }
{
    if !is_sized(table, registers) {
        return None;
    }
    Some(table.as_chunks().0)
}

// The blocks of a table that may be searched, or refusal 1 or 2: each block is free or good.
pub fn sound(table: &[u8], registers: usize) -> Result<&[[u8; BLOCK]], Refusal>
    ensures { MatchResult result (λ b. LentAs table.now registers b.now) (λ x. first_due (table_tests table.now registers) ≡ Some x) }
{
    let blocks = blocks(table, registers).ok_or(Refusal::AreaSize)?;
    if !is_sound(blocks) {
        return Err(Refusal::Damaged);
    }
    Ok(blocks)
}

// Whether every block is free or good.
pub fn is_sound(blocks: &[[u8; BLOCK]]) -> bool
    ensures { result ≡ none_bad (map slot_of blocks.now) }
{
    blocks
        .iter()
        .all(|b| storage_block::state(b) != BlockState::Bad)
}

// The first block from `start` on that holds the key, by the labelled nested loop that 01 names and docs/PROMISES.md holds this function to
// ('The nine forms'): a mismatch goes on with the next block, and a match leaves both loops.
//
// That no block is bad is asked here, of `lowest_free` and of `locate`: a type with that fact would be made in `sound` alone, and
// each of the searches and of their callers would take the blocks out of it again.
fn next_holding(blocks: &[[u8; BLOCK]], start: usize, key: &[u8]) -> Option<usize>
    requires sound { none_bad (map slot_of blocks.now) ≡ true }
    requires start_le_len { start ≤ length blocks.now }
    ensures { result ≡ first_from (holds key.now) start (drop start (map slot_of blocks.now)) }
{
    'blocks: for i in start..blocks.len() {
        let b = &blocks[i];
        if b[0] != 1 || b[1] as usize != key.len() {
            continue 'blocks;
        }
        for j in 0..key.len() {
            if b[24 + j] != key[j] {
                continue 'blocks;
            }
        }
        return Some(i);
    }
    None
}

// The lowest free block: among sound ones, the first whose byte 0 is 0.
fn lowest_free(blocks: &[[u8; BLOCK]]) -> Option<usize>
    requires { none_bad (map slot_of blocks.now) ≡ true }
    ensures { result ≡ first_from is_free 0 (map slot_of blocks.now) }
{
    blocks.iter().position(|b| b[0] == 0)
}

// The block of a key among those of a sound table: the search of 01, called once a message.
pub fn locate(blocks: &[[u8; BLOCK]], key: &[u8]) -> Found
    requires { none_bad (map slot_of blocks.now) ≡ true }
    ensures { result ≡ where_is key.now (map slot_of blocks.now) }
{
    let Some(i) = next_holding(blocks, 0, key) else {
        return lowest_free(blocks).map_or(Found::Full, Found::Free);
    };
    match next_holding(blocks, i + 1, key) {
        Some(_) => Found::Twice,
        None => Found::At(i),
    }
}
