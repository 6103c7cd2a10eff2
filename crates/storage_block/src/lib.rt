// One register as a block of 512 bytes: what a block is and what it holds. specs/Block.antt has 01's section line by line.
#![tactic(auto)]

ghost use Rattle.std.specs.Prelude.{◌≡◌, true, length, option_map};
ghost use Rattle.std.proofs.lemmas.List.Edits.{sets};
ghost use Rattle.messages.specs.Answers.{marked, bytes_of};
ghost use Rattle.storage_block.specs.Block.{
  head_good,
  rest_zero,
  sums_good,
  readable,
  state_of,
  register_of,
};

use messages::{Ballot, KEY_MOST, Lent, VALUE_MOST};

pub const BLOCK: usize = 512;

// Three states, none of which is a value or an error: no shape of an Option or a Result.
#[derive(Clone, Copy, PartialEq, Eq)]
pub enum BlockState {
    Free,
    Good,
    Bad,
}

#[tactic(auto, unfolding(crate::specs::Block::head_good, crate::specs::Block::register_of))]
fn head_good(b: &[u8; BLOCK]) -> bool
    ensures { result ≡ head_good b.now }
{
    b[0] == 1
        && b[1] as usize <= KEY_MOST
        && b[2] <= 1
        && leaf_fields::read::<u16>(b, 4) as usize <= VALUE_MOST * b[2] as usize
        && !accepted_ballot(b).above(highest_seen(b))
}

#[tactic(auto, using(crate::specs::Read::key_room), unfolding(crate::specs::Block::rest_zero))]
fn rest_zero(b: &[u8; BLOCK]) -> bool
    requires { head_good b.now ≡ true }
    ensures { result ≡ rest_zero b.now }
{
    let key_end = 24 + b[1] as usize;
    let value_end = 88 + leaf_fields::read::<u16>(b, 4) as usize;
    b[3] == 0
        && leaf_fields::zeros(&b[6..8])
        && leaf_fields::zeros(&b[key_end..88])
        && leaf_fields::zeros(&b[value_end..504])
}

#[tactic(auto, unfolding(crate::specs::Block::sums_good))]
fn sums_good(b: &[u8; BLOCK]) -> bool
    ensures { result ≡ sums_good b.now }
{
    let formed = leaf_sums::form(&b[..504]);
    leaf_fields::read::<u32>(b, 504) == formed.plain
        && leaf_fields::read::<u32>(b, 508) == formed.placed
}

// Whether a block is free, good, or neither.
#[tactic(auto, unfolding(crate::specs::Block::state_of, crate::specs::Block::good))]
pub fn state(b: &[u8; BLOCK]) -> BlockState
    ensures { result ≡ state_of b.now }
{
    if leaf_fields::zeros(b) {
        BlockState::Free
    } else if head_good(b) && rest_zero(b) && sums_good(b) {
        BlockState::Good
    } else {
        BlockState::Bad
    }
}

#[tactic(auto, unfolding(crate::specs::Block::register_of))]
pub fn highest_seen(b: &[u8; BLOCK]) -> Ballot
    ensures { result ≡ (register_of b.now).seen }
{
    Ballot(leaf_fields::read(b, 8))
}

#[tactic(auto, unfolding(crate::specs::Block::register_of))]
pub fn accepted_ballot(b: &[u8; BLOCK]) -> Ballot
    ensures { result ≡ (register_of b.now).accepted }
{
    Ballot(leaf_fields::read(b, 16))
}

// Whether a value is present, of any 512 bytes: `value` below reads only a block that may be read.
#[tactic(auto, unfolding(crate::specs::Block::register_of))]
pub fn value_mark(b: &[u8; BLOCK]) -> Option<Lent>
    ensures { result ≡ marked (register_of b.now).value }
{
    Lent::of_mark(b[2].into())
}

// The value's bytes, as a part of the block, if there is a value.
#[tactic(auto, unfolding(crate::specs::Block::register_of))]
pub fn value(b: &[u8; BLOCK]) -> Option<&[u8]>
    requires { readable b.now ≡ true }
    ensures { option_map (λ v. v.now) result ≡ (register_of b.now).value }
{
    if b[2] == 0 {
        return None;
    }
    let end = 88 + leaf_fields::read::<u16>(b, 4) as usize;
    Some(&b[88..end])
}

// The value's bytes, copied to the front of an area of 256 bytes; their length, if there is a value.
pub fn copy_value(b: &[u8; BLOCK], area: &mut [u8; VALUE_MOST]) -> Option<usize>
    requires { readable b.now ≡ true }
    ensures len { result ≡ option_map length (register_of b.now).value }
    ensures copied { area.new ≡ sets area.old 0 (bytes_of (register_of b.now).value) }
{
    let value = value(b)?;
    leaf_fields::copy(area, 0, value);
    Some(value.len())
}
