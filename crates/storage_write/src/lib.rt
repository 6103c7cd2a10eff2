// The writer of blocks: a register as 512 bytes. What they are stands in storage_block/specs/Block.antt.
#![tactic(auto)]

ghost use Rattle.std.specs.Prelude.{◌≡◌, ◌≤◌, length, take, option_map};
ghost use Rattle.messages.specs.Answers.{marked, bytes_of};
ghost use Rattle.messages.specs.Limits.{key_most, value_most};
ghost use Rattle.storage_block.specs.Block.{front, sealed, image, register};

use messages::Ballot;
use storage_block::BLOCK;

// What is to be stored of a register. The key's bytes and the value's come from two places, each with a lifetime of its own.
#[derive(Clone, Copy)]
pub struct Register<'k, 'v> {
    pub key: &'k [u8],
    pub seen: Ballot,
    pub accepted: Ballot,
    pub value: Option<&'v [u8]>,
}

// Bytes 0 to 23 of a register's block. That the key is short is asked here, of `write` and of the acceptor's work, and is no fact of
// `Register`, nor of a key: storage's `set_in` makes a `Register` before `write_register` tests it, and `Incoming` comes untested.
#[tactic(auto, unfolding(storage_block::specs::Block::front, leaf_fields::specs::Fields::to_le))]
fn front(r: Register, len: usize) -> [u8; 24]
    requires { (length r.key.now ≤ key_most) × (len ≤ value_most) }
    ensures { result ≡ front (length r.entry.key.now) r.entry.seen r.entry.accepted (marked (option_map (λ v. v.now) r.entry.value)) len }
{
    let mut b = [0; 24];
    leaf_fields::write(&mut b, 4, len as u16);
    leaf_fields::write(&mut b, 8, r.seen.0);
    leaf_fields::write(&mut b, 16, r.accepted.0);
    b[0] = 1;
    b[1] = r.key.len() as u8;
    b[2] = u8::from(r.value.is_some());
    b
}

// The two sums of bytes 0 to 503, stored behind them.
fn seal(b: &mut [u8; BLOCK])
    ensures { b.new ≡ sealed (take 504 b.old) }
{
    let formed = leaf_sums::form(&b[..504]);
    leaf_fields::write(b, 504, formed.plain);
    leaf_fields::write(b, 508, formed.placed);
}

// A register's block, whatever the 512 bytes held.
pub fn write(b: &mut [u8; BLOCK], r: Register)
    requires { (length r.key.now ≤ key_most) × (length (bytes_of (option_map (λ v. v.now) r.value)) ≤ value_most) }
    ensures { b.new ≡ image (register r.entry.key.now r.entry.seen r.entry.accepted (option_map (λ v. v.now) r.entry.value)) }
{
    let stored = r.value.unwrap_or(&[]);
    leaf_fields::clear(b);
    leaf_fields::copy(b, 0, &front(r, stored.len()));
    leaf_fields::copy(b, 24, r.key);
    leaf_fields::copy(b, 88, stored);
    seal(b);
}
