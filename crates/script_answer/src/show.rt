// The table's blocks and the answer area as lines of text: hex digits, the zeros at the end left out.
ghost use Rattle.std.specs.Prelude.{◌≡◌, take};
ghost use Rattle.script_words.specs.LentLaws.{Put};
ghost use Rattle.script_answer.specs.Lines.{kept_of, area_line, block_line};

use super::message::put_numbered;
use script_words::{put_byte, put_hex, put_text};

// The bytes before the zeros at the end: a `while let` on the slice's pattern, with no index. `rposition` gives the place of the last byte
// that is kept, from which an end and a slice would be made: no plainer.
fn kept(mut s: &[u8]) -> &[u8]
    ensures { result.now ≡ take (kept_of s.now) s.now }
{
    while let [front @ .., last] = s
        && *last == 0
    {
        s = front;
    }
    s
}

// `area ` and the area's bytes, put into a lent buffer from a place on; the place behind, which stays within the buffer. So the next.
pub fn put_area_at(out: &mut [u8], at: usize, area: &[u8]) -> usize
    ensures { Put out.old at (area_line area.now) result out.new }
{
    let at = put_text(out, at, b"area ");
    let at = put_hex(out, at, kept(area));
    put_byte(out, at, b'\n')
}

// `block I ` and the block's bytes; nothing for a block of zeros.
pub fn put_block_at(out: &mut [u8], at: usize, i: usize, block: &[u8]) -> usize
    ensures { Put out.old at (block_line i block.now) result out.new }
{
    let kept = kept(block);
    if kept.is_empty() {
        return put_text(out, at, b"");
    }
    let at = put_numbered(out, at, b"block", i as u64);
    let at = put_byte(out, at, b' ');
    let at = put_hex(out, at, kept);
    put_byte(out, at, b'\n')
}
