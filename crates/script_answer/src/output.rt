// The same lines behind what was put out already: each is a line over the function that puts it into a lent buffer.
#![tactic(auto, using(script_words::specs::LentLaws::put_in))]

ghost use Rattle.std.specs.Prelude.{◌≡◌};
ghost use Rattle.script_words.specs.Written.{put};
ghost use Rattle.script_answer.specs.Lines.{area_line, block_line, answer_line};

use super::answer::put_answer_at;
use super::show::{put_area_at, put_block_at};
use messages::Answer;
use script_words::Output;

// An answer as a line.
pub fn put_answer<const N: usize>(out: &mut Output<N>, answer: Answer, area: &[u8])
    ensures { out.new ≡ put N out.old (answer_line answer area.now) }
{
    out.len = put_answer_at(&mut out.bytes, out.len, answer, area);
}

// `area ` and the area's bytes.
pub fn put_area<const N: usize>(out: &mut Output<N>, area: &[u8])
    ensures { out.new ≡ put N out.old (area_line area.now) }
{
    out.len = put_area_at(&mut out.bytes, out.len, area);
}

// `block I ` and the block's bytes; nothing for a block of zeros.
pub fn put_block<const N: usize>(out: &mut Output<N>, i: usize, block: &[u8])
    ensures { out.new ≡ put N out.old (block_line i block.now) }
{
    out.len = put_block_at(&mut out.bytes, out.len, i, block);
}
