// What is lent, as lines of text.
ghost use Rattle.std.specs.Prelude.{take};
ghost use Rattle.script_words.specs.LentLaws.{Put};
ghost use Rattle.script_answer.specs.Lines.{area_line};
ghost use Rattle.script_run.specs.Obeyed.{table_text, ran, Held, Stepped};

use super::run::Run;
use script_answer::{put_area_at, put_block_at};
use storage_block::BLOCK;

// A line for each block of a table that is not all zeros; the last block may be cut short.
fn put_table(out: &mut [u8], at: usize, table: &[u8]) -> usize
    ensures { Put out.old at (table_text table.now) result out.new }
{
    let mut end = at;
    for (i, block) in table.chunks(BLOCK).enumerate() {
        end = put_block_at(out, end, i, block);
    }
    end.min(out.len())
}

// `table`.
pub fn show_table(run: Run, table: &[u8], area: &[u8], out: &mut [u8]) -> Run
    requires { Held run table.now area.now out.old }
    ensures { Stepped run out.old (ran run table.now area.now (table_text (take run.bytes table.now))) result table.now area.now out.new }
{
    let at = put_table(out, run.at, &table[0..run.bytes]);
    run.put_up_to(at)
}

// `area`.
pub fn show_area(run: Run, table: &[u8], area: &[u8], out: &mut [u8]) -> Run
    requires { Held run table.now area.now out.old }
    ensures { Stepped run out.old (ran run table.now area.now (area_line (take run.area area.now))) result table.now area.now out.new }
{
    let at = put_area_at(out, run.at, &area[0..run.area]);
    run.put_up_to(at)
}
