// A run with buffers of its own, of lengths that its caller chooses.
ghost use Rattle.std.specs.Prelude.{◌≡◌, ◌≤◌, [], length, replicate};
ghost use Rattle.script_run.specs.Run.{fresh};
ghost use Rattle.script_run.specs.State.{state};
ghost use Rattle.script_run.specs.Obeyed.{after, obeyed, Follows};

use super::run::Run;
use script_words::{BYTES_MOST, LIST_ROOM, Output};
use std::marker::Model;

// Room for three words of the most bytes that one can give.
const BYTES_ROOM: usize = 3 * BYTES_MOST;

// A run, with room for a table or a proposer's area, for an answer area and for what it puts out, and for a line's bytes and numbers.
#[derive(Drop)]
pub struct Bench<const TABLE: usize, const AREA: usize, const OUT: usize> {
    run: Run,
    table: [u8; TABLE],
    area: [u8; AREA],
    out: Output<OUT>,
    bytes: [u8; BYTES_ROOM],
    list: [u16; LIST_ROOM],
}

// What is lent is within the room. How far the output is written is known to `out` alone.
impl<const TABLE: usize, const AREA: usize, const OUT: usize> Model for Bench<TABLE, AREA, OUT> {
    ghost use Rattle.std.specs.Prelude.{◌≡◌, ◌≤◌};
    ghost use Rattle.script_run.specs.State.{State};

    ghost Value = { State };

    ghost view = { λ b. record { run = b.run; table = b.table; area = b.area; out = b.out } };

    ghost invariant = { λ b. (b.run.bytes ≤ TABLE) × (b.run.reach ≤ TABLE) × (b.run.area ≤ AREA) × (b.run.at ≡ 0) };
}

// A line of the script, whose text goes behind what was put out: `obey` at that place.
fn obey_behind<const OUT: usize>(
    run: Run,
    text: &[u8],
    line: u64,
    table: &mut [u8],
    area: &mut [u8],
    out: &mut Output<OUT>,
    bytes: &mut [u8],
    list: &mut [u16],
) -> Run
    requires { (run.bytes ≤ length table.old) × (run.reach ≤ length table.old) × (run.area ≤ length area.old) × (run.at ≡ 0) × (1800 ≤ length bytes.old) × (32 ≤ length list.old) }
    ensures { Follows OUT out.old (obeyed run table.old area.old line text.now) result table.new area.new out.new }
{
    let next = super::obey(
        run.put_up_to(out.len),
        text,
        line,
        table,
        area,
        &mut out.bytes,
        bytes,
        list,
    );
    out.len = next.at;
    next.put_up_to(0)
}

impl<const TABLE: usize, const AREA: usize, const OUT: usize> Bench<TABLE, AREA, OUT> {
    pub fn new() -> Self
        ensures { result ≡ state fresh (replicate TABLE 0) (replicate AREA 0) [] }
    {
        Bench {
            run: Run::new(),
            table: [0; TABLE],
            area: [0; AREA],
            out: Output::new(),
            bytes: [0; BYTES_ROOM],
            list: [0; LIST_ROOM],
        }
    }

    // Whether the run is over.
    pub fn ended(&self) -> bool
        ensures { result ≡ self.now.run.ended }
    {
        self.run.ended
    }

    // What was put out.
    pub fn out(&self) -> &Output<OUT>
        ensures { result.now ≡ self.now.out }
    {
        &self.out
    }

    // What was put out is taken away.
    pub fn clear_out(&mut self)
        ensures { self.new ≡ state self.old.run self.old.table self.old.area [] }
    {
        self.out.clear();
    }

    // A line of the script.
    pub fn obey(&mut self, text: &[u8], line: u64)
        ensures { self.new ≡ after OUT self.old (obeyed self.old.run self.old.table self.old.area line text.now) }
    {
        self.run = obey_behind(
            self.run,
            text,
            line,
            &mut self.table,
            &mut self.area,
            &mut self.out,
            &mut self.bytes,
            &mut self.list,
        );
    }
}
