// Runs a script from standard input (docs/SCRIPT.md): each message and tick goes to an acceptor or a proposer, and its answer is a line of
// output. The program only reads and writes; what a line does is `script_run`'s.
#![tactic(auto)]

ghost use Rattle.std.specs.Prelude.{◌≡◌, []};
ghost use Rattle.script_run.specs.State.{state};

use script_input::{after, next_line};
use script_run::Bench;
use std::io::{Read, Write};

// A proved loop has to end, and nothing says that the input does: lines are counted up to a number that no script has.
const LINES_MOST: u64 = 1 << 40;

// Room for what one line puts out: at most a whole table, 1,025 blocks of up to 1,036 bytes each.
const LINE_ROOM: usize = 1100000;

// Room for a table or a proposer's area, for an answer area and for what is put out before it is written.
type FullBench = Bench<524800, 1024, 1200000>;

// Writes what is collected, as far as that can be written; the next line goes to the front.
fn flush<W: Write>(output: &mut W, bench: &mut FullBench)
    ensures { bench.new ≡ state bench.old.run bench.old.table bench.old.area [] }
{
    let _ = output.write_all(bench.out().as_slice());
    bench.clear_out();
}

// The script, line by line.
fn run_lines<R: Read, W: Write>(
    input: &mut R,
    output: &mut W,
    bench: &mut FullBench,
    buf: &mut [u8],
) {
    // which part of what was read is not used up
    let mut from = 0;
    let mut to = 0;
    for line in 1..=LINES_MOST {
        let window = next_line(input, buf, from, to);
        if window.from == window.to {
            return flush(output, bench);
        }
        if bench.out().room() < LINE_ROOM {
            flush(output, bench);
        }
        bench.obey(&buf[window.from..window.end], line);
        if bench.ended() {
            return flush(output, bench);
        }
        from = after(window.end, window.to);
        to = window.to;
    }
}

fn main(rt: HostRuntime) {
    let mut input = rt.stdin();
    let mut output = rt.stdout();
    let mut bench: FullBench = Bench::new();
    let mut buf = [0u8; 65536];
    run_lines(&mut input, &mut output, &mut bench, &mut buf);
}
