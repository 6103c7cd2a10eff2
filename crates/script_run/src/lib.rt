// A run of a script (docs/SCRIPT.md): what is lent to its party, and one line after the other on it. Nothing but what is lent, or a `Bench`
// has, is read or written.
#![tactic(auto)]

mod bench;
mod party;
mod run;
mod show;
mod start;

ghost use Rattle.std.specs.Prelude.{◌≡◌, ◌≤◌, false, length};
ghost use Rattle.script_run.specs.Obeyed.{is_started, lacks_party, taken_in, obeyed, Held, Stepped};

pub use bench::Bench;
use messages::Incoming;
pub use run::{Party, Run};
use script::Step;

// The longest line that is read.
const LINE_MOST: usize = 4096;

// Whether a step is one on a party.
fn needs_party(step: Step) -> bool
    ensures { result ≡ lacks_party step false }
{
    matches!(
        step,
        Step::Lend { .. }
            | Step::Poke(_)
            | Step::Table
            | Step::Area
            | Step::Tick(_)
            | Step::Message(..)
    )
}

// Whether a step is one on a party and there is none yet.
fn lacks_party(step: Step, party: Option<Party>) -> bool
    ensures { result ≡ lacks_party step (is_started party) }
{
    match party {
        None => needs_party(step),
        Some(_) => false,
    }
}

// A step that was read, and its bytes. They go one by one: an `Incoming` has a message, and most steps are none.
fn take(
    run: Run,
    step: Step,
    table: &mut [u8],
    area: &mut [u8],
    out: &mut [u8],
    line: u64,
    key: &[u8],
    value: &[u8],
    other: &[u8],
    list: &[u16],
) -> Run
    requires { Held run table.old area.old out.old }
    ensures { Stepped run out.old (taken_in run table.old area.old line step key.now value.now other.now list.now) result table.new area.new out.new }
{
    if lacks_party(step, run.party) {
        return start::stop(run, table, area, out, line, b": no party yet\n");
    }
    match step {
        Step::Pass => run,
        Step::Acceptor(registers) => start::start_acceptor(run, table, area, out, line, registers),
        Step::Proposer(places, timeout) => start::start_proposer(
            run, table, area, out, line, places, timeout, list,
        ),
        Step::Clock(time) => run.timed(time),
        Step::Lend {
            capacity,
            bytes,
            area: n,
        } => start::lend(run, table, area, out, line, capacity, bytes, n),
        Step::Poke(at) => start::poke(run, table, area, out, line, at, value),
        Step::Table => show::show_table(run, table, area, out),
        Step::Area => show::show_area(run, table, area, out),
        Step::Tick(time) => party::tick(run, table, area, out, time),
        Step::Message(from, rpc) => {
            let message = Incoming {
                rpc,
                key,
                value,
                other,
                list,
            };
            party::send(run, table, area, out, from, message)
        }
        Step::Unreadable => start::unreadable(run, table, area, out, line),
    }
}

// A line of the script. The buffers `bytes` and `list` take its bytes and numbers, and `out` its text, behind what was put out.
pub fn obey(
    run: Run,
    text: &[u8],
    line: u64,
    table: &mut [u8],
    area: &mut [u8],
    out: &mut [u8],
    bytes: &mut [u8],
    list: &mut [u16],
) -> Run
    requires { (Held run table.old area.old out.old) × (1800 ≤ length bytes.old) × (32 ≤ length list.old) }
    ensures { Stepped run out.old (obeyed run table.old area.old line text.now) result table.new area.new out.new }
{
    if LINE_MOST < text.len() {
        return start::unreadable(run, table, area, out, line);
    }
    let read = script::read(text, bytes, list);
    take(
        run,
        read.step,
        table,
        area,
        out,
        line,
        &bytes[0..read.key],
        &bytes[read.key..read.value],
        &bytes[read.value..read.other],
        &list[0..read.list],
    )
}
