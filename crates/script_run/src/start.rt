// A party afresh, and what is lent to it.
ghost use Rattle.std.specs.Prelude.{◌≡◌, [], take};
ghost use Rattle.proposer.specs.Contract.{start_on};
ghost use Rattle.script_run.specs.Obeyed.{
  Held,
  Stepped,
  ran,
  stopped,
  unreadable,
  has_room,
  fresh_in,
  acceptor_in,
  started_by,
  proposer_in,
  lend_in,
  poke_in,
};

use super::run::{Party, Run};
use messages::{REGISTERS_MOST, ROW, ROWS_AT};
use proposer_area::HEADER;
use proposer_place::PLACE;
use script_answer::put_answer_at;
use script_words::{put_number, put_text};
use storage_block::BLOCK;

// The most places that the buffers have room for.
const PLACES_ROOM: usize = 60;

// The run's last line.
pub fn stop(run: Run, table: &[u8], area: &[u8], out: &mut [u8], line: u64, why: &[u8]) -> Run
    requires { Held run table.now area.now out.old }
    ensures { Stepped run out.old (stopped run table.now area.now line why.now) result table.now area.now out.new }
{
    let at = put_text(out, run.at, b"line ");
    let at = put_number(out, at, line);
    let at = put_text(out, at, why);
    run.put_up_to(at).over()
}

pub fn unreadable(run: Run, table: &[u8], area: &[u8], out: &mut [u8], line: u64) -> Run
    requires { Held run table.now area.now out.old }
    ensures { Stepped run out.old (unreadable run table.now area.now line) result table.now area.now out.new }
{
    stop(run, table, area, out, line, b": can't be read\n")
}

// Whether there is room for a table and an answer area of so many bytes.
fn has_room(table: &[u8], area: &[u8], bytes: usize, n: usize) -> bool
    ensures { result ≡ has_room table.now area.now bytes n }
{
    bytes <= table.len() && n <= area.len()
}

// A fresh party: what it is lent is zeros. A part is written `0..n`, as party.rt says.
fn fresh(
    run: Run,
    table: &mut [u8],
    area: &mut [u8],
    out: &mut [u8],
    line: u64,
    party: Party,
    capacity: usize,
    bytes: usize,
    n: usize,
) -> Run
    requires { Held run table.old area.old out.old }
    ensures { Stepped run out.old (fresh_in run table.old area.old line party capacity bytes n) result table.new area.new out.new }
{
    if !has_room(table, area, bytes, n) {
        return unreadable(run, table, area, out, line);
    }
    table[0..run.reach].fill(0);
    area.fill(0);
    run.cleared().lending(Some(party), capacity, bytes, n)
}

// `acceptor REGISTERS`.
pub fn start_acceptor(
    run: Run,
    table: &mut [u8],
    area: &mut [u8],
    out: &mut [u8],
    line: u64,
    registers: usize,
) -> Run
    requires { Held run table.old area.old out.old }
    ensures { Stepped run out.old (acceptor_in run table.old area.old line registers) result table.new area.new out.new }
{
    if REGISTERS_MOST < registers {
        return unreadable(run, table, area, out, line);
    }
    fresh(
        run,
        table,
        area,
        out,
        line,
        Party::Acceptor,
        registers,
        registers * BLOCK,
        acceptor::ANSWER,
    )
}

// `lend CAPACITY BYTES AREA`.
pub fn lend(
    run: Run,
    table: &[u8],
    area: &[u8],
    out: &mut [u8],
    line: u64,
    capacity: usize,
    bytes: usize,
    n: usize,
) -> Run
    requires { Held run table.now area.now out.old }
    ensures { Stepped run out.old (lend_in run table.now area.now line capacity bytes n) result table.now area.now out.new }
{
    if !has_room(table, area, bytes, n) {
        return unreadable(run, table, area, out, line);
    }
    run.lending(run.party, capacity, bytes, n)
}

// `poke AT BYTES`.
pub fn poke(
    run: Run,
    table: &mut [u8],
    area: &[u8],
    out: &mut [u8],
    line: u64,
    at: usize,
    bytes: &[u8],
) -> Run
    requires { Held run table.old area.now out.old }
    ensures { Stepped run out.old (poke_in run table.old area.now line at bytes.now) result table.new area.now out.new }
{
    if table.len() < at || table.len() - at < bytes.len() {
        return unreadable(run, table, area, out, line);
    }
    let end = at + bytes.len();
    table[at..end].copy_from_slice(bytes);
    run.reached(end)
}

// A proposer's start, on the area that it is lent.
fn open_proposer(
    run: Run,
    table: &mut [u8],
    area: &[u8],
    out: &mut [u8],
    timeout: u64,
    list: &[u16],
) -> Run
    requires { Held run table.old area.now out.old }
    ensures { Stepped run out.old (started_by (ran run table.old area.now []) (start_on (take run.bytes table.old) run.capacity timeout list.now)) result table.new area.now out.new }
{
    let answer = proposer::start(&mut table[0..run.bytes], run.capacity, timeout, list);
    let at = put_answer_at(out, run.at, answer, &area[0..run.area]);
    run.put_up_to(at)
}

// `proposer PLACES TIMEOUT LIST`.
pub fn start_proposer(
    run: Run,
    table: &mut [u8],
    area: &mut [u8],
    out: &mut [u8],
    line: u64,
    places: usize,
    timeout: u64,
    list: &[u16],
) -> Run
    requires { Held run table.old area.old out.old }
    ensures { Stepped run out.old (proposer_in run table.old area.old line places timeout list.now) result table.new area.new out.new }
{
    if PLACES_ROOM < places {
        return unreadable(run, table, area, out, line);
    }
    let begun = fresh(
        run,
        table,
        area,
        out,
        line,
        Party::Proposer,
        places,
        HEADER + PLACE * places,
        ROWS_AT + ROW * places,
    );
    if begun.ended {
        return begun;
    }
    open_proposer(begun, table, area, out, timeout, list)
}
