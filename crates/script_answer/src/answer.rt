// An answer as a line of text. The bytes of its message stand in the answer area, where messages/specs/Answers.antt says.
ghost use Rattle.std.specs.Prelude.{◌≡◌, [], ◌++◌, ◌≤◌, length, drop};
ghost use Rattle.leaf_fields.specs.Fields.{from_le, part};
ghost use Rattle.messages.specs.Message.{message_of};
ghost use Rattle.messages.specs.Answers.{one, each, refused, entries_at, rows_at, row_bytes};
ghost use Rattle.script_words.specs.Letters.{letters};
ghost use Rattle.script_words.specs.LentLaws.{Put};
ghost use Rattle.script_words.specs.Written.{decimal};
ghost use Rattle.script_answer.specs.Lines.{
  list_text,
  entries_text,
  name_text,
  row_in,
  row_text,
  rows_text,
  told_text,
  entries_in,
  rows_in,
  shown,
  answer_line,
};

use super::message::{put_message, put_numbered, put_spaced};
use messages::{Address, Answer, ENTRIES_AT, ENTRY, KEY_AT, ROW, ROWS_AT, Refusal, Rpc};
use script_words::{put_byte, put_number, put_text};

// What an area has from a place on.
fn rest(area: &[u8], at: usize) -> &[u8]
    ensures { result.now ≡ drop at area.now }
{
    &area[at.min(area.len())..]
}

// The n bytes of an area from a place on; what is there where it is too short.
fn part(area: &[u8], at: usize, n: usize) -> &[u8]
    ensures { result.now ≡ part area.now at n }
{
    let rest = rest(area, at);
    &rest[..n.min(rest.len())]
}

// A refusal's name. No `Display`, as message.rt says of a message.
fn name(refusal: Refusal) -> &'static [u8]
    ensures { result.now ≡ name_text refusal }
{
    match refusal {
        Refusal::AreaSize => b"AreaSize",
        Refusal::Damaged => b"Damaged",
        Refusal::WrongKind => b"WrongKind",
        Refusal::OverLimit => b"OverLimit",
        Refusal::FirstPhase => b"FirstPhase",
        Refusal::Repeated => b"Repeated",
        Refusal::NotWaitedFor => b"NotWaitedFor",
        Refusal::ForeignError => b"ForeignError",
        Refusal::PromisedAbove => b"PromisedAbove",
        Refusal::CounterUsedUp => b"CounterUsedUp",
        Refusal::NoRoom => b"NoRoom",
        Refusal::ClockBack => b"ClockBack",
    }
}

// A comma, and an entry.
fn put_entry(out: &mut [u8], at: usize, entry: &[u8]) -> usize
    requires { 2 ≤ length entry.now }
    ensures { Put out.old at (letters "," ++ decimal (from_le (part entry.now 0 2))) result out.new }
{
    let at = put_byte(out, at, b',');
    put_number(out, at, leaf_fields::read::<u16>(entry, 0) as u64)
}

// The n entries that a broadcast goes to, as a list; those that the area has room for. The number beside the area: `Answer` has numbers and
// no slices, for the C interface (messages/src/answer.rt).
fn put_list(out: &mut [u8], at: usize, area: &[u8], n: usize) -> usize
    ensures { Put out.old at (list_text (entries_in area.now entries_at n)) result out.new }
{
    if n == 0 || area.len() < ENTRIES_AT + ENTRY {
        return put_byte(out, at, b'-');
    }
    let mut end = put_number(out, at, leaf_fields::read::<u16>(area, ENTRIES_AT) as u64);
    for entry in rest(area, ENTRIES_AT + ENTRY)
        .chunks_exact(ENTRY)
        .take(n - 1)
    {
        end = put_entry(out, end, entry);
    }
    end.min(out.len())
}

// A row of timeouts: a space, the client, a colon and the request's id.
fn put_row(out: &mut [u8], at: usize, row: &[u8]) -> usize
    requires { row_bytes ≤ length row.now }
    ensures { Put out.old at (row_text (row_in row.now 0)) result out.new }
{
    let at = put_spaced(out, at, leaf_fields::read::<u16>(row, 0) as u64);
    let at = put_byte(out, at, b':');
    put_number(out, at, leaf_fields::read::<u64>(row, ENTRY))
}

// The n rows of timeouts; those that the area has room for.
fn put_rows(out: &mut [u8], at: usize, area: &[u8], n: usize) -> usize
    ensures { Put out.old at (rows_text (rows_in area.now rows_at n)) result out.new }
{
    let mut end = at;
    for row in rest(area, ROWS_AT).chunks_exact(ROW).take(n) {
        end = put_row(out, end, row);
    }
    end.min(out.len())
}

fn put_one(out: &mut [u8], at: usize, to: Address, rpc: Rpc, value: &[u8]) -> usize
    ensures { Put out.old at (told_text (one to (message_of rpc [] value.now value.now []))) result out.new }
{
    let at = put_numbered(out, at, b"to", to.0 as u64);
    let at = put_byte(out, at, b' ');
    put_message(out, at, rpc, b"", value, value)
}

// The parts of an `Answer::Broadcast`, with the area that its entries stand in, one by one: a struct of them would be built for the one
// call and taken apart here.
fn put_each(
    out: &mut [u8],
    at: usize,
    rpc: Rpc,
    entries: usize,
    key: &[u8],
    value: &[u8],
    area: &[u8],
) -> usize
    ensures { Put out.old at (told_text (each (entries_in area.now entries_at entries) (message_of rpc key.now value.now value.now []))) result out.new }
{
    let at = put_text(out, at, b"each ");
    let at = put_list(out, at, area, entries);
    let at = put_byte(out, at, b' ');
    put_message(out, at, rpc, key, value, value)
}

fn put_refused(out: &mut [u8], at: usize, refusal: Refusal) -> usize
    ensures { Put out.old at (told_text (refused refusal)) result out.new }
{
    let at = put_numbered(out, at, b"refused", refusal.number() as u64);
    let at = put_byte(out, at, b' ');
    put_text(out, at, name(refusal))
}

// An answer, with its bytes in the answer area; no line end.
fn put_told(out: &mut [u8], at: usize, answer: Answer, area: &[u8]) -> usize
    ensures { Put out.old at (told_text (shown answer area.now)) result out.new }
{
    match answer {
        Answer::Nothing => put_text(out, at, b"nothing"),
        Answer::Message { to, rpc, value_len } => {
            put_one(out, at, to, rpc, part(area, 0, value_len))
        }
        Answer::Broadcast {
            rpc,
            entries,
            key_len,
            value_len,
        } => put_each(
            out,
            at,
            rpc,
            entries,
            part(area, KEY_AT, key_len),
            part(area, 0, value_len),
            area,
        ),
        Answer::Timeouts(n) => {
            let at = put_text(out, at, b"timeouts");
            put_rows(out, at, area, n)
        }
        Answer::Refused(refusal) => put_refused(out, at, refusal),
    }
}

// An answer as a line, put into a lent buffer from a place on; the place behind, which stays within the buffer.
pub fn put_answer_at(out: &mut [u8], at: usize, answer: Answer, area: &[u8]) -> usize
    ensures { Put out.old at (answer_line answer area.now) result out.new }
{
    let at = put_told(out, at, answer, area);
    put_byte(out, at, b'\n')
}
