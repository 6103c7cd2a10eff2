// A line of a script: which step it is, and its bytes in lent buffers.
ghost use Rattle.std.specs.Prelude.{◌≡◌};
ghost use Rattle.script_words.specs.Text.{number_of, address_of, bytes_word, list_word};
ghost use Rattle.script_words.specs.Split.{word_at};
ghost use Rattle.script_message.specs.Messages.{message_in};
ghost use Rattle.script.specs.declared.step.Step.{Step};
ghost use Rattle.script.specs.Steps.{proposer_by, lend_by, poke_by, sent_by, of_words, lent_in, step_in, step_words, word_in};
ghost use Rattle.script.specs.Read.{is_passed, Read};

use leaf_fields::same;
use messages::{Address, Rpc};
use script_message::{Places, places_of, read_message};
use script_words::{Words, is_bytes, is_list, read_address, read_list, read_number, split, unhex};

#[derive(Clone, Copy)]
pub enum Step {
    // an empty line or a remark
    Pass,
    Acceptor(usize),
    // places and timeout; its list is the line's list
    Proposer(usize, u64),
    // the time that messages carry from now on
    Clock(u64),
    Lend {
        capacity: usize,
        bytes: usize,
        area: usize,
    },
    // at this place of the table; the bytes are the line's value
    Poke(usize),
    Table,
    Area,
    Tick(u64),
    Message(Address, Rpc),
    // a step and no None: `Read` answers with it (`step_of`), and `taken_in` of script_run has it as a case with a line of its own
    Unreadable,
}

// A step, where its key, its value and its other value end in the lent bytes, one behind the other, and how many numbers its list has. Ends
// and not slices: `Read` says every byte of the lent buffers, and `key_there` and the theorems behind it where each part stands.
#[derive(Clone, Copy)]
pub struct Line {
    pub step: Step,
    pub key: usize,
    pub value: usize,
    pub other: usize,
    pub list: usize,
}

// The number of a step that has one, behind its name.
fn read_lone(words: &Words<'_>) -> Option<u64>
    ensures { result ≡ of_words words.now.n 2 (number_of (word_at words.now 1)) }
{
    if words.n != 2 {
        return None;
    }
    read_number(words.word(1))
}

fn read_proposer(words: &Words<'_>) -> Option<Step>
    ensures { result ≡ of_words words.now.n 4 (proposer_by (number_of (word_at words.now 1)) (number_of (word_at words.now 2)) (list_word (word_at words.now 3))) }
{
    if words.n != 4 || !is_list(words.word(3)) {
        return None;
    }
    let places = read_number(words.word(1))?;
    let timeout = read_number(words.word(2))?;
    Some(Step::Proposer(places as usize, timeout))
}

fn read_lend(words: &Words<'_>) -> Option<Step>
    ensures { result ≡ of_words words.now.n 4 (lend_by (number_of (word_at words.now 1)) (number_of (word_at words.now 2)) (number_of (word_at words.now 3))) }
{
    if words.n != 4 {
        return None;
    }
    Some(Step::Lend {
        capacity: read_number(words.word(1))? as usize,
        bytes: read_number(words.word(2))? as usize,
        area: read_number(words.word(3))? as usize,
    })
}

fn read_poke(words: &Words<'_>) -> Option<Step>
    ensures { result ≡ of_words words.now.n 3 (poke_by (number_of (word_at words.now 1)) (bytes_word (word_at words.now 2))) }
{
    if words.n != 3 || !is_bytes(words.word(2)) {
        return None;
    }
    Some(Step::Poke(read_number(words.word(1))? as usize))
}

// Names go through `same`, as in script_message.
#[tactic(auto, unfolding(crate::specs::Steps::step_in, crate::specs::Steps::lent_in))]
fn read_step(words: &Words<'_>) -> Option<Step>
    ensures { result ≡ step_in (word_at words.now) words.now.n }
{
    let name = words.word(0);
    if same(name, b"tick") {
        return Some(Step::Tick(read_lone(words)?));
    }
    if same(name, b"acceptor") {
        return Some(Step::Acceptor(read_lone(words)? as usize));
    }
    if same(name, b"proposer") {
        return read_proposer(words);
    }
    if same(name, b"clock") {
        return Some(Step::Clock(read_lone(words)?));
    }
    if same(name, b"lend") {
        return read_lend(words);
    }
    if same(name, b"poke") {
        return read_poke(words);
    }
    if same(name, b"table") {
        return (words.n == 1).then_some(Step::Table);
    }
    if same(name, b"area") {
        return (words.n == 1).then_some(Step::Area);
    }
    let from = read_address(name)?;
    let rpc = read_message(words)?;
    Some(Step::Message(from, rpc))
}

fn step_places(step: Step) -> Places
    ensures { result ≡ step_words step }
{
    match step {
        Step::Proposer(_, _) => Places {
            list: Some(3),
            ..Places::default()
        },
        Step::Poke(_) => Places {
            value: Some(2),
            ..Places::default()
        },
        Step::Message(_, rpc) => places_of(rpc),
        _ => Places::default(),
    }
}

// The word at a place; the empty word where there is no place. Tried with `map_or`: what its closure hands on of the borrowed words is not
// known then, and `returns` stays open.
fn word_in<'a>(words: &Words<'a>, place: Option<usize>) -> &'a [u8]
    ensures { result.now ≡ word_in (word_at words.now) place }
{
    match place {
        Some(i) => words.word(i),
        None => b"",
    }
}

// Whether a line is no step: empty, or a remark.
#[tactic(auto, unfolding(crate::specs::Read::is_passed))]
fn is_passed(line: &[u8]) -> bool
    ensures { result ≡ is_passed line.now }
{
    matches!(line, [] | [b'#', ..])
}

// A line's step, and its bytes and numbers at the fronts of the lent buffers.
pub fn read(line: &[u8], bytes: &mut [u8], list: &mut [u16]) -> Line
    ensures { Read line.now bytes.old list.old result bytes.new list.new }
{
    // before it is split: a remark has no words that are looked at, and it may be long
    if is_passed(line) {
        return Line {
            step: Step::Pass,
            key: 0,
            value: 0,
            other: 0,
            list: 0,
        };
    }
    let words = split(line);
    let step = read_step(&words).unwrap_or(Step::Unreadable);
    let places = step_places(step);
    let key = unhex(word_in(&words, places.key), bytes, 0);
    let value = unhex(word_in(&words, places.value), bytes, key);
    let other = unhex(word_in(&words, places.other), bytes, value);
    let n = read_list(word_in(&words, places.list), list);
    Line {
        step,
        key,
        value,
        other,
        list: n,
    }
}
