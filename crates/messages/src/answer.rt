// What a party answers, and why it refuses.
ghost use Rattle.std.specs.Prelude.{◌≡◌};
ghost use Rattle.messages.specs.Refusals.{number};

use super::{Address, Rpc};

// Where the key, the entries of a list and the rows of timeouts stand in an answer area, behind the value; an entry has two bytes.
pub const KEY_AT: usize = 256;

pub const ENTRIES_AT: usize = 320;

pub const ENTRY: usize = 2;

pub const ROWS_AT: usize = 350;

pub const ROW: usize = 10;

// An answer of 01, of which a refusal is one ("An answer is one of: nothing, one message .., or a refusal"): so it is a case here and no `Err`
// around the others, as `Told` and `said` have it. The bytes of its message stand in the lent answer area (docs/LAYOUT.md): the value at its
// front, then the key, the entries that a broadcast goes to, and the rows of timeouts. The enum has lengths and no slices of it, since a C
// caller is handed the lengths (include/mirkaspel.h), and an answer that borrowed the area would keep it lent (docs/DECISIONS.md).
// specs/Answers.antt says which answer an enum and an area are.
#[derive(Clone, Copy, PartialEq, Eq)]
pub enum Answer {
    Nothing,
    Message {
        to: Address,
        rpc: Rpc,
        value_len: usize,
    },
    Broadcast {
        rpc: Rpc,
        entries: usize,
        key_len: usize,
        value_len: usize,
    },
    Timeouts(usize),
    Refused(Refusal),
}

// 01's refusals by name, with its numbers.
#[derive(Clone, Copy, PartialEq, Eq)]
pub enum Refusal {
    // a lent area isn't the size for its capacity, or the capacity is outside the limits
    AreaSize = 1,
    // a block is neither free nor good, two blocks hold the key, or an area is no image of a state
    Damaged = 2,
    // the kind isn't for this party
    WrongKind = 3,
    // key, value or list too long, or address 0
    OverLimit = 4,
    // AcceptRes for a request in its first phase
    FirstPhase = 5,
    // the sender has answered in this phase
    Repeated = 6,
    // the sender isn't waited for
    NotWaitedFor = 7,
    // an error of another kind than the phase has
    ForeignError = 8,
    // Ok promise while the request's ballot isn't above the highest promised
    PromisedAbove = 9,
    // a new ballot is needed and the counter is used up
    CounterUsedUp = 10,
    // a block or a pending place is needed and none is free
    NoRoom = 11,
    // a tick earlier than some pending arrival
    ClockBack = 12,
}

impl Refusal {
    // 01's number, as README.md (`r.number()`) and the definition `number` name it, and the C interface hands it out; so a method and no
    // `From`.
    pub fn number(self) -> u8
        ensures { result ≡ number self }
    {
        self as u8
    }
}
