// The crate's lib.rs: ballots, requests, messages, errors and their predicates, in the crate's names. The enums hold no bytes
// (docs/DECISIONS.md); the bytes of a message are lent beside them: `key`; `value`, the message's own value (of a `Cas` the old one);
// `other`, the new value of a `Cas`, or the value inside an error; and `list`. specs/Message.antt says which message an enum and its bytes
// are.
#![tactic(auto)]

mod answer;
mod limits;

ghost use Rattle.std.specs.Prelude.{◌≡◌, length};
ghost use Rattle.messages.specs.Ballots.{above};
ghost use Rattle.messages.specs.Message.{given, listed_at, mark, of_mark};
ghost use Rattle.messages.specs.Answers.{bytes_of};
ghost use Rattle.messages.specs.Errors.{
  rejected_accept,
  rejected_proposal,
  timed_out,
  failed_cas,
  request_id,
  request_of_rpc,
};

pub use answer::{Answer, ENTRIES_AT, ENTRY, KEY_AT, ROW, ROWS_AT, Refusal};
pub use limits::{
    KEY_MOST, LIST_MOST, PENDING_MOST, REGISTERS_MOST, VALUE_MOST, list_fits, register_fits,
};

// A controller's or client's address, 1 to 65,535 as on the drawing; 0 is none.
#[derive(Clone, Copy, PartialEq, Eq)]
pub struct Address(pub u16);

// A place in a list, from 0.
#[derive(Clone, Copy, PartialEq, Eq)]
pub struct Place(pub usize);

#[derive(Clone, Copy, PartialEq, Eq, PartialOrd, Ord)]
pub struct Ballot(pub u64);

impl Ballot {
    // Whether this ballot is above the other: the comparison of every rule, under the name by which they cite it
    // (specs/Ballots.antt). The derived order is the same, for what takes a key.
    pub fn above(self, other: Ballot) -> bool
        ensures { result ≡ above self other }
    {
        other.0 < self.0
    }
}

// A value's bytes, lent beside the message: `Option<Lent>` is the crate's Option<Value>, and no `Option<&[u8]>`, since an enum holds no bytes
// (docs/DECISIONS.md). No value differs from the empty value.
#[derive(Clone, Copy, PartialEq, Eq)]
pub struct Lent;

// A value that may be missing has a mark in blocks, places and heads. `Option` is another crate's type, so the two are no `From`.
impl Lent {
    // 1 for a value, 0 for none.
    pub fn mark(value: Option<Lent>) -> u8
        ensures { result ≡ mark value }
    {
        u8::from(value.is_some())
    }

    // 0 is no value, any other number a value.
    pub fn of_mark(mark: u64) -> Option<Lent>
        ensures { result ≡ of_mark mark }
    {
        (mark != 0).then_some(Lent)
    }
}

#[derive(Clone, Copy, PartialEq, Eq)]
pub enum Req {
    Get,
    Del,
    Set,
    Cas {
        old: Option<Lent>,
        new: Option<Lent>,
    },
}

#[derive(Clone, Copy, PartialEq, Eq)]
pub enum Error {
    ProposalRejected { last: Ballot },
    AcceptRejected { last: Ballot },
    CasFailed(Option<Lent>),
    Timeout,
}

#[derive(Clone, Copy, PartialEq, Eq)]
pub enum Rpc {
    ClientRequest(u64, Req),
    ClientResponse(u64, Result<Option<Lent>, Error>),
    SetAcceptAcceptors,
    SetProposeAcceptors,
    ProposeReq(Ballot),
    ProposeRes {
        req_ballot: Ballot,
        last_accepted_ballot: Ballot,
        last_accepted_value: Option<Lent>,
        res: Result<(), Error>,
    },
    AcceptReq(Ballot, Option<Lent>),
    AcceptRes(Ballot, Result<(), Error>),
}

// A message with what is lent beside it: `value` is the message's own value (of a `Cas` the old one), `other` the new value of a `Cas` or the
// value inside an error. What its kind has no use for is not looked at.
#[derive(Clone, Copy)]
pub struct Incoming<'a> {
    pub rpc: Rpc,
    pub key: &'a [u8],
    pub value: &'a [u8],
    pub other: &'a [u8],
    pub list: &'a [u16],
}

impl Error {
    pub fn is_rejected_accept(self) -> bool
        ensures { result ≡ rejected_accept self }
    {
        matches!(self, Error::AcceptRejected { .. })
    }

    pub fn is_rejected_proposal(self) -> bool
        ensures { result ≡ rejected_proposal self }
    {
        matches!(self, Error::ProposalRejected { .. })
    }

    pub fn is_timeout(self) -> bool
        ensures { result ≡ timed_out self }
    {
        matches!(self, Error::Timeout)
    }

    pub fn is_failed_cas(self) -> bool
        ensures { result ≡ failed_cas self }
    {
        matches!(self, Error::CasFailed(_))
    }
}

impl Rpc {
    pub fn client_req_id(self) -> Option<u64>
        ensures { result ≡ request_id self }
    {
        match self {
            Rpc::ClientRequest(id, _) | Rpc::ClientResponse(id, _) => Some(id),
            _ => None,
        }
    }

    pub fn client_req(self) -> Option<Req>
        ensures { result ≡ request_of_rpc self }
    {
        match self {
            Rpc::ClientRequest(_, req) => Some(req),
            _ => None,
        }
    }
}

// The address at a place of a list; 0, which is no address, past its end, as `listed_at` says.
pub fn address_at(list: &[u16], place: Place) -> Address
    ensures { result ≡ listed_at list.now place }
{
    Address(list.get(place.0).copied().unwrap_or(0))
}

// The bytes of a value that may be missing: none where it is.
pub fn present(value: Option<Lent>, bytes: &[u8]) -> &[u8]
    ensures { result.now ≡ bytes_of (given value bytes.now) }
{
    value.map_or(&[], |_| bytes)
}
