// A message in numbers, as a caller in C or Rust passes and takes it. Its bytes are lent beside it, as those of an Rpc.
ghost use Rattle.std.specs.Prelude.{◌≡◌};
ghost use Rattle.messages.specs.Message.{message_of, arrived};
ghost use Rattle.message_numbers.specs.Heads.{
  head_in,
  verdict_of,
  request_of,
  known_in,
  message_in,
  with_result,
  head_of,
};

use messages::{Ballot, Error, Incoming, Lent, Req, Rpc};

// The numbers of include/mirkaspel.h: the kinds are 1 to 8 in the order of Rpc, the requests 1 to 4 in that of Req, the results 0 for Ok and
// 1 to 4 for the errors in their order. A number that a kind has no use for is not looked at, and is 0 in an answer.
#[derive(Clone, Copy, PartialEq, Eq, Default)]
pub struct Head {
    pub kind: u64,
    // a client's id, or the ballot
    pub number: u64,
    pub request: u64,
    // whether the value is there, and whether the other is
    pub value: u64,
    pub other: u64,
    // the accepted ballot of a ProposeRes
    pub accepted: u64,
    pub result: u64,
    // the ballot of a rejection
    pub last: u64,
}

// The head that eight numbers are.
impl From<[u64; 8]> for Head {
    ghost from_gives = { λ m h. h ≡ head_in m };

    fn from(m: [u64; 8]) -> Head {
        let [kind, number, request, value, other, accepted, result, last] = m;
        Head {
            kind,
            number,
            request,
            value,
            other,
            accepted,
            result,
            last,
        }
    }
}

impl Head {
    // What the result's number says, if 01 has it.
    fn verdict(self) -> Option<Result<(), Error>>
        ensures { result ≡ verdict_of self }
    {
        let last = Ballot(self.last);
        match self.result {
            0 => Some(Ok(())),
            1 => Some(Err(Error::ProposalRejected { last })),
            2 => Some(Err(Error::AcceptRejected { last })),
            3 => Some(Err(Error::CasFailed(Lent::of_mark(self.other)))),
            4 => Some(Err(Error::Timeout)),
            _ => None,
        }
    }

    // The request, if 01 has its number.
    fn request(self) -> Option<Req>
        ensures { result ≡ request_of self }
    {
        match self.request {
            1 => Some(Req::Get),
            2 => Some(Req::Del),
            3 => Some(Req::Set),
            4 => Some(Req::Cas {
                old: Lent::of_mark(self.value),
                new: Lent::of_mark(self.other),
            }),
            _ => None,
        }
    }

    // The message, if 01 has its kind, its request and its result.
    fn known(self) -> Option<Rpc>
        ensures { result ≡ known_in self }
    {
        let ballot = Ballot(self.number);
        let value = Lent::of_mark(self.value);
        match self.kind {
            1 => Some(Rpc::ClientRequest(self.number, self.request()?)),
            2 => Some(Rpc::ClientResponse(self.number, self.verdict()?.and(Ok(value)))),
            3 => Some(Rpc::SetAcceptAcceptors),
            4 => Some(Rpc::SetProposeAcceptors),
            5 => Some(Rpc::ProposeReq(ballot)),
            6 => Some(Rpc::ProposeRes {
                req_ballot: ballot,
                last_accepted_ballot: Ballot(self.accepted),
                last_accepted_value: value,
                res: self.verdict()?,
            }),
            7 => Some(Rpc::AcceptReq(ballot, value)),
            8 => Some(Rpc::AcceptRes(ballot, self.verdict()?)),
            _ => None,
        }
    }

    // A head with a result.
    fn with_result(self, res: Result<(), Error>) -> Head
        ensures { result ≡ with_result self res }
    {
        match res {
            Ok(_) => self,
            Err(Error::ProposalRejected { last }) => Head {
                result: 1,
                other: 0,
                last: last.0,
                ..self
            },
            Err(Error::AcceptRejected { last }) => Head {
                result: 2,
                other: 0,
                last: last.0,
                ..self
            },
            Err(Error::CasFailed(o)) => Head {
                result: 3,
                other: Lent::mark(o).into(),
                last: 0,
                ..self
            },
            Err(Error::Timeout) => Head {
                result: 4,
                other: 0,
                last: 0,
                ..self
            },
        }
    }
}

// The message of a head. A kind, a request or a result that 01 doesn't have makes a message that is for neither party: both refuse a client's
// response by 3.
impl From<Head> for Rpc {
    ghost from_gives = { λ h rpc. rpc ≡ message_in h };

    fn from(h: Head) -> Rpc {
        h.known()
            .unwrap_or(Rpc::ClientResponse(0, Err(Error::Timeout)))
    }
}

// The message of eight numbers, with what is lent beside it.
pub fn incoming<'a>(
    message: &[u64; 8],
    key: &'a [u8],
    value: &'a [u8],
    other: &'a [u8],
    list: &'a [u16],
) -> Incoming<'a>
    ensures { arrived result ≡ message_of (message_in (head_in message.now)) key.now value.now other.now list.now }
{
    let head = Head::from(*message);
    Incoming {
        rpc: Rpc::from(head),
        key,
        value,
        other,
        list,
    }
}

// The head of a message.
impl From<Rpc> for Head {
    ghost from_gives = { λ rpc h. h ≡ head_of rpc };

    fn from(rpc: Rpc) -> Head {
        match rpc {
            Rpc::ClientRequest(id, req) => {
                let (request, value, other) = match req {
                    Req::Get => (1, 0, 0),
                    Req::Del => (2, 0, 0),
                    Req::Set => (3, 0, 0),
                    Req::Cas { old, new } => (4, Lent::mark(old).into(), Lent::mark(new).into()),
                };
                Head {
                    kind: 1,
                    number: id,
                    request,
                    value,
                    other,
                    ..Head::default()
                }
            }
            Rpc::ClientResponse(id, Ok(o)) => Head {
                kind: 2,
                number: id,
                value: Lent::mark(o).into(),
                ..Head::default()
            },
            Rpc::ClientResponse(id, Err(e)) => Head {
                kind: 2,
                number: id,
                ..Head::default()
            }
            .with_result(Err(e)),
            Rpc::SetAcceptAcceptors => Head {
                kind: 3,
                ..Head::default()
            },
            Rpc::SetProposeAcceptors => Head {
                kind: 4,
                ..Head::default()
            },
            Rpc::ProposeReq(b) => Head {
                kind: 5,
                number: b.0,
                ..Head::default()
            },
            Rpc::ProposeRes {
                req_ballot,
                last_accepted_ballot,
                last_accepted_value,
                res,
            } => Head {
                kind: 6,
                number: req_ballot.0,
                value: Lent::mark(last_accepted_value).into(),
                accepted: last_accepted_ballot.0,
                ..Head::default()
            }
            .with_result(res),
            Rpc::AcceptReq(b, o) => Head {
                kind: 7,
                number: b.0,
                value: Lent::mark(o).into(),
                ..Head::default()
            },
            Rpc::AcceptRes(b, res) => Head {
                kind: 8,
                number: b.0,
                ..Head::default()
            }
            .with_result(res),
        }
    }
}
