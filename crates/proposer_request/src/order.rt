// What a client asks, with what is lent beside it.
ghost use Rattle.std.specs.Prelude.{◌≡◌, ℕ, ◌<◌};
ghost use Rattle.leaf_fields.specs.Fields.{byte};

use messages::{Address, Ballot, Req};
use proposer_place::{Front, Phase};

// A request, its key, and its values as they are lent beside the enum: `value`, of a `Cas` the old one, and `other`, of a `Cas` the new
// one.
#[derive(Clone, Copy)]
pub struct Order<'a> {
    pub req: Req,
    pub key: &'a [u8],
    pub value: &'a [u8],
    pub other: &'a [u8],
    pub ghost key_numbers: { (i : ℕ) → byte key.now i < 256 },
    pub ghost value_numbers: { (i : ℕ) → byte value.now i < 256 },
    pub ghost other_numbers: { (i : ℕ) → byte other.now i < 256 },
}

impl<'a> Order<'a> {
    ghost use Rattle.std.specs.Prelude.{List, length, false};
    ghost use Rattle.messages.specs.Message.{request_of};
    ghost use Rattle.messages.specs.Answers.{bytes_of};
    ghost use Rattle.proposer_rules.specs.State.{new_pending};
    ghost use Rattle.proposer_place.specs.Area.{first_value, second_value};
    ghost use Rattle.proposer_place.specs.Front.{front_of};
    ghost use Rattle.proposer_request.specs.Order.{asked_in};

    // Its bytes come as parameters, as those of `Accepted` do.
    pub fn of(req: Req, key: &'a [u8], value: &'a [u8], other: &'a [u8]) -> Order<'a>
        ensures { asked_in result ≡ request_of req key.now value.now other.now }
    {
        Order {
            req,
            key,
            value,
            other,
        }
    }

    // The bytes of the request's first value: a `Set`'s, or a `Cas`'s old one.
    pub(crate) fn first(&self) -> &[u8]
        ensures { result.now ≡ bytes_of (first_value (asked_in self.now)) }
    {
        match self.req {
            Req::Get | Req::Del => &[],
            Req::Set => self.value,
            Req::Cas { old, .. } => messages::present(old, self.value),
        }
    }

    // And of its second: a `Cas`'s new one.
    pub(crate) fn second(&self) -> &[u8]
        ensures { result.now ≡ bytes_of (second_value (asked_in self.now)) }
    {
        match self.req {
            Req::Cas { new, .. } => messages::present(new, self.other),
            _ => &[],
        }
    }

    // The front of its place, proposed at a ballot for a client, with n acceptors waited for.
    pub(crate) fn front(&self, client: Address, at: u64, id: u64, ballot: Ballot, n: usize) -> Front
        ensures { (l : List ℕ) → length l ≡ n → result ≡ front_of (new_pending client id (asked_in self.now) ballot l at false) }
    {
        Front {
            phase: Phase::Propose,
            retried: false,
            req: self.req,
            key_len: self.key.len(),
            first_len: self.first().len(),
            second_len: self.second().len(),
            mark: None,
            value_len: 0,
            client,
            id,
            ballot,
            promised: Ballot(0),
            received_at: at,
            waiting_for: n,
            acks_from: 0,
            nacks_from: 0,
        }
    }
}
