// The request that a place holds, read: its key, what its change operation is asked about, and whether a sender may answer it.
ghost use Rattle.std.specs.Prelude.{◌≡◌};
ghost use Rattle.proposer_place.specs.Area.{read_pending};
ghost use Rattle.proposer_place.specs.Front.{Used, front_of};
ghost use Rattle.proposer_area.specs.State.{pending, HasPending};
ghost use Rattle.proposer_works.specs.UsedProp.{Used-prop};

use messages::{Address, Refusal};
use proposer_area::{Area, list, listed, places_in};
use proposer_change::Change;
use proposer_place::{Front, KEY, NO, PLACE, PROMISED, VALUES, WAITED, YES};

// The bytes of a place that holds a request, and its front, taken out of them.
#[derive(Clone, Copy)]
pub struct Request<'a> {
    pub place: &'a [u8; PLACE],
    pub front: Front,
    pub ghost used: { Used place.now } by { Used-prop place.now },
    pub ghost taken: { front ≡ front_of (read_pending place.now) },
}

// The request that place i holds.
pub fn request_at<'a>(area: &'a Area<'_>, i: usize) -> Request<'a>
    requires { HasPending area.now i }
    ensures { read_pending result.place.now ≡ pending area.now i }
{
    let place = &places_in(area.bytes())[i];
    Request {
        place,
        front: proposer_place::take(place),
    }
}

impl<'a> Request<'a> {
    ghost use Rattle.std.specs.Prelude.{◌||◌};
    ghost use Rattle.messages.specs.Refusals.{first_due};
    ghost use Rattle.proposer_rules.specs.State.{key_of, listed};
    ghost use Rattle.proposer_rules.specs.Rules.{applied, sender_tests};
    ghost use Rattle.proposer_change.specs.Change.{applied_in};
    ghost use Rattle.proposer_works.specs.Requests.{asked};

    // Its key.
    pub fn key(self) -> &'a [u8]
        ensures { result.now ≡ key_of (asked self.entry).req }
    {
        let b = self.place;
        &b[KEY..KEY + self.front.key_len]
    }

    // It and the promised value, as the change operation is asked about them.
    pub fn change(self) -> Change<'a>
        ensures { applied_in result ≡ applied (asked self.entry).req (asked self.entry).value }
    {
        let b = self.place;
        let f = self.front;
        Change {
            req: f.req,
            request: &b[VALUES..VALUES + f.first_len + f.second_len],
            split: f.first_len,
            mark: f.mark,
            promised: &b[PROMISED..PROMISED + f.value_len],
        }
    }

    // Whether an address has answered it in this phase.
    pub fn has_answered(self, from: Address) -> bool
        ensures { result ≡ (listed from.0 (asked self.entry).acks_from || listed from.0 (asked self.entry).nacks_from) }
    {
        let b = self.place;
        let f = self.front;
        listed(list(b, YES, f.acks_from), from.0) || listed(list(b, NO, f.nacks_from), from.0)
    }

    // Whether an address is waited for.
    pub fn is_waited_for(self, from: Address) -> bool
        ensures { result ≡ listed from.0 (asked self.entry).waiting_for }
    {
        let b = self.place;
        listed(list(b, WAITED, self.front.waiting_for), from.0)
    }

    // Refusal 6 or 7, where it is due to the sender of an answer. An `Option`, as `first_due` of its clause is one: of a `Result` a caller,
    // which answers an `Answer`, would hand the refusal on by the same `if let`.
    pub fn refused(self, from: Address) -> Option<Refusal>
        ensures { result ≡ first_due (sender_tests (asked self.entry) from) }
    {
        if self.has_answered(from) {
            return Some(Refusal::Repeated);
        }
        if !self.is_waited_for(from) {
            return Some(Refusal::NotWaitedFor);
        }
        None
    }
}
