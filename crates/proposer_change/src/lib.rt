// The majority, and the change operation: what a request makes of the promised value. The new value is handed back as a part of one of the
// two lent slices, the request's or the promised one.
#![tactic(auto)]

ghost use Rattle.std.specs.Prelude.{◌≡◌, take};
ghost use Rattle.messages.specs.Message.{given};
ghost use Rattle.messages.specs.Answers.{marked, bytes_of};
ghost use Rattle.proposer_rules.specs.Rules.{majority_of, same_value};
ghost use Rattle.proposer_change.specs.Change.{applied_in};

use messages::{Lent, Req};

// How many answers of a list of n entries, repeats counted, are a majority.
pub fn majority(n: usize) -> usize
    ensures { result ≡ majority_of n }
{
    n / 2 + 1
}

// A request and the promised value that it is applied to.
#[derive(Clone, Copy)]
pub struct Change<'a> {
    pub req: Req,
    // the value of a `Set`; of a `Cas` the old value's `split` bytes, then the new value. One row and no two slices: `applied_in`, which
    // the public functions promise, reads it so by `request_in` of the rules (docs/DECISIONS.md)
    pub request: &'a [u8],
    pub split: usize,
    // whether there is a promised value, and its bytes: a mark beside them, as a place has them, and as 01's form has the new value
    // ('none marked beside it', docs/PROMISES.md)
    pub mark: Option<Lent>,
    pub promised: &'a [u8],
}

impl<'a> Change<'a> {
    // Whether the promised value is this old one of a `Cas`; none equals only none.
    fn expected(self, old: Option<Lent>) -> bool
        ensures { result ≡ same_value (given old (take self.entry.split self.entry.request.now)) (given self.entry.mark self.entry.promised.now) }
    {
        let end = self.split.min(self.request.len());
        match (old, self.mark) {
            (None, None) => true,
            (Some(_), Some(_)) => leaf_fields::same(&self.request[..end], self.promised),
            _ => false,
        }
    }

    // Whether a `Cas` fails on the promised value.
    pub fn cas_failed(self) -> bool
        ensures { result ≡ (applied_in self.entry).failed }
    {
        match self.req {
            Req::Cas { old, .. } => !self.expected(old),
            _ => false,
        }
    }

    // Whether there is a new value.
    pub fn new_mark(self) -> Option<Lent>
        ensures { result ≡ marked (applied_in self.entry).value }
    {
        match self.req {
            Req::Del => None,
            Req::Set => Some(Lent),
            Req::Cas { old, new } if self.expected(old) => new,
            Req::Get | Req::Cas { .. } => self.mark,
        }
    }

    // The new value's bytes, as a part of one of the two lent slices; an empty part for no value.
    pub fn new_value(self) -> &'a [u8]
        ensures { result.now ≡ bytes_of (applied_in self.entry).value }
    {
        match self.req {
            Req::Del => &[],
            Req::Set => self.request,
            Req::Cas { old, new } if self.expected(old) => {
                let end = self.split.min(self.request.len());
                messages::present(new, &self.request[end..])
            }
            Req::Get | Req::Cas { .. } => messages::present(self.mark, self.promised),
        }
    }
}
