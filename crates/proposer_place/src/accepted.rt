// What a promise tells of the value that its sender accepted last.
ghost use Rattle.std.specs.Prelude.{◌≡◌, true, ℕ, ◌<◌};
ghost use Rattle.leaf_fields.specs.Fields.{byte};
ghost use Rattle.messages.specs.Message.{given};
ghost use Rattle.messages.specs.Limits.{option_fits};

use messages::{Ballot, Lent};

// The ballot at which it was accepted; whether there is a value, within the limit; and its bytes, lent beside the mark (01, 'bytes beside
// them').
#[derive(Clone, Copy)]
pub struct Accepted<'a> {
    pub ballot: Ballot,
    pub mark: Option<Lent>,
    pub bytes: &'a [u8],
    pub ghost numbers: { (i : ℕ) → byte bytes.now i < 256 },
    pub ghost fits: { option_fits (given mark bytes.now) ≡ true },
}

impl<'a> Accepted<'a> {
    ghost use Rattle.messages.specs.Answers.{bytes_of};

    // Its bytes come as a parameter, whose type says that they are bytes; a field of another struct does not.
    pub fn of(ballot: Ballot, mark: Option<Lent>, bytes: &'a [u8]) -> Accepted<'a>
        requires { option_fits (given mark bytes.now) ≡ true }
        ensures { (result.ballot ≡ ballot) × (result.mark ≡ mark) × (result.bytes.now ≡ bytes.now) }
    {
        Accepted {
            ballot,
            mark,
            bytes,
        }
    }

    // The value's bytes: none where there is no value.
    pub fn value(&self) -> &[u8]
        ensures { result.now ≡ bytes_of (given self.now.mark self.now.bytes.now) }
    {
        messages::present(self.mark, self.bytes)
    }
}
