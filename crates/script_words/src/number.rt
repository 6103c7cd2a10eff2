// Decimal numbers.
ghost use Rattle.std.specs.Prelude.{◌≡◌};
ghost use Rattle.script_words.specs.Text.{number_of, address_of};

use messages::Address;

// The number that a word is: one digit or more, and below 2^64. A digit a turn: `str::parse` takes a `&str` and a leading `+`, and a script's
// word is bytes, in which `+` is no digit (docs/SCRIPT.md).
pub fn read_number(word: &[u8]) -> Option<u64>
    ensures { result ≡ number_of word.now }
{
    if word.is_empty() {
        return None;
    }
    // tried with `try_fold`: `returns` stays open, since no law of the library leads from its clause to a fold of a list
    let mut x: u64 = 0;
    for b in word {
        let digit = char::from(*b).to_digit(10)?;
        x = x.checked_mul(10)?.checked_add(u64::from(digit))?;
    }
    Some(x)
}

// The address that a word is: a number of 16 bits. 0, which is no address, can be written, so that it reaches the party.
pub fn read_address(word: &[u8]) -> Option<Address>
    ensures { result ≡ address_of word.now }
{
    let n = read_number(word)?;
    Some(Address(u16::try_from(n).ok()?))
}
