// Bytes in a script: `x` and two hex digits for each.
ghost use Rattle.std.specs.Prelude.{◌≡◌, ◌≤◌, ◌<◌, length};
ghost use Rattle.script_words.specs.Text.{is_hex, hex_value, all_hex, bytes_word, unhexed, bytes_of};
ghost use Rattle.script_words.specs.Written.{written, behind};

use super::put::put_byte;

// The most bytes that one word can give.
pub const BYTES_MOST: usize = 600;

// In lower case alone (docs/SCRIPT.md), where `is_ascii_hexdigit` takes capitals too.
fn is_hex(b: u8) -> bool
    ensures { result ≡ is_hex b }
{
    matches!(b, b'0'..=b'9' | b'a'..=b'f')
}

// The value of a hex digit; 0 for any other byte, capitals among them, which `to_digit` reads: `unhex` takes any word, and `bytes_of` says
// what it stores.
fn hex_value(b: u8) -> u8
    ensures { (result ≡ hex_value b) × (result < 16) }
{
    match b {
        b'0'..=b'9' => b - b'0',
        b'a'..=b'f' => b - b'a' + 10,
        _ => 0,
    }
}

fn all_hex(s: &[u8]) -> bool
    ensures { result ≡ all_hex s.now }
{
    s.iter().all(|b| is_hex(*b))
}

// Whether a word stands for bytes.
#[tactic(auto, unfolding(crate::specs::Text::bytes_word))]
pub fn is_bytes(word: &[u8]) -> bool
    ensures { result ≡ bytes_word word.now }
{
    let [b'x', digits @ ..] = word else {
        return false;
    };
    digits.len() % 2 == 0 && digits.len() <= 2 * BYTES_MOST && all_hex(digits)
}

// The digits of the bytes that a word stands for; none of the empty word, and none of one that is too long.
fn digits(word: &[u8]) -> &[u8]
    ensures { bytes_of word.now ≡ unhexed result.now }
{
    let [_, digits @ ..] = word else {
        return b"";
    };
    if digits.len() <= 2 * BYTES_MOST {
        digits
    } else {
        b""
    }
}

// The bytes that a word stands for, put into a buffer from a place on as far as it reaches; the place behind. None for the empty word, and
// none for one that is too long.
pub fn unhex(word: &[u8], out: &mut [u8], at: usize) -> usize
    ensures { (result ≤ length out.new) × (result ≡ behind out.old at (length (bytes_of word.now))) × (out.new ≡ written out.old at (bytes_of word.now)) }
{
    let pairs = digits(word).as_chunks::<2>().0;
    // a `for` and no `fold`: what a closure changes behind a borrow, as `out` would be, is not told
    let mut end = at;
    for pair in pairs {
        end = put_byte(out, end, hex_value(pair[0]) * 16 + hex_value(pair[1]));
    }
    end.min(out.len())
}
