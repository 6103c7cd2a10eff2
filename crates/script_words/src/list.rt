// Lists in a script: `-`, or numbers with commas between them.
ghost use Rattle.std.specs.Prelude.{◌≡◌, length};
ghost use Rattle.std.proofs.lemmas.List.Edits.{sets};
ghost use Rattle.script_words.specs.Text.{list_word, list_of};
ghost use Rattle.script_words.specs.Written.{behind};

use super::number::read_address;
use leaf_fields::same;

// The most numbers that one list can give.
pub const LIST_ROOM: usize = 32;

// Whether a word is a list.
pub fn is_list(word: &[u8]) -> bool
    ensures { result ≡ list_word word.now }
{
    // tried with `matches!(word, [b'-'])`: `returns-then-matches` stays open
    if same(word, b"-") {
        return true;
    }
    let mut entries = word.split(|b| *b == b',').enumerate();
    entries.all(|(n, entry)| n < LIST_ROOM && read_address(entry).is_some())
}

// The numbers of a list, stored at the front of a buffer as far as it reaches; how many.
pub fn read_list(word: &[u8], out: &mut [u16]) -> usize
    ensures { (result ≡ behind out.old 0 (length (list_of word.now))) × (out.new ≡ sets out.old 0 (list_of word.now)) }
{
    let room = out.len().min(LIST_ROOM);
    // `n` is the answer, which an index of `enumerate` or `zip` would not be behind the loop
    let mut n = 0;
    for entry in word.split(|b| *b == b',').take(room) {
        let Some(a) = read_address(entry) else {
            return n;
        };
        out[n] = a.0;
        n += 1;
    }
    n
}
