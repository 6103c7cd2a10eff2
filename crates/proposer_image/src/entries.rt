// Lists of addresses: two bytes an entry.
ghost use Rattle.std.specs.Prelude.{◌≡◌};
ghost use Rattle.messages.specs.Limits.{none_zero};
ghost use Rattle.proposer_place.specs.Area.{distinct};
ghost use Rattle.proposer_place.specs.Rows.{numbers};
ghost use Rattle.proposer_image.specs.Good.{each_listed};

use proposer_area::{address, listed};

// Whether no entry is 0.
#[tactic(auto, using(crate::specs::Lists::none_zero_lem))]
pub fn none_zero(list: &[[u8; 2]]) -> bool
    ensures { result ≡ none_zero (numbers list.now) }
{
    !listed(list, 0)
}

// Whether each entry is one of the others, or, where `wanted` is false, whether none of them is. One bit, as `listed` answers it:
// as two functions this chain would stand here twice.
pub fn each_listed(list: &[[u8; 2]], others: &[[u8; 2]], wanted: bool) -> bool
    ensures { result ≡ each_listed wanted (numbers list.now) (numbers others.now) }
{
    list.iter()
        .all(|entry| listed(others, address(entry)) == wanted)
}

// Whether no entry stands twice. `ballots_distinct` in lib.rt says why it has this chain again.
pub fn distinct(list: &[[u8; 2]]) -> bool
    ensures { result ≡ distinct (numbers list.now) }
{
    list.iter()
        .enumerate()
        .all(|(i, entry)| !listed(&list[i + 1..], address(entry)))
}
