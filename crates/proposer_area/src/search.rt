// Searches over the places of an area.
ghost use Rattle.std.specs.Prelude.{◌≡◌, not, ◌&&◌, ◌<◌, eqb, map};
ghost use Rattle.leaf_fields.specs.Fields.{byte};
ghost use Rattle.proposer_rules.specs.State.{listed};
ghost use Rattle.proposer_rules.specs.Rules.{is_ballot};
ghost use Rattle.proposer_place.specs.Area.{used_at, read_pending, read_place, ballots_of};
ghost use Rattle.std.specs.Prelude.{MatchOption};
ghost use Rattle.proposer_area.specs.Places.{place_of, free_of};
ghost use Rattle.proposer_area.specs.State.{state};

use super::area::Area;
use super::places::places_in;
use messages::Ballot;
use proposer_place::PLACE;

// Whether a place holds the request at a ballot.
fn holds(b: &[u8; PLACE], ballot: Ballot) -> bool
    ensures { result ≡ (not (eqb (byte b.now used_at) 0) && is_ballot ballot (read_pending b.now)) }
{
    !proposer_place::is_free(b) && proposer_place::ballot(b) == ballot
}

// Whether one of these places holds the request at a ballot.
pub fn held(places: &[[u8; PLACE]], ballot: Ballot) -> bool
    ensures { result ≡ listed ballot.0 (ballots_of (map read_place places.now)) }
{
    places.iter().any(|b| holds(b, ballot))
}

// The place of the request at a ballot.
#[tactic(auto, using(crate::specs::Turns::sized_of))]
pub fn find(area: &Area<'_>, ballot: Ballot) -> Option<usize>
    ensures { MatchOption result (place_of ballot (state area.now).places ≡ area.now.places) (λ i. (i ≡ place_of ballot (state area.now).places) × (i < area.now.places)) }
{
    places_in(&area.bytes).iter().position(|b| holds(b, ballot))
}

// The lowest free place. Tried with `proposer_place::is_free` itself in the closure's place: the contract of `call_mut`, of a function of
// another crate, is not admitted.
#[tactic(auto, using(crate::specs::Turns::sized_of))]
pub fn lowest_free(area: &Area<'_>) -> Option<usize>
    ensures { MatchOption result (free_of (state area.now).places ≡ area.now.places) (λ i. (i ≡ free_of (state area.now).places) × (i < area.now.places)) }
{
    places_in(&area.bytes)
        .iter()
        .position(|b| proposer_place::is_free(b))
}
