// The clock: arrivals that a tick is earlier than, and requests that are over time.
ghost use Rattle.std.specs.Prelude.{◌≡◌, not, ◌&&◌, ◌||◌, ◌-◌, ◌<◌, eqb, ltb, MatchOption};
ghost use Rattle.leaf_fields.specs.Fields.{byte};
ghost use Rattle.proposer_rules.specs.Rules.{clock_back};
ghost use Rattle.proposer_place.specs.Area.{used_at, read_pending};
ghost use Rattle.proposer_area.specs.State.{state};
ghost use Rattle.proposer_clock.specs.Late.{late_of};

use proposer_area::{Area, places_in};
use proposer_place::PLACE;

// Whether a place's request arrived after time t.
fn ahead(b: &[u8; PLACE], t: u64) -> bool
    ensures { result ≡ (not (eqb (byte b.now used_at) 0) && ltb t (read_pending b.now).received_at) }
{
    !proposer_place::is_free(b) && t < proposer_place::arrival(b)
}

// Whether a tick at t is earlier than some pending arrival.
pub fn clock_back(area: &Area<'_>, t: u64) -> bool
    ensures { result ≡ clock_back t (state area.now).places }
{
    places_in(&area.bytes).iter().any(|b| ahead(b, t))
}

// Whether a place's request is over time: at t more than the timeout has passed since its arrival.
fn late(b: &[u8; PLACE], t: u64, timeout: u64) -> bool
    ensures { result ≡ (not (eqb (byte b.now used_at) 0) && ltb timeout (t - (read_pending b.now).received_at)) }
{
    !proposer_place::is_free(b) && timeout < t.saturating_sub(proposer_place::arrival(b))
}

// The place of the late request with the lowest ballot.
pub fn lowest_late(area: &Area<'_>, t: u64) -> Option<usize>
    ensures { MatchOption result (late_of (state area.now) t (state area.now).places ≡ area.now.places) (λ i. (i ≡ late_of (state area.now) t (state area.now).places) × (i < area.now.places)) }
{
    let timeout = area.header().timeout;
    places_in(&area.bytes)
        .iter()
        .enumerate()
        .filter(|(_, b)| late(b, t, timeout))
        .min_by_key(|(_, b)| proposer_place::ballot(b))
        .map(|(i, _)| i)
}
