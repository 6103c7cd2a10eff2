// A lent area with its number of places.
ghost use Rattle.std.specs.Prelude.{◌≡◌, ◌<◌, length};
ghost use Rattle.proposer_area.specs.Held.{Held};
ghost use Rattle.proposer_area.specs.HeldProp.{Held-prop};

use super::entries::list;
use super::{ACCEPT_LIST, Header, PROPOSE_LIST, take_header};

// An area that is the image of a state that may be held. A ghost field says so and no `impl Model`: with a model over the lent slice its
// lender would learn nothing of the bytes (tried; what stays open is `returns` of whoever lends it).
#[derive(Drop)]
pub struct Area<'a> {
    pub bytes: &'a mut [u8],
    pub places: usize,
    pub ghost held: { Held bytes.now places } by { Held-prop bytes.now places },
}

impl<'a> Area<'a> {
    ghost use Rattle.std.specs.List.{flat_map};
    ghost use Rattle.messages.specs.Answers.{entry_bytes};
    ghost use Rattle.proposer_area.specs.Places.{header_in};
    ghost use Rattle.proposer_area.specs.State.{state};

    // Its bytes, to read.
    pub fn bytes(&self) -> &[u8]
        ensures { result.now ≡ self.now.bytes.now }
    {
        self.bytes
    }

    // Its header, taken out.
    #[tactic(auto, using(crate::specs::Turns::sized_of))]
    pub fn header(&self) -> Header
        ensures { (result ≡ header_in self.now.bytes.now) × (result.accept < 256) × (result.propose < 256) }
    {
        take_header(self.bytes)
    }

    // The entries of its accept list.
    pub fn accept_list(&self) -> &[[u8; 2]]
        ensures { (flat_map (λ e. e) result.now ≡ entry_bytes (state self.now).accept_acceptors) × (length result.now ≡ length (state self.now).accept_acceptors) }
    {
        list(self.bytes, ACCEPT_LIST, self.header().accept)
    }

    // And of its propose list.
    pub fn propose_list(&self) -> &[[u8; 2]]
        ensures { (flat_map (λ e. e) result.now ≡ entry_bytes (state self.now).propose_acceptors) × (length result.now ≡ length (state self.now).propose_acceptors) }
    {
        list(self.bytes, PROPOSE_LIST, self.header().propose)
    }
}
