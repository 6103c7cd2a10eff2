// Where a run of a script stands.
ghost use Rattle.std.specs.Prelude.{◌≡◌, max};
ghost use Rattle.script_run.specs.Run.{fresh, put_up_to, timed, reached, cleared, lending_to, over};
ghost use Rattle.script_run.specs.Obeyed.{is_proposer};

#[derive(Clone, Copy)]
pub enum Party {
    Acceptor,
    Proposer,
}

// Which party there is, the time that messages carry, what is lent to the party (its capacity is the registers of an acceptor's table or
// the places of a proposer's area), how far the table may hold anything but zeros, how far the output is written, and whether the run is
// over: a bit with nothing beside it, so no enum. By default there is no party yet.
#[derive(Clone, Copy, Default)]
pub struct Run {
    pub party: Option<Party>,
    pub clock: u64,
    pub capacity: usize,
    pub bytes: usize,
    pub area: usize,
    pub reach: usize,
    pub at: usize,
    pub ended: bool,
}

impl Run {
    pub fn new() -> Self
        ensures { result ≡ fresh }
    {
        Run::default()
    }

    pub(crate) fn is_proposer(self) -> bool
        ensures { result ≡ is_proposer self.party }
    {
        matches!(self.party, Some(Party::Proposer))
    }

    // The output is written up to a place.
    pub fn put_up_to(self, at: usize) -> Self
        ensures { result ≡ put_up_to self at }
    {
        Run { at, ..self }
    }

    // Messages carry this time from now on.
    pub fn timed(self, time: u64) -> Self
        ensures { result ≡ timed self time }
    {
        Run {
            clock: time,
            ..self
        }
    }

    // This party is there, and is lent this from now on. The three numbers go one by one, here and in start.rt: the callers have them so
    // (`Step::Lend`, or sums), and a struct of them would be built for the one call and taken apart here.
    pub fn lending(self, party: Option<Party>, capacity: usize, bytes: usize, area: usize) -> Self
        ensures { result ≡ lending_to self party capacity bytes area }
    {
        Run {
            party,
            capacity,
            bytes,
            area,
            ..self.reached(bytes)
        }
    }

    // The table may hold anything up to a place.
    pub fn reached(self, to: usize) -> Self
        ensures { result ≡ reached self to }
    {
        Run {
            reach: self.reach.max(to),
            ..self
        }
    }

    // The table is zeros throughout.
    pub fn cleared(self) -> Self
        ensures { result ≡ cleared self }
    {
        Run { reach: 0, ..self }
    }

    pub fn over(self) -> Self
        ensures { result ≡ over self }
    {
        Run {
            ended: true,
            ..self
        }
    }
}
