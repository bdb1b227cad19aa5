// How many records of each kind a run has met.
ghost use Rattle.std.specs.Prelude.{◌≡◌};
ghost use Rattle.depthpack.specs.Tallies.{none, counted};

use record::fault::RecordFault;
use record::request::Request;
use std::fmt;

#[derive(Clone, Copy, Debug)]
pub struct Tally {
    packed: u64,
    refused: u64,
    bad: u64,
    short: u64,
}

impl Tally {
    pub fn new() -> Tally
        ensures { result ≡ none }
    {
        Tally {
            packed: 0,
            refused: 0,
            bad: 0,
            short: 0,
        }
    }

    // One record more.
    pub fn count(&mut self, judged: Result<Request, RecordFault>)
        ensures { self.new ≡ counted judged self.old }
    {
        match judged {
            Ok(_) => self.packed = self.packed.saturating_add(1),
            Err(RecordFault::Refused(_)) => self.refused = self.refused.saturating_add(1),
            Err(RecordFault::Bad) => self.bad = self.bad.saturating_add(1),
            Err(RecordFault::Short) => self.short = self.short.saturating_add(1),
        }
    }
}

impl fmt::Display for Tally {
    fn fmt<W: fmt::Write>(&self, f: &mut fmt::Formatter<W>) -> fmt::Result {
        let Tally {
            packed,
            refused,
            bad,
            short,
        } = self;
        write!(
            f,
            "packed {packed}, refused {refused}, bad {bad}, short {short}"
        )
    }
}
