//! Which calls of an object in memory are to fail.
ghost use Rattle.std.specs.Prelude.{◌≡◌, ◌↔◌, IsTrue, Contains};
ghost use Rattle.lg_base.specs.Failing.{IsToFail, after_call};

use std::marker::Model;

/// The numbers of the calls that are to fail, from 0, and how many calls there were.
#[derive(Drop)]
pub struct Failing {
    listed: Vec<u32>,
    calls: u64,
}

impl Model for Failing {
    ghost use Rattle.lg_base.specs.Failing.{FailingCalls};

    ghost Value = { FailingCalls };

    ghost view = { λ f. record { listed = f.listed.items; calls = f.calls } };
}

impl Failing {
    /// The calls of these numbers, from 0, are to fail, and none was made yet. Takes no memory.
    pub fn new(listed: Vec<u32>) -> Failing
        ensures { result ≡ record { listed = listed.items; calls = 0 } }
    {
        Failing { listed, calls: 0 }
    }

    /// From now on these calls are to fail, and no others. Their numbers count the calls made already.
    pub fn list(&mut self, listed: Vec<u32>)
        ensures { self.new ≡ record self.old { listed = listed.items } }
    {
        self.listed = listed;
    }

    /// How many calls there were, up to 2^64 - 1. It is the number of the next one.
    pub fn calls(&self) -> u64
        ensures { result ≡ self.now.calls }
    {
        self.calls
    }

    /// Whether this call is to fail. Counts it.
    pub fn fails_next(&mut self) -> bool
        ensures fails { IsTrue result ↔ IsToFail self.old }
        ensures counted { self.new ≡ after_call self.old }
    {
        let call = self.calls;
        self.calls = call.saturating_add(1);
        self.listed.iter().any(|number| u64::from(*number) == call)
    }
}
