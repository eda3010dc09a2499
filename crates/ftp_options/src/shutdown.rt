//! How a server is shut down, and who asks for it.

ghost use Rattle.std.specs.Prelude.{◌≡◌, ℕ, Option, Some, None, IfSome};
ghost use Rattle.std.specs.Option.{option_map};
ghost use Rattle.ftp_options.specs.declared.shutdown.Shutdown.{Shutdown};

/// What is asked for with a shutdown.
#[derive(Clone, Copy, Debug, PartialEq, Eq)]
pub struct Shutdown {
    /// How long running transfers may go on, in milliseconds.
    pub grace_ms: u64,
}

impl Shutdown {
    /// A grace period of ten seconds.
    pub fn new() -> Shutdown
        ensures { result ≡ record { grace_ms = 10000 } }
    {
        Shutdown { grace_ms: 10_000 }
    }

    /// The same with this grace period, in milliseconds.
    pub fn grace_period(self, ms: u64) -> Shutdown
        ensures { result ≡ record self { grace_ms = ms } }
    {
        Shutdown { grace_ms: ms }
    }
}

/// Asks a server to shut down.
pub trait Indicator {
    // The moment at which it asked first, and the grace period that it gave, in milliseconds.
    ghost asked: { Self → Option (ℕ × ℕ) };

    /// Says at this moment, in milliseconds, whether a shutdown is asked for.
    fn poll(&mut self, at: u64) -> Option<Shutdown>
        ensures first { asked self.old ≡ None → asked self.new ≡ option_map (λ (s : Shutdown). (at, s.grace_ms)) result }
        ensures kept { IfSome (asked self.old) (λ a. asked self.new ≡ Some a) };
}

impl Indicator for Box<dyn Indicator + Drop> {
    ghost asked = { λ b. (Indicator-box b).asked b.value };

    fn poll(&mut self, at: u64) -> Option<Shutdown> {
        (**self).poll(at)
    }
}
