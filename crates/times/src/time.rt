// What a kind of time is.
ghost use Rattle.std.specs.Prelude.{◌≡◌};
ghost use Rattle.times.specs.Kind.{Kind, Laws, LongerLater};

// A kind of time: a start, an order, and a way to let a delay pass.
pub trait Time: Copy {
    // What the three functions answer.
    ghost kind: { Kind Self };

    // The time at which everything starts.
    fn start() -> Self
        ensures { result ≡ kind.start };

    // Whether this time is at or before the other. It is no `PartialOrd`, which would ask more of every kind of time.
    fn at_or_before(self, other: Self) -> bool
        ensures { result ≡ kind.at_or_before self other };

    // The time when a delay, in ticks, has passed from this one.
    fn after(self, delay: u32) -> Self
        ensures { result ≡ kind.after self delay };

    // A total order that delays keep and never go back in.
    ghost lawful: { Laws kind };

    // A longer delay from the same time ends at the same time or later: only what keeps findings through a shortened delay may rest on it.
    ghost longer: { LongerLater kind };
}
