ghost use Rattle.std.specs.Prelude.{◌≡◌};
ghost use Rattle.aead_streams.specs.Counters.{counter_at};

/// Which bits of a counter block count: all 128 (SP 800-38A appendix B.1), or the last 32 (SP 800-38D
/// section 6.2). They wrap, and the other bits stay.
#[derive(Clone, Copy, Debug, Drop, PartialEq, Eq)]
pub enum CounterWidth {
    Whole,
    Low32,
}

impl CounterWidth {
    // The counter block after this one.
    pub(crate) fn next(self, counter: u128) -> u128
        ensures { result ≡ counter_at self counter 1 }
    {
        match self {
            CounterWidth::Whole => counter.wrapping_add(1),
            CounterWidth::Low32 => (counter >> 32 << 32) + (counter % (1 << 32) + 1) % (1 << 32),
        }
    }
}
