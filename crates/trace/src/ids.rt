// Trace ids.
ghost use Rattle.std.specs.Prelude.{◌≡◌};
ghost use Rattle.trace.specs.Traces.{is_zero, is_wide};

// A trace id of 128 bits, as two halves.
#[derive(Clone, Copy, PartialEq, Eq, Debug)]
pub struct TraceId {
    pub high: u64,
    pub low: u64,
}

impl TraceId {
    // No trace has this id.
    pub fn is_zero(self) -> bool
        ensures { result ≡ is_zero self }
    {
        self.high == 0 && self.low == 0
    }

    // Whether the id has more than 64 bits.
    pub fn is_wide(self) -> bool
        ensures { result ≡ is_wide self }
    {
        self.high != 0
    }
}
