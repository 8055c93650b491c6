// How a trace was sampled.
use trace::mechanism::SamplingMechanism;
use trace::priority::SamplingPriority;

// The priority, and who decided on it.
#[derive(Clone, Copy, PartialEq, Eq, Debug)]
pub struct Sampling {
    pub priority: Option<SamplingPriority>,
    pub mechanism: Option<SamplingMechanism>,
}

// Where a context has its ot value from: it was given, or it is the last one of the carried list.
#[derive(Clone, Copy, PartialEq, Eq, Debug)]
pub enum OtSource {
    Given,
    Carried,
}
