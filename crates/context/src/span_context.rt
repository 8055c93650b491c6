// A context.
ghost use Rattle.std.specs.Prelude.{◌≡◌, true};
ghost use Rattle.context.specs.Ranges.{ids_fit, sampling_fits};

use crate::sampling::{OtSource, Sampling};
use store::memory::Store;
use trace::ids::TraceId;

// What a job knows of its trace. The tag `tracestate` of the store is the list that it carries on.
#[derive(Drop)]
pub struct SpanContext {
    pub trace_id: TraceId,
    pub span_id: u64,
    pub sampling: Sampling,
    pub is_remote: bool,
    pub ot_source: OtSource,
    pub store: Store,
    ghost ids: { ids_fit trace_id span_id ≡ true },
    ghost small: { sampling_fits sampling ≡ true },
}
