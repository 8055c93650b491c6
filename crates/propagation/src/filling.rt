// How an extract ends.
ghost use Rattle.std.specs.Prelude.{◌≡◌};
ghost use Rattle.std.specs.Option.{option_map};
ghost use Rattle.context.specs.Contexts.{context_of};
ghost use Rattle.propagation.specs.Extracts.{accepted, mechanism_of};
ghost use Rattle.store.specs.Stores.{held};
ghost use Rattle.trace.specs.Traces.{level, maker};

use context::sampling::{OtSource, Sampling};
use context::span_context::SpanContext;
use std::mem::swap;
use store::memory::Store;
use trace::ids::TraceId;
use trace::mechanism::{SAMPLING_DECISION_MAKER_TAG_KEY, SamplingMechanism};
use trace::priority::SamplingPriority;

// The span that accepted headers name, and its priority.
#[derive(Clone, Copy, PartialEq, Eq, Debug)]
pub struct RemoteSpan {
    pub trace_id: TraceId,
    pub span_id: u64,
    pub priority: Option<SamplingPriority>,
}

// With a priority, the mechanism is that of the tag.
fn mechanism_in(store: &Store, priority: Option<SamplingPriority>) -> Option<SamplingMechanism>
    ensures { option_map maker result ≡ mechanism_of (option_map level priority) (held store.now).tags }
{
    priority?;
    SamplingMechanism::from_text(store.get(SAMPLING_DECISION_MAKER_TAG_KEY)?)
}

// The headers were accepted and the spare store is filled: it becomes the context's, and the old one the spare.
pub fn accept(context: &mut SpanContext, spare: &mut Store, span: RemoteSpan)
    ensures context { context_of context.new ≡ accepted span.trace_id span.span_id (option_map level span.priority) (held spare.old) }
    ensures spare { held spare.new ≡ (context_of context.old).store }
{
    context.trace_id = span.trace_id;
    context.span_id = span.span_id;
    context.sampling = Sampling {
        priority: span.priority,
        mechanism: mechanism_in(spare, span.priority),
    };
    context.is_remote = true;
    context.ot_source = OtSource::Carried;
    swap(&mut context.store, spare);
}
