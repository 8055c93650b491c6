// What a context has, and changes of it.
ghost use Rattle.std.specs.Prelude.{◌≡◌};
ghost use Rattle.std.specs.Option.{option_map};
ghost use Rattle.trace.specs.Traces.{level, maker};
ghost use Rattle.store.specs.Stores.{held};
ghost use Rattle.context.specs.Contexts.{Context, carried, child_of, context_of, keeps, ot_of};

use crate::sampling::{OtSource, Sampling};
use crate::span_context::SpanContext;
use store::memory::Store;
use trace::ids::TraceId;
use trace::priority::is_kept;
use tracestate::read::read_tracestate;

// The tag that is the carried list.
pub const TRACESTATE_TAG: &[u8] = b"tracestate";

impl SpanContext {
    // A context of these ids, this sampling and what the store holds; its ot value is the store's. Five values: each is a field of its own.
    pub fn new(
        trace_id: TraceId,
        span_id: u64,
        sampling: Sampling,
        is_remote: bool,
        store: Store,
    ) -> SpanContext
        ensures { context_of result ≡ record { trace = trace_id; span = span_id; priority = option_map level sampling.priority; mechanism = option_map maker sampling.mechanism; remote = is_remote; ot_source = OtSource.Given; store = held store } }
    {
        SpanContext {
            trace_id,
            span_id,
            sampling,
            is_remote,
            ot_source: OtSource::Given,
            store,
        }
    }

    // The keep decision.
    pub fn is_kept(&self) -> bool
        ensures { result ≡ keeps (context_of self.now) }
    {
        is_kept(self.sampling.priority)
    }

    // The list that is carried on.
    pub fn carried(&self) -> Option<&[u8]>
        ensures { option_map (λ x. x.now) result ≡ carried (context_of self.now) }
    {
        self.store.get(TRACESTATE_TAG)
    }

    // The ot value.
    #[tactic(auto, unfolding(crate::specs::Contexts::ot_of))]
    pub fn ot(&self) -> Option<&[u8]>
        ensures { option_map (λ x. x.now) result ≡ ot_of (context_of self.now) }
    {
        match self.ot_source {
            OtSource::Given => self.store.ot(),
            OtSource::Carried => read_tracestate(self.carried()?)?.ot,
        }
    }

    // Goes on as a child of the same trace.
    pub fn become_child(&mut self, span_id: u64)
        ensures { context_of self.new ≡ child_of (context_of self.old) span_id }
    {
        self.span_id = span_id;
        self.is_remote = false;
    }
}
