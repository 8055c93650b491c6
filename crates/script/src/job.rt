// A job on its way: the context that is set. Its headers are in the carrier.
use crate::call::Call;
use crate::faults::Refused;
use carrier::traits::{Extractor, Injector};
use fault::Cause;
use number::write::hex_text;
use std::alloc::AllocError;
use trace::ids::TraceId;
use trace::priority::{SamplingPriority, is_kept};
use traceparent::read::read_header;
use traceparent::write::traceparent_text;

const TRACEPARENT_KEY: &[u8] = b"traceparent";

#[derive(Clone, Copy)]
pub(crate) struct Job {
    trace_id: TraceId,
    span_id: u64,
    priority: Option<SamplingPriority>,
}

impl Job {
    pub(crate) fn new() -> Job {
        Job {
            trace_id: TraceId { high: 0, low: 0 },
            span_id: 0,
            priority: None,
        }
    }

    // Makes the call.
    pub(crate) fn make<C: Extractor + Injector>(
        &mut self,
        carrier: &mut C,
        call: Call,
    ) -> Result<(), Refused> {
        match call {
            Call::Leg => {}
            Call::Trace(id) => self.trace_id = id,
            Call::Span(id) => self.span_id = id,
            Call::Priority(priority) => self.priority = priority,
            Call::Set { name, value } => carrier.set(&name, &value)?,
            Call::Unset { name } => carrier.unset(&name),
            Call::WriteTraceparent => self.write(carrier)?,
            Call::ReadTraceparent => self.read(carrier)?,
        }
        Ok(())
    }

    // A zero id is refused, since no reader would take it.
    fn write<C: Injector>(&self, carrier: &mut C) -> Result<(), Refused> {
        if self.trace_id.is_zero() || self.span_id == 0 {
            return Err(Refused::from(Cause::ZeroId));
        }
        let header = traceparent_text(self.trace_id, self.span_id, is_kept(self.priority));
        Ok(carrier.set(TRACEPARENT_KEY, &header)?)
    }

    fn read<C: Extractor>(&mut self, carrier: &C) -> Result<(), Refused> {
        let header = carrier.get(TRACEPARENT_KEY).ok_or(Cause::NotShown)?;
        let told = read_header(header)?;
        self.trace_id = told.trace_id;
        self.span_id = told.span_id;
        self.priority = Some(told.sampling_priority);
        Ok(())
    }

    // Shows the context. As bytes: show.rt says why.
    pub(crate) fn show(&self, out: &mut Vec<u8>) -> Result<(), AllocError> {
        out.extend_from_slice(b"   trace ")?;
        out.extend_from_slice(&hex_text::<16>(self.trace_id.high))?;
        out.extend_from_slice(&hex_text::<16>(self.trace_id.low))?;
        out.extend_from_slice(b" span ")?;
        out.extend_from_slice(&hex_text::<16>(self.span_id))?;
        out.extend_from_slice(b" priority ")?;
        match self.priority {
            Some(priority) => out.extend_from_slice(priority.text().text())?,
            None => out.extend_from_slice(b"none")?,
        }
        out.push(b'\n')?;
        Ok(())
    }
}
