// A line of a script as a call.
use crate::faults::LineFault;
use crate::words::Words;
use number::read::read_hex;
use std::alloc::Global;
use trace::ids::TraceId;
use trace::priority::SamplingPriority;

#[derive(Drop)]
pub(crate) enum Call {
    // A heading.
    Leg,
    // A field of the context.
    Trace(TraceId),
    Span(u64),
    Priority(Option<SamplingPriority>),
    // The traceparent of the context into the carrier, and a context from the carrier's.
    WriteTraceparent,
    ReadTraceparent,
    // A header of the carrier, as another program would set it.
    Set { name: Vec<u8>, value: Vec<u8> },
    Unset { name: Vec<u8> },
}

fn read_trace_id(word: &[u8]) -> Option<TraceId> {
    let (high, low) = word.split_at_checked(16)?;
    Some(TraceId {
        high: read_hex(high, 16)?,
        low: read_hex(low, 16)?,
    })
}

fn priority_call(word: &[u8]) -> Option<Call> {
    match word {
        b"none" => Some(Call::Priority(None)),
        _ => SamplingPriority::from_text(word).map(|priority| Call::Priority(Some(priority))),
    }
}

fn traceparent_call(word: &[u8]) -> Option<Call> {
    match word {
        b"write" => Some(Call::WriteTraceparent),
        b"read" => Some(Call::ReadTraceparent),
        _ => None,
    }
}

// The call that one word after the verb writes.
fn short_call(verb: &[u8], word: &[u8]) -> Option<Call> {
    match verb {
        b"trace" => read_trace_id(word).map(Call::Trace),
        b"span" => read_hex(word, 16).map(Call::Span),
        b"priority" => priority_call(word),
        b"traceparent" => traceparent_call(word),
        _ => None,
    }
}

// The call that the line writes.
pub(crate) fn read_call(heap: Global, line: &[u8]) -> Result<Call, LineFault> {
    let mut words = Words::new(line);
    let call = match words.word()? {
        b"leg" => {
            let _name = words.next();
            Call::Leg
        }
        b"set" => Call::Set {
            name: words.text(heap)?,
            value: words.text(heap)?,
        },
        b"unset" => Call::Unset {
            name: words.text(heap)?,
        },
        verb => short_call(verb, words.word()?).ok_or(LineFault::Unreadable)?,
    };
    words.end()?;
    Ok(call)
}
