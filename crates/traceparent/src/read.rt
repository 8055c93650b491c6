// traceparent, read.
ghost use Rattle.std.specs.Prelude.{◌≡◌};
ghost use Rattle.std.proofs.Common.{rules};
ghost use Rattle.std.specs.Option.{option_map};
ghost use Rattle.traceparent.specs.Reads.{Fields, components, header_traceparent, judged, number, parts, read_traceparent, said, sampled, taken_tail};

use number::read::read_hex;
use refusal::Refusal;
use text::take::{take_char, take_n_hex_chars};
use text::trim::trim;
use trace::ids::TraceId;
use trace::priority::{AUTO_KEEP, AUTO_REJECT, SamplingPriority};

// What a traceparent says.
#[derive(Clone, Copy, PartialEq, Eq, Debug)]
pub struct Traceparent {
    pub trace_id: TraceId,
    pub span_id: u64,
    pub sampling_priority: SamplingPriority,
}

// Why a traceparent is refused.
#[derive(Clone, Copy, PartialEq, Eq, Debug)]
pub enum TraceparentFault {
    Shape = 2,
    ZeroTraceId = 3,
    ZeroSpanId = 4,
    VersionFf = 5,
    TailAfterVersion00 = 6,
}

impl Refusal for TraceparentFault {
    ghost code = { number };

    fn number(self) -> u8 {
        self as u8
    }

    ghost in_range = { Prim.search rules };
}

// The parts of a traceparent, as they stand in the text. A tail is what follows a dash after the flags.
#[derive(Clone, Copy)]
struct Components<'a> {
    version: &'a [u8],
    high: &'a [u8],
    low: &'a [u8],
    span_id: &'a [u8],
    flags: &'a [u8],
    tail: Option<&'a [u8]>,
}

// What stands after the flags: nothing, or a dash and any tail. None within says that there is none, without that the text is malformed.
fn take_tail(s: &[u8]) -> Option<Option<&[u8]>>
    ensures { option_map (option_map (λ x. x.now)) result ≡ taken_tail s.now }
{
    if s.is_empty() {
        Some(None)
    } else {
        take_char(s, b'-').map(Some)
    }
}

fn parse_traceparent_components(text: &[u8]) -> Option<Components<'_>>
    ensures { option_map parts result ≡ components text.now }
{
    let (version, s) = take_n_hex_chars(text, 2)?;
    let (high, s) = take_n_hex_chars(take_char(s, b'-')?, 16)?;
    let (low, s) = take_n_hex_chars(s, 16)?;
    let (span_id, s) = take_n_hex_chars(take_char(s, b'-')?, 16)?;
    let (flags, s) = take_n_hex_chars(take_char(s, b'-')?, 2)?;
    let tail = take_tail(s)?;
    Some(Components {
        version,
        high,
        low,
        span_id,
        flags,
        tail,
    })
}

// Bit 0 of the flags says whether the trace is kept; the other bits are ignored.
fn sampling(flags: u64) -> SamplingPriority
    ensures { result ≡ sampled flags }
{
    if flags % 2 == 1 {
        AUTO_KEEP
    } else {
        AUTO_REJECT
    }
}

impl Components<'_> {
    // What the numbers say that the parts write.
    fn read(self) -> Option<Traceparent>
        ensures { result ≡ said (parts self.entry) }
    {
        Some(Traceparent {
            trace_id: TraceId {
                high: read_hex(self.high, 16)?,
                low: read_hex(self.low, 16)?,
            },
            span_id: read_hex(self.span_id, 16)?,
            sampling_priority: sampling(read_hex(self.flags, 2)?),
        })
    }

    // What they say, or why it is refused.
    fn judge(self, said: Traceparent) -> Result<Traceparent, TraceparentFault>
        ensures { result ≡ judged (parts self.entry) said }
    {
        if said.trace_id.is_zero() {
            Err(TraceparentFault::ZeroTraceId)
        } else if said.span_id == 0 {
            Err(TraceparentFault::ZeroSpanId)
        } else if self.version == b"ff".as_slice() {
            Err(TraceparentFault::VersionFf)
        } else if self.version == b"00".as_slice() && self.tail.is_some() {
            Err(TraceparentFault::TailAfterVersion00)
        } else {
            Ok(said)
        }
    }
}

// The traceparent that a text without blanks at its ends writes.
pub fn extract_traceparent(text: &[u8]) -> Result<Traceparent, TraceparentFault>
    ensures { result ≡ read_traceparent text.now }
{
    let components = parse_traceparent_components(text).ok_or(TraceparentFault::Shape)?;
    let said = components.read().ok_or(TraceparentFault::Shape)?;
    components.judge(said)
}

// What a traceparent header says: blanks surround a header's value and do not belong to it.
pub fn read_header(value: &[u8]) -> Result<Traceparent, TraceparentFault>
    ensures { result ≡ header_traceparent value.now }
{
    extract_traceparent(trim(value))
}
