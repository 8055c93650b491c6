// Refusals: one type for all of them, with a number, the original's words, and at a full carrier the carrier's own fault.
#![tactic(auto)]

ghost use Rattle.std.specs.Prelude.{◌≡◌, ℕ, List};
ghost use Rattle.fault.specs.Faults.{header_of, header_text, message_text, operation_text, propagator_text};

mod causes;
mod shown;

use carrier::faults::SetFault;

// What stands for words.
pub trait Worded: Sized {
    ghost words: { Self → List ℕ };

    fn text(self) -> &'static str
        ensures { result.now ≡ words self };

    // The bytes of the text.
    final fn bytes(self) -> &'static [u8]
        ensures { result.now ≡ words self }
    {
        self.text().as_bytes()
    }
}

// Who refuses.
#[derive(Clone, Copy, PartialEq, Eq, Debug)]
pub enum Propagator {
    Traceparent,
    Datadog,
    Relay,
    Context,
}

// What was attempted.
#[derive(Clone, Copy, PartialEq, Eq, Debug)]
pub enum Operation {
    Extract,
    Inject,
    Make,
    Child,
    Put,
}

// A header that an inject sets.
#[derive(Clone, Copy, PartialEq, Eq, Debug)]
pub enum Header {
    Traceparent,
    Tracestate,
    TraceId,
    ParentId,
    Origin,
    SamplingPriority,
    Tags,
}

// Why. docs/REFUSALS.md has the numbers and who causes each.
#[derive(Clone, Copy, PartialEq, Eq, Debug)]
pub enum Cause {
    NotShown,
    Shape,
    ZeroTraceId,
    ZeroSpanId,
    VersionFf,
    TailAfterVersion00,
    UnreadableTraceId,
    ZeroDatadogTraceId,
    ZeroId,
    Unlawful,
    MemoryTooSmall,
    CarrierFull { header: Header, fault: SetFault },
    MalformedBlock,
}

// A refusal, whole.
#[derive(Clone, Copy, PartialEq, Eq, Debug)]
pub struct Fault {
    pub cause: Cause,
    pub propagator: Propagator,
    pub operation: Operation,
}

impl Worded for Propagator {
    ghost words = { propagator_text };

    fn text(self) -> &'static str {
        match self {
            Propagator::Traceparent => "traceparent",
            Propagator::Datadog => "datadog",
            Propagator::Relay => "relay",
            Propagator::Context => "context",
        }
    }
}

impl Worded for Operation {
    ghost words = { operation_text };

    fn text(self) -> &'static str {
        match self {
            Operation::Extract => "extract",
            Operation::Inject => "inject",
            Operation::Make => "make",
            Operation::Child => "child",
            Operation::Put => "put",
        }
    }
}

impl Worded for Header {
    ghost words = { header_text };

    fn text(self) -> &'static str {
        match self {
            Header::Traceparent => "traceparent",
            Header::Tracestate => "tracestate",
            Header::TraceId => "x-datadog-trace-id",
            Header::ParentId => "x-datadog-parent-id",
            Header::Origin => "x-datadog-origin",
            Header::SamplingPriority => "x-datadog-sampling-priority",
            Header::Tags => "x-datadog-tags",
        }
    }
}

// The message: the original's where it has one.
impl Worded for Cause {
    ghost words = { message_text };

    fn text(self) -> &'static str {
        match self {
            Cause::NotShown => "header not shown",
            Cause::Shape => "invalid traceparent",
            Cause::ZeroTraceId => "`0` value for trace_id is invalid",
            Cause::ZeroSpanId => "`0` value for span_id is invalid",
            Cause::VersionFf => "`ff` is an invalid traceparent version",
            Cause::TailAfterVersion00 => TAIL_MESSAGE,
            Cause::UnreadableTraceId => "Failed to decode `trace_id`",
            Cause::ZeroDatadogTraceId => "Invalid `trace_id` found",
            Cause::ZeroId => "zero id",
            Cause::Unlawful => "unlawful text or number",
            Cause::MemoryTooSmall => "memory too small",
            Cause::CarrierFull { .. } => "carrier full",
            Cause::MalformedBlock => "malformed block",
        }
    }
}

impl Cause {
    // The header that the carrier did not take.
    pub fn header(self) -> Option<Header>
        ensures { result ≡ header_of self }
    {
        match self {
            Cause::CarrierFull { header, .. } => Some(header),
            _ => None,
        }
    }
}

const TAIL_MESSAGE: &str =
    "Traceparent with version `00` should contain only 4 values delimited by `-`";
