// Headers of a form on a carrier.
ghost use Rattle.std.specs.Prelude.{◌≡◌, List, [], ◌∷◌};
ghost use Rattle.fault.specs.declared.Header.{Header};
ghost use Rattle.propagation.specs.Settings.{datadog_names, set_all, setting, unset_all, w3c_names};

use carrier::traits::Injector;
use fault::{Cause, Header, Worded};

// A form of headers.
pub trait Form {
    ghost names: { List Header };

    // Its headers, in the order in which they are set.
    fn headers() -> &'static [Header]
        ensures { result.now ≡ names };
}

// The headers of the W3C.
pub struct W3c;

impl Form for W3c {
    ghost names = { w3c_names };

    fn headers() -> &'static [Header] {
        &[Header::Traceparent, Header::Tracestate]
    }
}

// The headers of Datadog.
pub struct Datadog;

impl Form for Datadog {
    ghost names = { datadog_names };

    fn headers() -> &'static [Header] {
        &[
            Header::TraceId,
            Header::ParentId,
            Header::Origin,
            Header::SamplingPriority,
            Header::Tags,
        ]
    }
}

// Leaves no header of the form.
pub fn unset_form<F: Form, C: Injector>(carrier: &mut C)
    ensures { C.Carrier.held carrier.new ≡ unset_all C.Carrier.kind F.names (C.Carrier.held carrier.old) }
{
    for header in F::headers() {
        carrier.unset(header.bytes());
    }
}

// Sets the header; a refusal names it and keeps the carrier's own fault.
pub fn set_header<C: Injector>(carrier: &mut C, header: Header, value: &[u8]) -> Result<(), Cause>
    ensures answer { result ≡ (set_all C.Carrier.kind (setting header value.now ∷ []) (C.Carrier.held carrier.old)).answer }
    ensures after { C.Carrier.held carrier.new ≡ (set_all C.Carrier.kind (setting header value.now ∷ []) (C.Carrier.held carrier.old)).held }
{
    carrier
        .set(header.bytes(), value)
        .map_err(|fault| Cause::CarrierFull { header, fault })
}
