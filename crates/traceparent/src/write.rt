// traceparent, written.
ghost use Rattle.std.specs.Prelude.{◌≡◌, ◌+◌, ◌≤◌};
ghost use Rattle.number.specs.Numbers.{hex_text};
ghost use Rattle.text.specs.Appends.{placed};
ghost use Rattle.traceparent.specs.Writes.{traceparent_text};

use number::write::fill_hex;
use trace::ids::TraceId;

// A traceparent of version 00 has this length.
pub const TRACEPARENT_LEN: usize = 55;

// Writes the last digits of the number over what stands at that place.
fn put_hex(out: &mut [u8; TRACEPARENT_LEN], at: usize, width: usize, n: u64)
    requires { at + width ≤ 55 }
    ensures { out.new ≡ placed out.old at (hex_text width n) }
{
    fill_hex(&mut out[at..at + width], n);
}

// The traceparent of these ids and this keep decision.
pub fn traceparent_text(trace_id: TraceId, span_id: u64, keep: bool) -> [u8; TRACEPARENT_LEN]
    ensures { result ≡ traceparent_text trace_id span_id keep }
{
    // The dashes are what no number is written over.
    let mut out = [b'-'; TRACEPARENT_LEN];
    put_hex(&mut out, 0, 2, 0);
    put_hex(&mut out, 3, 16, trace_id.high);
    put_hex(&mut out, 19, 16, trace_id.low);
    put_hex(&mut out, 36, 16, span_id);
    put_hex(&mut out, 53, 2, u64::from(keep));
    out
}
