// traceparent: the example of the rules and its variants.
use refusal::Refusal;
use std::test::Fail;
use trace::ids::TraceId;
use traceparent::read::*;
use traceparent::write::traceparent_text;

fn read(text: &[u8]) -> u8 {
    read_header(text).map_or_else(|fault| fault.number(), |_| 0)
}

fn priority(text: &[u8]) -> Option<i8> {
    extract_traceparent(text)
        .map(|told| told.sampling_priority.value)
        .ok()
}

#[test]
fn written_and_read(rt: HostRuntime) -> Result<(), Fail> {
    let id = TraceId { high: 1, low: 10 };
    let text = traceparent_text(id, 183, true);
    assert_eq!(rt;
        text,
        *b"00-0000000000000001000000000000000a-00000000000000b7-01"
    );
    let told = extract_traceparent(&text)?;
    assert_eq!(rt; told.trace_id.high, 1);
    assert_eq!(rt; told.trace_id.low, 10);
    assert_eq!(rt; told.span_id, 183);
    assert_eq!(rt; told.sampling_priority.value, 1);
    Ok(())
}

#[test]
fn versions_and_tails(rt: HostRuntime) {
    assert_eq!(rt;
        read(b"00-0000000000000001000000000000000a-00000000000000b7-01-"),
        6
    );
    assert_eq!(rt;
        read(b"01-0000000000000001000000000000000a-00000000000000b7-01-"),
        0
    );
    assert_eq!(rt;
        read(b"01-0000000000000001000000000000000a-00000000000000b7-01-x"),
        0
    );
    assert_eq!(rt;
        read(b"01-0000000000000001000000000000000a-00000000000000b7-01x"),
        2
    );
    assert_eq!(rt;
        read(b"ff-0000000000000001000000000000000a-00000000000000b7-01"),
        5
    );
    assert_eq!(rt;
        read(b"ff-00000000000000000000000000000000-00000000000000b7-01"),
        3
    );
    assert_eq!(rt;
        read(b"00-0000000000000001000000000000000a-0000000000000000-01-"),
        4
    );
    assert_eq!(rt;
        read(b"00-0000000000000001000000000000000A-00000000000000b7-01"),
        2
    );
    assert_eq!(rt;
        read(b"00-0000000000000001000000000000000a-00000000000000b7-0"),
        2
    );
    assert_eq!(rt;
        read(b"\t 00-0000000000000001000000000000000a-00000000000000b7-01 "),
        0
    );
    assert_eq!(rt; read(b""), 2);
}

#[test]
fn flags(rt: HostRuntime) {
    assert_eq!(rt;
        priority(b"00-0000000000000001000000000000000a-00000000000000b7-ff"),
        Some(1)
    );
    assert_eq!(rt;
        priority(b"00-0000000000000001000000000000000a-00000000000000b7-02"),
        Some(0)
    );
    assert_eq!(rt;
        priority(b"00-0000000000000001000000000000000a-00000000000000b7-00"),
        Some(0)
    );
}
