// Header names.
use carrier::names::is_name;

#[test]
fn names(rt: HostRuntime) {
    assert!(rt; is_name(b"traceparent"));
    assert!(rt; is_name(b"!~"));
    assert!(rt; !is_name(b""));
    assert!(rt; !is_name(b"a:b"));
    assert!(rt; !is_name(b"a b"));
    assert!(rt; !is_name(b"a\x7f"));
    assert!(rt; is_name(&[b'a'; 64]));
    assert!(rt; !is_name(&[b'a'; 65]));
}
