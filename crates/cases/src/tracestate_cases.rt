// tracestate lists and dd values.
use std::test::Fail;
use tracestate::items::*;
use tracestate::member::*;
use tracestate::read::*;

fn is_list(s: &[u8]) -> bool {
    read_tracestate(s).is_some()
}

#[test]
fn lists(rt: HostRuntime) {
    assert!(rt; is_list(b"") && is_list(b" ,\t, ") && is_list(b",a=1 , b=2,"));
    assert!(rt; !is_list(b"=x") && !is_list(b"a=") && !is_list(b"a") && !is_list(b"a =1"));
    assert!(rt; !is_list(b"A=1") && !is_list(b"_a=1") && !is_list(b"a@=1") && !is_list(b"a=1=2"));
    assert!(rt; is_list(b"a@bcdefghijklmno=1") && !is_list(b"a@bcdefghijklmnop=1"));
    assert!(rt;
        is_list(b"a=1,,,,,,,,,,,,,,,,,,,,,,,,,,,,,,,")
            && !is_list(b"a=1,=,,,,,,,,,,,,,,,,,,,,,,,,,,,,")
    );
}

// The first 32 pieces count, so an unlawful one after them does no harm.
#[test]
fn pieces_after_the_32nd(rt: HostRuntime) {
    assert!(rt; !is_list(b",,,,,,,,,,,,,,,,,,,,,,,,,,,,,,,=x"));
    assert!(rt; is_list(b",,,,,,,,,,,,,,,,,,,,,,,,,,,,,,,,=x"));
}

#[test]
fn values(rt: HostRuntime) {
    assert!(rt; is_value(b" a") && !is_value(b"a ") && !is_value(b"") && !is_value(b"a\tb"));
    assert!(rt; is_value(&[b'v'; 256]) && !is_value(&[b'v'; 257]));
    assert!(rt; is_key(&[b'k'; 256]) && !is_key(&[b'k'; 257]));
}

#[test]
fn dd_and_ot(rt: HostRuntime) -> Result<(), Fail> {
    let read = read_tracestate(b"dd=s:1,ot=x,dd= s:2;o:a;t.a:1;t.b:2;t.a:3 ").ok_or("a list")?;
    assert!(rt; read.ot == Some(b"x"));
    let value = read.dd.ok_or("dd")?;
    let dd = read_dd(value);
    assert!(rt; dd.priority == Some(b"2") && dd.origin == Some(b"a"));
    assert!(rt; dd.last_parent.is_none());
    let mut tags = DdTags::new(value);
    let tag = tags.next().ok_or("first tag")?;
    assert!(rt; tag.key == b"b".as_slice() && tag.value == b"2".as_slice());
    let tag = tags.next().ok_or("second tag")?;
    assert!(rt; tag.key == b"a".as_slice() && tag.value == b"3".as_slice());
    assert!(rt; tags.next().is_none());
    Ok(())
}
