// The slot table.
use carrier::faults::SetFault;
use carrier::traits::*;
use slots::table::*;
use std::test::Fail;

#[test]
fn sixteen_names(rt: HostRuntime) -> Result<(), Fail> {
    let mut table = SlotTable::new();
    for n in 0..16u8 {
        assert_eq!(rt; table.set(&[b'a' + n], b"1"), Ok(()));
    }
    assert_eq!(rt; table.key_count(), 16);
    assert_eq!(rt; table.set(b"q", b"1"), Err(SetFault::Full));
    assert_eq!(rt; table.set(b"a", b"2"), Ok(()));
    table.unset(b"c");
    assert_eq!(rt; table.get(b"c"), None);
    assert_eq!(rt; table.set(b"q", b"3"), Ok(()));
    assert_eq!(rt; table.get(b"q").ok_or("q")?, b"3".as_slice());
    assert_eq!(rt; table.key_at(2).ok_or("third slot")?, b"q".as_slice());
    Ok(())
}

#[test]
fn longest_values(rt: HostRuntime) -> Result<(), Fail> {
    let mut table = SlotTable::new();
    let longest = vec![in rt.alloc(); b'v'; 1024]?;
    let longer = vec![in rt.alloc(); b'v'; 1025]?;
    assert_eq!(rt; table.set(b"a", &longest), Ok(()));
    assert_eq!(rt; table.set(b"a", &longer), Err(SetFault::Full));
    assert_eq!(rt; table.get(b"a").ok_or("a")?, &longest[..]);
    assert_eq!(rt; table.set(b"", b"1"), Err(SetFault::Unlawful));
    assert_eq!(rt; table.set(b"b", b"\x00"), Err(SetFault::Unlawful));
    assert!(rt; !table.takes(b"a:", 1));
    Ok(())
}
