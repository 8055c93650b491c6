// Layers and piles.
use block::writer::*;
use carrier::faults::SetFault;
use carrier::traits::*;
use prefix::layer::*;
use prefix::prefixes::Prefix;
use queue::open_queue;
use slots::table::*;
use std::test::Fail;

#[test]
fn prefixes(rt: HostRuntime) {
    assert!(rt; Prefix::new(b"").is_err());
    assert!(rt; Prefix::new(b"a:").is_err());
    assert!(rt; Prefix::new(b"0123456789abcdef").is_ok());
    assert!(rt; Prefix::new(b"0123456789abcdefg").is_err());
}

#[test]
fn joined_names(rt: HostRuntime) -> Result<(), Fail> {
    let Ok(prefix) = Prefix::new(b"job-") else {
        return Err(Fail::new("prefix"));
    };
    let mut layer = Prefixed::new(SlotTable::new(), prefix);
    assert_eq!(rt; layer.set(&[b'n'; 60], b"1"), Ok(()));
    assert_eq!(rt; layer.set(&[b'n'; 61], b"1"), Err(SetFault::Full));
    assert_eq!(rt; layer.set(&[b'n'; 65], b"1"), Err(SetFault::Unlawful));
    assert_eq!(rt; layer.set(b"", b"1"), Err(SetFault::Unlawful));
    assert_eq!(rt; layer.key_count(), 1);
    assert!(rt; layer.get(&[b'n'; 61]).is_none());
    Ok(())
}

#[test]
fn queue(rt: HostRuntime) -> Result<(), Fail> {
    let mut memory = vec![in rt.alloc(); 0; 64]?;
    let mut side = open_queue(&mut memory, 0)?;
    assert_eq!(rt; side.set(b"a", b"1"), Ok(()));
    assert_eq!(rt; side.below.block(), b"job-a: 1\r\n".as_slice());
    assert_eq!(rt; side.below.set(b"b", b"2"), Ok(()));
    assert_eq!(rt; side.get(b"b"), None);
    assert_eq!(rt; side.key_count(), 1);
    assert_eq!(rt; side.key_at(0).ok_or("first")?, b"a".as_slice());
    side.unset(b"a");
    assert_eq!(rt; side.below.block(), b"b: 2\r\n".as_slice());
    Ok(())
}
