// The tag store.
use std::alloc::{AllocError, Global};
use std::test::Fail;
use store::faults::*;
use store::memory::*;

fn store_of(heap: Global, records: usize, bytes: usize) -> Result<Store, AllocError> {
    Ok(Store::new(
        vec![in heap; Span::UNUSED; records]?,
        vec![in heap; 0; bytes]?,
    ))
}

fn has(store: &Store, key: &[u8], value: &[u8]) -> bool {
    store.get(key).is_some_and(|held| held == value)
}

fn stands(store: &Store, at: usize, key: &[u8]) -> bool {
    store.key_at(at).is_some_and(|held| held == key)
}

#[test]
fn exactly_full(rt: HostRuntime) -> Result<(), Fail> {
    let mut store = store_of(rt.alloc(), 2, 10)?;
    assert_eq!(rt; store.put(b"a", b"12345"), Ok(()));
    assert_eq!(rt; store.put(b"b", b"123"), Ok(()));
    assert_eq!(rt; store.put(b"a", b"123456"), Err(StoreFault::Full));
    assert_eq!(rt; store.put(b"c", b""), Err(StoreFault::Full));
    assert_eq!(rt; store.put(b"a", b"1"), Ok(()));
    assert_eq!(rt; store.set_origin(Some(b"1234")), Ok(()));
    assert_eq!(rt; store.set_ot(Some(b"x")), Err(StoreFault::Full));
    store.remove(b"b");
    assert_eq!(rt; store.set_ot(Some(b"x")), Ok(()));
    assert!(rt; has(&store, b"a", b"1") && store.get(b"b").is_none());
    Ok(())
}

#[test]
fn in_byte_order(rt: HostRuntime) -> Result<(), Fail> {
    let mut store = store_of(rt.alloc(), 8, 100)?;
    assert_eq!(rt; store.put(b"_dd.p.b", b"4"), Ok(()));
    assert_eq!(rt; store.put(b"_dd.p.a", b"2"), Ok(()));
    assert_eq!(rt; store.put(b"_dd.p.aa", b"3"), Ok(()));
    assert_eq!(rt; store.put(b"_dd.p.", b"1"), Ok(()));
    assert_eq!(rt; store.put(b"", b""), Ok(()));
    assert_eq!(rt; store.count(), 5);
    assert!(rt; stands(&store, 0, b"") && stands(&store, 1, b"_dd.p."));
    assert!(rt; stands(&store, 2, b"_dd.p.a") && stands(&store, 3, b"_dd.p.aa"));
    assert!(rt; stands(&store, 4, b"_dd.p.b") && store.key_at(5).is_none());
    store.remove(b"");
    store.remove(b"_dd.p.a");
    store.remove(b"_dd.p.b");
    assert_eq!(rt; store.count(), 2);
    assert!(rt; stands(&store, 0, b"_dd.p.") && stands(&store, 1, b"_dd.p.aa"));
    assert!(rt; has(&store, b"_dd.p.aa", b"3"));
    Ok(())
}

#[test]
fn no_memory(rt: HostRuntime) -> Result<(), Fail> {
    let mut store = store_of(rt.alloc(), 0, 0)?;
    assert_eq!(rt; store.put(b"", b""), Err(StoreFault::Full));
    assert_eq!(rt; store.set_origin(Some(b"")), Ok(()));
    assert_eq!(rt; store.set_origin(Some(b"a")), Err(StoreFault::Full));
    assert_eq!(rt; store.put(b"\n", b""), Err(StoreFault::Unlawful));
    Ok(())
}

// 256 records at most, however many are handed in.
#[test]
fn most_records(rt: HostRuntime) -> Result<(), Fail> {
    let mut store = store_of(rt.alloc(), 300, 70000)?;
    for a in 0..16u8 {
        for b in 0..16u8 {
            assert_eq!(rt; store.put(&[b'a' + a, b'a' + b], b""), Ok(()));
        }
    }
    assert_eq!(rt; store.count(), 256);
    assert_eq!(rt; store.put(b"z", b""), Err(StoreFault::Full));
    assert_eq!(rt; store.put(b"aa", b"1"), Ok(()));
    store.clear();
    assert_eq!(rt; store.count(), 0);
    assert_eq!(rt; store.put(b"z", b""), Ok(()));
    Ok(())
}
