// The line block.
use block::reader::*;
use block::writer::*;
use carrier::faults::SetFault;
use carrier::traits::*;
use std::alloc::{AllocError, Global};
use std::test::Fail;

fn opens(block: &[u8]) -> bool {
    LineReader::open(block).is_ok()
}

fn shows(side: &impl Extractor, name: &[u8], value: &[u8]) -> bool {
    side.get(name).is_some_and(|shown| shown == value)
}

#[test]
fn malformed(rt: HostRuntime) {
    assert!(rt; opens(b""));
    assert!(rt; opens(b"a: \r\n"));
    assert!(rt; !opens(b"a 1\r\n"));
    assert!(rt; !opens(b"a:1\r\n"));
    assert!(rt; !opens(b": 1\r\n"));
    assert!(rt; !opens(b"a: 1\n"));
    assert!(rt; !opens(b"a: 1\r"));
    assert!(rt; !opens(b"a: 1\rb: 2\r\n"));
    assert!(rt; !opens(b"a: 1\x07\r\n"));
    assert!(rt; !opens(b"a b: 1\r\n"));
    assert!(rt; !opens(b"a: 1\r\n\r\n"));
}

// A block of two lines, cut in every place: only whole lines open.
#[test]
fn cut_in_every_place(rt: HostRuntime) {
    let block = b"ab: 1\r\nc: 23\r\n";
    for n in 0..=14usize {
        assert_eq!(rt; opens(&block[0..n]), n == 0 || n == 7 || n == 14);
    }
}

fn line_of(heap: Global, name: usize, value: usize) -> Result<Vec<u8>, AllocError> {
    let mut line = Vec::new(heap);
    line.extend_from_slice(&vec![in heap; b'n'; name]?)?;
    line.extend_from_slice(b": ")?;
    line.extend_from_slice(&vec![in heap; b'v'; value]?)?;
    line.extend_from_slice(b"\r\n")?;
    Ok(line)
}

#[test]
fn longest_names_and_values(rt: HostRuntime) -> Result<(), Fail> {
    assert!(rt; opens(&line_of(rt.alloc(), 64, 0)?));
    assert!(rt; !opens(&line_of(rt.alloc(), 65, 0)?));
    assert!(rt; opens(&line_of(rt.alloc(), 1, 16384)?));
    assert!(rt; !opens(&line_of(rt.alloc(), 1, 16385)?));
    Ok(())
}

// Four lines of 16,384 bytes are 65,536; one byte more is too much.
#[test]
fn longest_blocks(rt: HostRuntime) -> Result<(), Fail> {
    let mut block = Vec::new(rt.alloc());
    for _ in 0..4u8 {
        block.extend_from_slice(&line_of(rt.alloc(), 4, 16376)?)?;
    }
    assert!(rt; opens(&block));
    let mut longer = line_of(rt.alloc(), 5, 16376)?;
    for _ in 0..3u8 {
        longer.extend_from_slice(&line_of(rt.alloc(), 4, 16376)?)?;
    }
    assert!(rt; !opens(&longer));
    Ok(())
}

#[test]
fn first_line_counts(rt: HostRuntime) -> Result<(), Fail> {
    let side = LineReader::open(b"a: 1\r\nb: 2\r\na: 3\r\n")?;
    assert!(rt; shows(&side, b"a", b"1"));
    assert!(rt; shows(&side, b"b", b"2"));
    assert_eq!(rt; side.get(b"c"), None);
    assert_eq!(rt; side.key_count(), 2);
    assert_eq!(rt; side.key_at(0), Some(b"a".as_slice()));
    assert_eq!(rt; side.key_at(1), Some(b"b".as_slice()));
    assert_eq!(rt; side.key_at(2), None);
    Ok(())
}

#[test]
fn exactly_full(rt: HostRuntime) -> Result<(), Fail> {
    let mut memory = vec![in rt.alloc(); 0; 12]?;
    let mut side = LineBlock::open(&mut memory, 0)?;
    assert_eq!(rt; side.set(b"a", b"1"), Ok(()));
    assert_eq!(rt; side.set(b"b", b"2"), Ok(()));
    assert!(rt; side.takes(b"a", 1) && !side.takes(b"a", 2));
    assert_eq!(rt; side.set(b"a", b"12"), Err(SetFault::Full));
    assert_eq!(rt; side.set(b"c", b""), Err(SetFault::Full));
    assert_eq!(rt; side.set(b"a", b"3"), Ok(()));
    assert_eq!(rt; side.block(), b"b: 2\r\na: 3\r\n".as_slice());
    assert!(rt; opens(side.block()));
    side.unset(b"b");
    assert_eq!(rt; side.block(), b"a: 3\r\n".as_slice());
    Ok(())
}

#[test]
fn start_beyond_memory(rt: HostRuntime) -> Result<(), Fail> {
    let mut memory = vec![in rt.alloc(); 0; 4]?;
    assert!(rt; LineBlock::open(&mut memory, 5).is_err());
    assert!(rt; LineBlock::open(&mut memory, 4).is_err());
    assert!(rt; LineBlock::open(&mut memory, 0).is_ok());
    Ok(())
}

#[test]
fn limit_of_memory(rt: HostRuntime) -> Result<(), Fail> {
    let mut memory = vec![in rt.alloc(); 0; 70000]?;
    let mut side = LineBlock::open(&mut memory, 0)?;
    let value = vec![in rt.alloc(); b'v'; 16376]?;
    assert_eq!(rt; side.set(b"aaaa", &value), Ok(()));
    assert_eq!(rt; side.set(b"bbbb", &value), Ok(()));
    assert_eq!(rt; side.set(b"cccc", &value), Ok(()));
    assert!(rt; side.takes(b"dddd", 16376) && !side.takes(b"ddddd", 16376));
    assert_eq!(rt; side.set(b"dddd", &value), Ok(()));
    assert_eq!(rt; side.block().len(), 65536);
    assert!(rt; !side.takes(b"e", 0));
    Ok(())
}
