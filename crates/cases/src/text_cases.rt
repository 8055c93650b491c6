// Texts: empty, one byte, at the limits.
use byte_classes::sets::*;
use std::test::Fail;
use text::append::append;
use text::check::is_lawful;
use text::inline::{Inline, NoRoom};
use text::pieces::Pieces;
use text::replace::replace_chars;
use text::split::split_once;
use text::take::{strip_prefix, take_char, take_n_hex_chars};
use text::trim::{trim, trim_end};

#[test]
fn lawful_text(rt: HostRuntime) {
    assert!(rt; is_lawful(b""));
    assert!(rt; is_lawful(b"\t ~"));
    assert!(rt; !is_lawful(b"a\n"));
    assert!(rt; !is_lawful(b"\x7f"));
    assert!(rt; !is_lawful(b"\x80"));
}

#[test]
fn longest_text(rt: HostRuntime) -> Result<(), Fail> {
    let longest = vec![in rt.alloc(); b'a'; 16384]?;
    assert!(rt; is_lawful(&longest));
    let longer = vec![in rt.alloc(); b'a'; 16385]?;
    assert!(rt; !is_lawful(&longer));
    Ok(())
}

#[test]
fn blanks_off(rt: HostRuntime) {
    assert!(rt; trim(b"") == b"".as_slice());
    assert!(rt; trim(b" \t ") == b"".as_slice());
    assert!(rt; trim(b"\t a b \t") == b"a b".as_slice());
    assert!(rt; trim(b"a") == b"a".as_slice());
    assert!(rt; trim_end::<Space>(b" a\t ") == b" a\t".as_slice());
}

#[test]
fn parts_at_a_byte(rt: HostRuntime) -> Result<(), Fail> {
    assert_eq!(rt; split_once(b"", b'='), None);
    assert_eq!(rt; split_once(b"ab", b'='), None);
    let (key, value) = split_once(b"a=b=c", b'=').ok_or("parts")?;
    assert!(rt; key == b"a".as_slice() && value == b"b=c".as_slice());
    let (key, value) = split_once(b"=", b'=').ok_or("parts")?;
    assert!(rt; key.is_empty() && value.is_empty());
    Ok(())
}

#[test]
fn pieces_between_commas(rt: HostRuntime) -> Result<(), Fail> {
    let mut pieces = Pieces::new(b",a=1 , b=2,", b',');
    assert!(rt; pieces.next().ok_or("first")? == b"".as_slice());
    assert!(rt; pieces.next().ok_or("second")? == b"a=1 ".as_slice());
    assert!(rt; pieces.next().ok_or("third")? == b" b=2".as_slice());
    assert!(rt; pieces.next().ok_or("fourth")? == b"".as_slice());
    assert_eq!(rt; pieces.next(), None);
    let mut none = Pieces::new(b"", b',');
    assert!(rt; none.next().ok_or("one")? == b"".as_slice());
    assert_eq!(rt; none.next(), None);
    Ok(())
}

#[test]
fn taken_from_the_front(rt: HostRuntime) -> Result<(), Fail> {
    assert_eq!(rt; take_char(b"", b'-'), None);
    assert_eq!(rt; take_char(b"a-", b'-'), None);
    assert!(rt; take_char(b"-", b'-').ok_or("dash")? == b"".as_slice());
    assert_eq!(rt; take_n_hex_chars(b"0", 2), None);
    assert_eq!(rt; take_n_hex_chars(b"0A-", 2), None);
    let (digits, rest) = take_n_hex_chars(b"0a-", 2).ok_or("digits")?;
    assert!(rt; digits == b"0a".as_slice() && rest == b"-".as_slice());
    assert!(rt; strip_prefix(b"_dd.p.", b"_dd.p.").ok_or("whole")? == b"".as_slice());
    assert_eq!(rt; strip_prefix(b"_dd.p", b"_dd.p."), None);
    Ok(())
}

#[test]
fn bytes_replaced(rt: HostRuntime) {
    let mut origin = *b"a=b~c,";
    replace_chars::<TagValueReplaced>(&mut origin, b'_');
    replace_chars::<Equals>(&mut origin, b'~');
    assert!(rt; &origin == b"a~b_c_");
    replace_chars::<Tilde>(&mut origin, b'=');
    assert!(rt; &origin == b"a=b_c_");
}

#[test]
fn appended(rt: HostRuntime) {
    let mut buf = [0u8; 4];
    assert_eq!(rt; append(&mut buf, 0, b"abc"), 3);
    assert_eq!(rt; append(&mut buf, 3, b"de"), 4);
    assert!(rt; &buf == b"abcd");
    assert_eq!(rt; append(&mut buf, 9, b"x"), 9);
    assert!(rt; &buf == b"abcd");
}

#[test]
fn short_texts(rt: HostRuntime) {
    let mut name = Inline::<4>::new();
    assert_eq!(rt; name.push(b"abc"), Ok(()));
    assert_eq!(rt; name.push(b"de"), Err(NoRoom));
    assert_eq!(rt; name.push(b"d"), Ok(()));
    assert!(rt; name.as_slice() == b"abcd".as_slice());
    assert_eq!(rt; name.push(b""), Ok(()));
    name.clear();
    assert!(rt; name.as_slice().is_empty());
}
