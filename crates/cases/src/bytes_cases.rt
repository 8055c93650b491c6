// Every byte value, against the rules of the sets written out once more.
use byte_classes::sets::*;

fn is_visible(b: u8) -> bool {
    b >= 0x21 && b <= 0x7e
}

fn is_alnum(b: u8) -> bool {
    b.is_ascii_lowercase() || b.is_ascii_digit()
}

#[test]
fn text_sets(rt: HostRuntime) {
    for b in 0..=255u8 {
        assert_eq!(rt; Text::test(b), b == 9 || b == 32 || is_visible(b));
        assert_eq!(rt; Blank::test(b), b == 9 || b == 32);
        assert_eq!(rt; Space::test(b), b == 32);
        assert_eq!(rt; Name::test(b), is_visible(b) && b != b':');
        assert_eq!(rt; Equals::test(b), b == b'=');
        assert_eq!(rt; Tilde::test(b), b == b'~');
    }
}

#[test]
fn digit_sets(rt: HostRuntime) {
    for b in 0..=255u8 {
        assert_eq!(rt; Digit::test(b), b.is_ascii_digit());
        assert_eq!(rt;
            Hex::test(b),
            b.is_ascii_hexdigit() && !b.is_ascii_uppercase()
        );
        assert_eq!(rt; AnyHex::test(b), b.is_ascii_hexdigit());
        assert_eq!(rt; LetterOrDigit::test(b), is_alnum(b));
    }
}

#[test]
fn tracestate_sets(rt: HostRuntime) {
    for b in 0..=255u8 {
        let mark = b == b'_' || b == b'-' || b == b'*' || b == b'/';
        assert_eq!(rt; TracestateKey::test(b), is_alnum(b) || mark);
        let printable = b == 32 || is_visible(b);
        assert_eq!(rt;
            TracestateValue::test(b),
            printable && b != b',' && b != b'='
        );
    }
}

#[test]
fn tag_sets(rt: HostRuntime) {
    for b in 0..=255u8 {
        let printable = b == 32 || is_visible(b);
        let marked = b == b',' || b == b'=' || b == b':' || b == b';';
        assert_eq!(rt; TagKeyReplaced::test(b), !is_visible(b) || marked);
        assert_eq!(rt;
            TagValueReplaced::test(b),
            !printable || b == b',' || b == b';' || b == b'~'
        );
        assert_eq!(rt;
            DatadogKey::test(b),
            is_visible(b) && b != b',' && b != b'='
        );
        assert_eq!(rt; DatadogValue::test(b), printable && b != b',');
    }
}
