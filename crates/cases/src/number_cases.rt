// Numbers as text, at their limits and one past.
use number::read::*;
use number::write::*;
use trace::mechanism::*;
use trace::priority::*;

#[test]
fn numbers_of_64_bits(rt: HostRuntime) {
    assert_eq!(rt;
        read_u64(b"18446744073709551615"),
        Some(18446744073709551615)
    );
    assert_eq!(rt; read_u64(b"18446744073709551616"), None);
    assert_eq!(rt; read_u64(b"99999999999999999999999"), None);
    assert_eq!(rt; read_u64(b""), None);
    assert_eq!(rt; read_u64(b"+"), None);
    assert_eq!(rt; read_u64(b"+007"), Some(7));
    assert_eq!(rt; read_u64(b"-0"), None);
    assert_eq!(rt; read_u64(b"1 "), None);
    assert_eq!(rt; decimal_u64(0).text(), b"0".as_slice());
    assert_eq!(rt;
        decimal_u64(18446744073709551615).text(),
        b"18446744073709551615".as_slice()
    );
}

#[test]
fn small_numbers(rt: HostRuntime) {
    assert_eq!(rt; read_i8(b"-128"), Some(-128));
    assert_eq!(rt; read_i8(b"-129"), None);
    assert_eq!(rt; read_i8(b"127"), Some(127));
    assert_eq!(rt; read_i8(b"128"), None);
    assert_eq!(rt; read_i8(b"-0"), Some(0));
    assert_eq!(rt; read_i8(b"+-1"), None);
    assert_eq!(rt; read_i8(b"-"), None);
    assert_eq!(rt; decimal_i8(-128).text(), b"-128".as_slice());
    assert_eq!(rt; decimal_i8(127).text(), b"127".as_slice());
}

// Every small number is written and read back.
#[test]
fn small_numbers_there_and_back(rt: HostRuntime) {
    for n in -128..=127i8 {
        assert_eq!(rt; read_i8(decimal_i8(n).text()), Some(n));
    }
}

// An integer of any type is written, also one that no reader takes.
#[test]
fn integers_of_any_type(rt: HostRuntime) {
    assert_eq!(rt; decimal_text(0u64).as_slice(), b"0".as_slice());
    assert_eq!(rt;
        decimal_text(18446744073709551615u64).as_slice(),
        b"18446744073709551615".as_slice()
    );
    assert_eq!(rt; decimal_text(-128i8).as_slice(), b"-128".as_slice());
    assert_eq!(rt; decimal_text(127i8).as_slice(), b"127".as_slice());
    assert_eq!(rt;
        decimal_text(18446744073709551616u128).as_slice(),
        b"18446744073709551616".as_slice()
    );
    assert_eq!(rt;
        decimal_text(u128::MAX).as_slice(),
        b"340282366920938463463374607431768211455".as_slice()
    );
    assert_eq!(rt;
        decimal_text(i128::MIN).as_slice(),
        b"-170141183460469231731687303715884105728".as_slice()
    );
}

#[test]
fn integers_of_any_type_there_and_back(rt: HostRuntime) {
    for n in -128..=127i8 {
        assert_eq!(rt; read_i8(decimal_text(n).as_slice()), Some(n));
    }
}

#[test]
fn mechanisms(rt: HostRuntime) {
    assert_eq!(rt; read_mechanism(b"-0"), Some(0));
    assert_eq!(rt; read_mechanism(b"-255"), Some(255));
    assert_eq!(rt; read_mechanism(b"-256"), None);
    assert_eq!(rt; read_mechanism(b"-007"), Some(7));
    assert_eq!(rt; read_mechanism(b"3"), None);
    assert_eq!(rt; read_mechanism(b"-+3"), None);
    assert_eq!(rt; read_mechanism(b"-"), None);
    assert_eq!(rt; mechanism_text(0).text(), b"-0".as_slice());
    assert_eq!(rt;
        SamplingMechanism { value: 4 }.text().text(),
        b"-4".as_slice()
    );
}

#[test]
fn hexadecimal_numbers(rt: HostRuntime) {
    assert_eq!(rt;
        read_hex(b"ffffffffffffffff", 16),
        Some(18446744073709551615)
    );
    assert_eq!(rt; read_hex(b"00000000000000b7", 16), Some(183));
    assert_eq!(rt; read_hex(b"0000000000000b7", 16), None);
    assert_eq!(rt; read_hex(b"00000000000000B7", 16), None);
    assert_eq!(rt; read_hex(b"ff", 2), Some(255));
    assert_eq!(rt; read_hex(b"f", 2), None);
    assert_eq!(rt; read_hex(b"8", 1), Some(8));
    assert_eq!(rt; read_hex(b"", 0), None);
    assert_eq!(rt; hex_text::<16>(183), *b"00000000000000b7");
    assert_eq!(rt; hex_text::<2>(10), *b"0a");
}

#[test]
fn tids(rt: HostRuntime) {
    assert_eq!(rt; read_tid(b"+00000000000000A"), Some(10));
    assert_eq!(rt; read_tid(b"ABCDEF0123456789"), Some(0xabcdef0123456789));
    assert_eq!(rt; read_tid(b"000000000000001"), None);
    assert_eq!(rt; read_tid(b"-000000000000001"), None);
    assert_eq!(rt; read_tid(b"00000000000000001"), None);
}

#[test]
fn constants(rt: HostRuntime) {
    assert_eq!(rt; AUTO_REJECT.value, 0);
    assert_eq!(rt; AUTO_KEEP.value, 1);
    assert_eq!(rt; USER_KEEP.value, 2);
    assert_eq!(rt; DEFAULT.value, 0);
    assert_eq!(rt; SAMPLING_DECISION_MAKER_TAG_KEY, b"_dd.p.dm".as_slice());
}

#[test]
fn priorities(rt: HostRuntime) {
    assert!(rt; !is_kept(None));
    assert!(rt; !is_kept(SamplingPriority::from_text(b"-1")));
    assert!(rt; !is_kept(SamplingPriority::from_text(b"0")));
    assert!(rt; is_kept(SamplingPriority::from_text(b"1")));
    assert_eq!(rt;
        SamplingPriority { value: -1 }.text().text(),
        b"-1".as_slice()
    );
}
