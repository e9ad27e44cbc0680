//! The notation of items of every kind. The expected texts are those of docs/ITEMS.md for items of RFC 8949 appendix A, and what
//! is written of the item in memory is the same.
use crate::put_notation;
use cbor_tape::{Entry, whole_tape};
use item_nodes::diag;
use read_items::whole::whole_item;
use std::alloc::{AllocError, Global};

// Whether the item at the front of the bytes has this notation, after what is there before, from its tape and in memory.
fn shows(alloc: Global, bytes: &[u8], text: &[u8]) -> Result<bool, AllocError> {
    if bytes.len() > 512 {
        return Ok(false);
    }
    let mut tape = [Entry { head: 1, next: 1 }; 512];
    let Some(end) = whole_tape(bytes, 32, &mut tape) else {
        return Ok(false);
    };
    let mut line = Vec::from_slice(alloc, b"at 0: ")?;
    line.resize(6 + 12 * end, 0)?;
    let after = put_notation(line.as_mut_slice(), 6, bytes, end, &tape);
    let mut wanted = Vec::from_slice(alloc, b"at 0: ")?;
    wanted.extend_from_slice(text)?;
    let Some((item, _)) = whole_item(alloc, bytes, 32)? else {
        return Ok(false);
    };
    let held = diag(alloc, &item)?;
    Ok(&line.as_slice()[..after] == wanted.as_slice() && held.as_slice() == text)
}

// Whether this holds of all of these items.
fn all_shown(alloc: Global, items: &[(&[u8], &[u8])]) -> Result<bool, AllocError> {
    for (bytes, text) in items {
        if !shows(alloc, bytes, text)? {
            return Ok(false);
        }
    }
    Ok(true)
}

#[test]
fn numbers(rt: HostRuntime) -> Result<(), AllocError> {
    let alloc = rt.alloc();
    let items: [(&[u8], &[u8]); 11] = [
        (b"\x00\x00", b"0"),
        (b"\x17", b"23"),
        (b"\x18\x64", b"100"),
        (b"\x19\x03\xe8", b"1000"),
        (b"\x1a\x00\x0f\x42\x40", b"1000000"),
        (
            b"\x1b\xff\xff\xff\xff\xff\xff\xff\xff",
            b"18446744073709551615",
        ),
        (b"\x1b\x00\x00\x00\x00\x00\x00\x00\x05", b"5"),
        (b"\x20", b"-1"),
        (b"\x39\x03\xe7", b"-1000"),
        (
            b"\x3b\xff\xff\xff\xff\xff\xff\xff\xfe",
            b"-18446744073709551615",
        ),
        (
            b"\x3b\xff\xff\xff\xff\xff\xff\xff\xff",
            b"-18446744073709551616",
        ),
    ];
    assert!(rt; all_shown(alloc, &items)?);
    Ok(())
}

#[test]
fn strings(rt: HostRuntime) -> Result<(), AllocError> {
    let alloc = rt.alloc();
    let items: [(&[u8], &[u8]); 11] = [
        (b"\x40", b"h''"),
        (b"\x44\x01\x02\xfe\xff", b"h'0102feff'"),
        (b"\x58\x02\xab\xcd", b"h'abcd'"),
        (
            b"\x5f\x42\x01\x02\x40\x43\x03\x04\x05\xff",
            b"h'0102030405'",
        ),
        (b"\x5f\xff", b"h''"),
        (b"\x60", b"\"\""),
        (b"\x64IETF", b"\"IETF\""),
        (b"\x62\"\\", b"\"\\\"\\\\\""),
        (b"\x65a\x00\x1f\x7fb", b"\"a\\u0000\\u001f\\u007fb\""),
        (b"\x62\xc3\xbc", b"\"\xc3\xbc\""),
        (b"\x7f\x65strea\x61\n\x64ming\xff", b"\"strea\\u000aming\""),
    ];
    assert!(rt; all_shown(alloc, &items)?);
    Ok(())
}

#[test]
fn numbers_of_each_length(rt: HostRuntime) -> Result<(), AllocError> {
    let alloc = rt.alloc();
    let items: [(&[u8], &[u8]); 9] = [
        (b"\x09", b"9"),
        (b"\x0a", b"10"),
        (b"\x18\x63", b"99"),
        (b"\x19\x03\xe7", b"999"),
        (b"\x19\x27\x0f", b"9999"),
        (b"\x19\x27\x10", b"10000"),
        (b"\x1a\x05\xf5\xe0\xff", b"99999999"),
        (b"\x1a\x05\xf5\xe1\x00", b"100000000"),
        (
            b"\x3b\x8a\xc7\x23\x04\x89\xe7\xff\xff",
            b"-10000000000000000000",
        ),
    ];
    assert!(rt; all_shown(alloc, &items)?);
    Ok(())
}

#[test]
fn strings_of_many_bytes(rt: HostRuntime) -> Result<(), AllocError> {
    let alloc = rt.alloc();
    let items: [(&[u8], &[u8]); 6] = [
        (b"\x43\x09\x0a\xa0", b"h'090aa0'"),
        (
            b"\x48\x00\x11\x22\x33\x44\x55\x66\x77",
            b"h'0011223344556677'",
        ),
        (
            b"\x58\x1f0123456789abcdefghijklmnopqrstu",
            b"h'303132333435363738396162636465666768696a6b6c6d6e6f707172737475'",
        ),
        (b"\x68a plain ", b"\"a plain \""),
        (
            b"\x78\x1b0123456789abcdefghijklmn\"op",
            b"\"0123456789abcdefghijklmn\\\"op\"",
        ),
        (
            b"\x78\x19\\123456789abcdefghijklm\x7fn",
            b"\"\\\\123456789abcdefghijklm\\u007fn\"",
        ),
    ];
    assert!(rt; all_shown(alloc, &items)?);
    Ok(())
}

#[test]
fn simple_values_and_floats(rt: HostRuntime) -> Result<(), AllocError> {
    let alloc = rt.alloc();
    let items: [(&[u8], &[u8]); 10] = [
        (b"\xe0", b"simple(0)"),
        (b"\xf4", b"false"),
        (b"\xf5", b"true"),
        (b"\xf6", b"null"),
        (b"\xf7", b"undefined"),
        (b"\xf8\x20", b"simple(32)"),
        (b"\xf8\xff", b"simple(255)"),
        (b"\xf9\x3c\x00", b"f16'3c00'"),
        (b"\xfa\x47\xc3\x50\x00", b"f32'47c35000'"),
        (
            b"\xfb\x3f\xf1\x99\x99\x99\x99\x99\x9a",
            b"f64'3ff199999999999a'",
        ),
    ];
    assert!(rt; all_shown(alloc, &items)?);
    Ok(())
}

#[test]
fn containers(rt: HostRuntime) -> Result<(), AllocError> {
    let alloc = rt.alloc();
    let items: [(&[u8], &[u8]); 9] = [
        (b"\x80", b"[]"),
        (b"\x83\x01\x82\x02\x03\x82\x04\x05", b"[1, [2, 3], [4, 5]]"),
        (
            b"\x9f\x01\x82\x02\x03\x9f\x04\x05\xff\xff",
            b"[1, [2, 3], [4, 5]]",
        ),
        (b"\xa0", b"{}"),
        (
            b"\xa2\x61a\x01\x61b\x82\x02\x03",
            b"{\"a\": 1, \"b\": [2, 3]}",
        ),
        (
            b"\xbf\x61a\x01\x61b\x9f\x02\x03\xff\xff",
            b"{\"a\": 1, \"b\": [2, 3]}",
        ),
        (b"\xa1\x01\xa1\x02\xc1\x80", b"{1: {2: 1([])}}"),
        (b"\xc1\x1a\x51\x4b\x67\xb0", b"1(1363896240)"),
        (b"\xd8\x20\xc1\x00", b"32(1(0))"),
    ];
    assert!(rt; all_shown(alloc, &items)?);
    Ok(())
}

#[test]
fn room_is_enough_for_the_longest(rt: HostRuntime) -> Result<(), AllocError> {
    let alloc = rt.alloc();
    // 400 times simple(19), of 12 bytes for each of the item's, with what parts them: no item has a longer notation for its bytes
    let mut bytes = Vec::from_slice(alloc, b"\x99\x01\x90")?;
    let mut text = Vec::from_slice(alloc, b"[simple(19)")?;
    bytes.push(0xf3)?;
    for _ in 0..399 {
        bytes.push(0xf3)?;
        text.extend_from_slice(b", simple(19)")?;
    }
    text.push(b']')?;
    assert!(rt; shows(alloc, bytes.as_slice(), text.as_slice())?);
    Ok(())
}
