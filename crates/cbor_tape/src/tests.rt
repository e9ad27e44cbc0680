//! What has a tape, and what is left to other readers. Items with parts, strings in chunks and floats are those of RFC 8949
//! appendix A.
use crate::{Entry, whole_tape};

// An array, [1, [2, 3], [4, 5]], and a map, {"a": 1, "b": [2, 3]}, each place with its offset and the place after it.
const ARRAY: [(u32, u32); 8] = [
    (0, 8),
    (1, 2),
    (2, 5),
    (3, 4),
    (4, 5),
    (5, 8),
    (6, 7),
    (7, 8),
];

const MAP: [(u32, u32); 7] = [(0, 7), (1, 2), (3, 3), (4, 4), (6, 7), (7, 6), (8, 7)];

// A map of 31 keys, each lower than the one before it.
const FALLING: &[u8] =
    b"\xb8\x1f\x26\0\x25\0\x24\0\x23\0\x22\0\x21\0\x20\0\x17\0\x16\0\x15\0\x14\0\x13\0\x12\0\x11\0\x10\0\x0f\0\x0e\0\x0d\0\x0c\0\x0b\0\x0a\0\x09\0\x08\0\x07\0\x06\0\x05\0\x04\0\x03\0\x02\0\x01\0\0\0";

// Whether the item at the front of the bytes ends here and has these entries. The tape has those of an item before.
fn is_taped(bytes: &[u8], depth: u32, end: usize, entries: &[(u32, u32)]) -> bool {
    if bytes.len() > 64 || entries.len() > 64 {
        return false;
    }
    let mut tape = [Entry { head: 1, next: 1 }; 64];
    if whole_tape(bytes, depth, &mut tape) != Some(end) {
        return false;
    }
    for i in 0..entries.len() {
        if tape[i].head != entries[i].0 || tape[i].next != entries[i].1 {
            return false;
        }
    }
    entries.len() == tape[0].next as usize
}

// Whether the item at the front of the bytes has no parts and ends here.
fn is_leaf(bytes: &[u8], end: usize) -> bool {
    is_taped(bytes, 0, end, &[(0, 1)])
}

// Whether nothing is reported for what is at the front of the bytes.
fn is_left(bytes: &[u8], depth: u32) -> bool {
    if bytes.len() > 64 {
        return false;
    }
    let mut tape = [Entry { head: 1, next: 1 }; 64];
    whole_tape(bytes, depth, &mut tape).is_none()
}

#[test]
fn items_without_parts(rt: HostRuntime) {
    assert!(rt; is_leaf(b"\x00\x00", 1));
    assert!(rt; is_leaf(b"\x18\x64", 2));
    assert!(rt; is_leaf(b"\x39\x03\xe7", 3));
    assert!(rt; is_leaf(b"\x1a\x00\x0f\x42\x40", 5));
    assert!(rt; is_leaf(b"\x3b\xff\xff\xff\xff\xff\xff\xff\xff", 9));
    assert!(rt; is_leaf(b"\x44\x01\x02\x03\x04", 5));
    assert!(rt; is_leaf(b"\x62\xc3\xbc", 3));
    assert!(rt; is_leaf(b"\x5f\x42\x01\x02\x43\x03\x04\x05\xff", 9));
    assert!(rt; is_leaf(b"\x7f\x65strea\x64ming\xff", 13));
    assert!(rt; is_leaf(b"\xf6", 1));
    assert!(rt; is_leaf(b"\xf8\xff", 2));
    assert!(rt; is_leaf(b"\xf9\x3c\x00", 3));
    assert!(rt; is_leaf(b"\xfb\x3f\xf1\x99\x99\x99\x99\x99\x9a", 9));
}

#[test]
fn containers(rt: HostRuntime) {
    assert!(rt; is_taped(b"\x80", 1, 1, &[(0, 1)]));
    assert!(rt; is_taped(b"\x83\x01\x82\x02\x03\x82\x04\x05", 2, 8, &ARRAY));
    assert!(rt; is_taped(b"\x9f\x01\x82\x02\x03\x9f\x04\x05\xff\xff", 2, 10, &ARRAY));
    assert!(rt; is_taped(b"\xbf\xff", 1, 2, &[(0, 1)]));
    assert!(rt; is_taped(b"\xa2\x61a\x01\x61b\x82\x02\x03", 2, 9, &MAP));
    assert!(rt; is_taped(b"\xbf\x61a\x01\x61b\x9f\x02\x03\xff\xff", 2, 11, &MAP));
    assert!(rt; !is_left(b"\xa2\x01\x02\x03\x04", 1));
    assert!(rt; !is_left(b"\xa5\x61a\x61A\x61b\x61B\x61c\x61C\x61d\x61D\x61e\x61E", 1));
    assert!(rt; !is_left(b"\x82\x61a\xa1\x61b\x61c", 2));
    assert!(rt; !is_left(b"\xbf\x63Fun\xf5\x63Amt\x21\xff", 1));
    assert!(rt; is_taped(b"\xc1\x1a\x51\x4b\x67\xb0", 1, 6, &[(0, 2), (1, 2)]));
    assert!(rt; is_taped(b"\xd8\x20\xc1\x00", 2, 4, &[(0, 3), (2, 3), (3, 3)]));
}

#[test]
fn keys_that_differ(rt: HostRuntime) {
    assert!(rt; !is_left(b"\xa2\x01\x00\x20\x00", 1));
    assert!(rt; !is_left(b"\xa2\x02\x00\x01\x00", 1));
    assert!(rt; !is_left(b"\xa2\x61b\x80\x61a\x00", 2));
    assert!(rt; !is_left(b"\xa2\x41a\x00\x61a\x00", 1));
    assert!(rt;
        !is_left(
            b"\xa9\x08\0\x07\0\x06\0\x05\0\x04\0\x03\0\x02\0\x01\0\0\0",
            1
        )
    );
    // keys that are put in order: integers and strings, of which the last is lower than nine others
    assert!(rt;
        !is_left(
            b"\xaa\x09\0\x08\0\x07\0\x06\0\x05\0\x04\0\x03\0\x02\0\x01\0\0\0",
            1
        )
    );
    assert!(rt;
        !is_left(
            b"\xab\x61b\0\x61a\0\x41a\0\x20\0\x06\0\x05\0\x04\0\x03\0\x02\0\x01\0\0\0",
            1
        )
    );
}

#[test]
fn keys_of_every_kind(rt: HostRuntime) {
    // a key alone, in order, and lower than the one before it
    assert!(rt; !is_left(b"\xa1\xf9\x3e\x00\x00", 1));
    assert!(rt; !is_left(b"\xa2\x61a\x00\xf4\x00", 1));
    assert!(rt; !is_left(b"\xa2\xf6\x00\x01\x00", 1));
    assert!(rt; !is_left(b"\xa2\xf8\xff\x00\xf8\x20\x00", 1));
    // one number in floats of each width, whose bits or widths differ
    assert!(rt;
        !is_left(
            b"\xa3\xf9\x3c\x00\x00\xfa\x3f\x80\x00\x00\x00\xfb\x3f\xf0\0\0\0\0\0\0\x00",
            1
        )
    );
    assert!(rt; !is_left(b"\xa2\xf9\x00\x00\x00\xf9\x80\x00\x00", 1));
    // strings in chunks, of one length, cut at other places
    assert!(rt; !is_left(b"\xa2\x7f\x61a\x62bc\xff\x00\x7f\x62ab\x61d\xff\x00", 1));
    assert!(rt; !is_left(b"\xa2\x63abd\x00\x7f\x60\x62ab\x60\x61c\x60\xff\x00", 1));
    assert!(rt; !is_left(b"\xa2\x5f\x41a\xff\x00\x7f\x61a\xff\x00", 1));
    assert!(rt; !is_left(b"\xa2\x5f\xff\x00\x5f\x41a\xff\x00", 1));
    assert!(rt;
        !is_left(
            b"\xa2\x5f\x40\x40\x40\x40\x40\x40\x40\x40\x40\x40\x40\x40\x40\x40\x40\xff\x00\x41a\x00",
            1
        )
    );
    // one container among others, and several of other kinds
    assert!(rt; !is_left(b"\xa3\x80\x00\x01\x00\x61a\x00", 2));
    assert!(rt; !is_left(b"\xa3\xa0\x00\x80\x00\xc1\x00\x00", 2));
    assert!(rt; !is_left(b"\xa2\x9f\x01\xff\x00\xbf\xff\x00", 2));
    // arrays, maps and tags that differ in their first numbers, or in what they hold
    assert!(rt; !is_left(b"\xa2\x82\x01\x02\x00\x82\x01\x03\x00", 2));
    assert!(rt; !is_left(b"\xa2\x82\x61a\x81\x01\x00\x98\x02\x61a\x81\x18\x20\x00", 3));
    assert!(rt; !is_left(b"\xa2\x81\x82\xa0\x01\x00\x81\x82\x80\x01\x00", 4));
    assert!(rt; !is_left(b"\xa2\xa1\x01\x02\x00\xa2\x01\x02\x03\x04\x00", 2));
    assert!(rt; !is_left(b"\xa2\xc1\x01\x00\xc1\x02\x00", 2));
    assert!(rt; !is_left(b"\xa2\xd8\x20\x61a\x00\xc1\x61a\x00", 2));
}

#[test]
fn keys_that_are_the_same(rt: HostRuntime) {
    assert!(rt; is_left(b"\xa2\xf9\x3c\x00\x00\xf9\x3c\x00\x00", 1));
    assert!(rt; is_left(b"\xa2\xfa\x3f\x80\x00\x00\x00\xfa\x3f\x80\x00\x00\x00", 1));
    assert!(rt; is_left(b"\xa3\xf4\x00\x01\x00\xf4\x00", 1));
    assert!(rt; is_left(b"\xa2\x7f\x61a\x62bc\xff\x00\x63abc\x00", 1));
    assert!(rt; is_left(b"\xa2\x5f\x41a\x42bc\xff\x00\x5f\x40\x42ab\x41c\xff\x00", 1));
    assert!(rt; is_left(b"\xa2\x5f\xff\x00\x40\x00", 1));
    assert!(rt; is_left(b"\xa2\x82\x01\x61a\x00\x98\x02\x18\x01\x7f\x61a\xff\x00", 2));
    assert!(rt; is_left(b"\xa3\xc1\x80\x00\x01\x00\xd8\x01\x80\x00", 3));
    assert!(rt; is_left(b"\xa2\xa2\x01\x00\x02\x00\x00\xa2\x02\x00\x01\x00\x00", 2));
}

// Keys that differ, of which this is not told.
#[test]
fn keys_not_told_apart(rt: HostRuntime) {
    assert!(rt; is_left(b"\xa2\xa1\x01\x00\x00\xa1\x02\x00\x00", 2));
    assert!(rt; is_left(b"\xa2\x82\xa0\x01\x00\x82\xa0\x02\x00", 3));
    assert!(rt; is_left(b"\xa2\x9f\x01\xff\x00\x81\x02\x00", 2));
    assert!(rt;
        is_left(
            b"\xa2\x5f\x40\x40\x40\x40\x40\x40\x40\x40\x40\x40\x40\x40\x40\x40\x40\x40\xff\x00\x41a\x00",
            1
        )
    );
}

#[test]
fn what_is_left(rt: HostRuntime) {
    // keys that are the same, in other widths too
    assert!(rt; is_left(b"\xa2\x01\x00\x01\x00", 1));
    assert!(rt; is_left(b"\xa2\x01\x00\x18\x01\x00", 1));
    assert!(rt; is_left(b"\xa3\x61a\x00\x20\x00\x78\x01a\x00", 1));
    assert!(rt; is_left(b"\x81\xbf\x41a\x00\x58\x01a\x00\xff", 2));
    assert!(rt;
        is_left(
            b"\xab\x09\0\x08\0\x07\0\x06\0\x05\0\x04\0\x03\0\x02\0\x01\0\0\0\x18\x05\0",
            1
        )
    );
    // falling keys for which there is no room after
    assert!(rt; is_left(FALLING, 1));
    // what is cut, or no item, or no text
    assert!(rt; is_left(b"", 9));
    assert!(rt; is_left(b"\x18", 9));
    assert!(rt; is_left(b"\x62\xc3", 9));
    assert!(rt; is_left(b"\x9b\xff\xff\xff\xff\xff\xff\xff\xff\x00", 9));
    assert!(rt; is_left(b"\xbf\x00\xff", 9));
    assert!(rt; is_left(b"\x1c", 9));
    assert!(rt; is_left(b"\xf8\x18", 9));
    assert!(rt; is_left(b"\x5f\x61a\xff", 9));
    assert!(rt; is_left(b"\x61\xff", 9));
    assert!(rt; is_left(b"\x7f\x61\xc3\x61\xbc\xff", 9));
    // one container too many
    assert!(rt; is_left(b"\x81\x80", 1));
    assert!(rt; is_left(b"\xc1\xc1\x00", 1));
    assert!(rt; is_left(b"\xa1\x00\x80", 1));
}
