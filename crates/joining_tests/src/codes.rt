//! Codes from outside: RFC 4231 has those of a key, and Python's `hmac` and `hashlib` gave the others.

use datagram_tags::{KeyedEnd, Side, TagBytes, TagFault};
use keyed_digest::keyed_digest;
use protocol_number::{Protocol, protocol_number};
use quantised_fields::{FieldSpec, Kind, KindTable};
use std::test::Fail;

// Test case 1.
const SHORT: [u8; 32] = [
    0xb0, 0x34, 0x4c, 0x61, 0xd8, 0xdb, 0x38, 0x53, 0x5c, 0xa8, 0xaf, 0xce, 0xaf, 0x0b, 0xf1, 0x2b,
    0x88, 0x1d, 0xc2, 0x00, 0xc9, 0x83, 0x3d, 0xa7, 0x26, 0xe9, 0x37, 0x6c, 0x2e, 0x32, 0xcf, 0xf7,
];

// Test case 7, whose key and text are longer than a block.
const LONG: [u8; 32] = [
    0x9b, 0x09, 0xff, 0xa7, 0x1b, 0x94, 0x2f, 0xcb, 0x27, 0x63, 0x5f, 0xbc, 0xd5, 0xb0, 0xe9, 0x44,
    0xbf, 0xdc, 0x63, 0x64, 0x4f, 0x07, 0x13, 0x93, 0x8a, 0x7f, 0x51, 0x53, 0x5c, 0x3a, 0x35, 0xe2,
];

const LONG_TEXT: &[u8] =
    b"This is a test using a larger than block-size key and a larger than block-size data. The key needs to be hashed before being used by the HMAC algorithm.";

// Of the server's number 258 with the bytes 7 and 9, under a key of ones.
const TAG: [u8; 16] = [
    0x04, 0x3c, 0x82, 0x79, 0xd2, 0x28, 0x30, 0x52, 0xa4, 0x77, 0xac, 0x0d, 0x8e, 0xba, 0x37, 0x7f,
];

// Of version 3, size 600, life 1,000,000 and moves of 22 bits with two kinds and the word "share 1".
const PROTOCOL: [u8; 32] = [
    0x0f, 0x28, 0x82, 0xc5, 0xde, 0x0a, 0xbc, 0xfa, 0x3e, 0xfd, 0x07, 0x4b, 0x61, 0x95, 0x87, 0x25,
    0x0b, 0xa4, 0x81, 0xaa, 0xc8, 0x11, 0xc0, 0x1a, 0xe2, 0xb1, 0x56, 0xbd, 0xeb, 0xaa, 0x9e, 0xd0,
];

#[test]
fn digests_are_the_published_ones(rt: HostRuntime) {
    assert!(rt; keyed_digest(&[0x0b; 20], b"Hi There", b"") == SHORT);
    assert!(rt; keyed_digest(&[0x0b; 20], b"Hi ", b"There") == SHORT);
    assert!(rt; keyed_digest(&[0xaa; 131], LONG_TEXT, b"") == LONG);
}

#[test]
fn tag_stands_behind_and_any_other_is_refused(rt: HostRuntime) {
    let server = KeyedEnd::new([1; 32], TagBytes::Sixteen, Side::Server);
    let mut client = KeyedEnd::new([1; 32], TagBytes::Sixteen, Side::Client);
    let mut place = [7; 20];
    place[1] = 9;
    let count = server.append_tag(258, &mut place, 2);
    assert!(rt; count == 18);
    assert!(rt; place[2..18] == TAG[..]);
    assert!(rt; client.verify(258, &place[..18]) == Ok(2));
    // another number, a byte less behind, hardly any bytes, and a byte less before
    assert!(rt; client.verify(259, &place[..18]) == Err(TagFault::WrongTag));
    assert!(rt; client.verify(258, &place[..17]) == Err(TagFault::WrongTag));
    assert!(rt; client.verify(258, &place[..15]) == Err(TagFault::TooShort));
    assert!(rt; client.verify(258, &place[1..18]) == Err(TagFault::WrongTag));
    assert!(rt; client.refused() == 4);
}

#[test]
fn reflected_datagram_is_refused(rt: HostRuntime) {
    let mut server = KeyedEnd::new([1; 32], TagBytes::Eight, Side::Server);
    let mut place = [7; 10];
    let count = server.append_tag(0, &mut place, 2);
    assert!(rt; count == 10);
    assert!(rt; server.verify(0, &place) == Err(TagFault::WrongTag));
}

fn field(lo: i64, hi: i64, bits: u32) -> FieldSpec {
    FieldSpec { lo, hi, bits }
}

#[test]
fn protocol_number_is_that_of_the_bytes(rt: HostRuntime) -> Result<(), Fail> {
    let mut first = Kind::default();
    first.weight = 3;
    first.fields.push(field(0, 258, 9));
    first.fields.push(field(-5, 5, 4));
    let mut second = Kind::default();
    second.weight = 8;
    second.always = true;
    second.fields.push(field(-32_768, 32_767, 16));
    let kinds = KindTable::new(&[first, second])?;
    let protocol = Protocol {
        version: 3,
        size: 600,
        life: 1_000_000,
        move_bits: 22,
    };
    assert!(rt; protocol_number(protocol, &kinds, b"share 1") == PROTOCOL);
    assert!(rt; protocol_number(protocol, &kinds, b"share 2") != PROTOCOL);
    Ok(())
}
