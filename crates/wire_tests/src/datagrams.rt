//! Of `wire_format`: whole datagrams with known bytes, written and read, and those that are refused, each with its reason.
use bit_stream::{BitWriter, bits_of_move};
use std::alloc::{AllocError, Global};
use tn_types::{Move, PacketKind, Payload};
use wire_format::{
    BitsCause, BitsFault, BlockList, ClientBody, ClientPacket, EventItem, EventList, GhostItem,
    GhostList, Header, MoveList, ServerBody, ServerPacket, Wire, client_bits, decode_client,
    decode_client_into, decode_server, encode_client, encode_server, server_bits,
};
use world_rules::match_kinds;

/// A first packet of the server with the guaranteed event 0 of the bytes "hi".
const FIRST_EVENT: [u8; 22] = [
    0x40, 0, 0, 0, 0, 0, 0, 0, 0, 0, 0, 0, 0, 0, 8, 1, 0, 0, 4, 0x5a, 0x1a, 0,
];

/// Creates slot 0: a player with datablock 0 at (1000, 1000), all else at its greatest or least.
const CREATE: [u8; 25] = [
    0x80, 0, 0, 0x40, 0, 0, 0x40, 0, 0, 0, 0, 0, 0, 0, 0, 1, 0, 1, 0x80, 0x3e, 0x80, 0x3e, 0xf0,
    0xff, 0,
];

/// Updates field 0 of slot 0, a clock: it becomes 1.
const UPDATE: [u8; 22] = [
    0xc0, 0, 0, 0x80, 0, 0, 0xc0, 0, 0, 0, 0, 0, 0, 0, 0, 1, 0, 0x56, 2, 0, 0, 0,
];

/// A packet of a client that acknowledges packets 1, 3 and 4 of the server.
const ACKNOWLEDGES: [u8; 16] = [0xc0, 0, 0, 0, 1, 0, 0x40, 3, 0, 0, 0, 0, 0, 0, 0, 0];

/// A first packet of a client with move 7 (1, 0, no fire, no use), move 8 (-8, 7, fire, use) and the
/// event "a" that is not guaranteed.
const MOVES: [u8; 20] = [
    0x40, 0, 0, 0, 0, 0, 0, 0, 0, 0, 0xc0, 1, 0, 0x80, 0x90, 8, 0xfc, 0x41, 8, 3,
];

/// A first packet of a client of version 3, whose moves have 40 bits: move 7, which is 0x123456789a, and move 8, which is
/// 0xfedcba9876.
const WIDE_MOVES: [u8; 26] = [
    0x40, 0, 0, 0, 0, 0, 0, 0, 0, 0, 0xc0, 1, 0, 0x80, 0xa0, 0x89, 0x67, 0x45, 0x23, 0x61, 0x87,
    0xa9, 0xcb, 0xed, 0x0f, 0,
];

/// Version 3 with moves of 40 bits.
const FORTY: Wire = Wire {
    version: 3,
    move_bits: 40,
};

const FIRST: Header = Header {
    client: 0,
    seq: 1,
    horizon: 0,
    mask: 0,
};

/// The header of a packet with one event, and the event's number and bytes.
pub(crate) fn only_event(packet: &ServerPacket) -> Option<(Header, Option<u32>, &[u8])> {
    match packet {
        ServerPacket::Body(body) => match body.events.as_slice() {
            [event] => Some((body.head, event.number, event.payload.as_slice())),
            _ => None,
        },
        ServerPacket::Ping(_) => None,
    }
}

#[test]
fn first_event(rt: HostRuntime) {
    let kinds = match_kinds();
    let mut events = EventList::new();
    events.push(EventItem {
        number: Some(0),
        payload: Payload::from_slice(b"hi").expect(&rt, "too long"),
    });
    let packet = ServerPacket::Body(ServerBody {
        head: FIRST,
        accepted: 0,
        control: None,
        blocks: BlockList::new(),
        events,
        ghosts: GhostList::new(),
    });
    assert!(rt; server_bits(&packet, &kinds) == 174);
    let mut out = BitWriter::new(128);
    encode_server(&packet, &kinds, &mut out);
    assert!(rt; out.finish().as_slice() == FIRST_EVENT.as_slice());
}

#[test]
fn first_event_is_read(rt: HostRuntime) {
    let packet = decode_server(&FIRST_EVENT, &match_kinds()).expect(&rt, "refused");
    assert!(rt; only_event(&packet) == Some((FIRST, Some(0), b"hi".as_slice())));
}

/// A packet of a client with two moves and an event, as known bytes.
#[test]
fn moves_are_written(rt: HostRuntime) {
    let mut moves = MoveList::new();
    moves.push(bits_of_move(&Move {
        dx: 1,
        dy: 0,
        fire: false,
        act: false,
    }));
    moves.push(bits_of_move(&Move {
        dx: -8,
        dy: 7,
        fire: true,
        act: true,
    }));
    let mut events = EventList::new();
    events.push(EventItem {
        number: None,
        payload: Payload::from_slice(b"a").expect(&rt, "too long"),
    });
    let packet = ClientPacket::Body(ClientBody {
        head: FIRST,
        first: 7,
        moves,
        events,
    });
    assert!(rt; client_bits(&packet) == 155);
    let mut out = BitWriter::new(128);
    encode_client(&packet, &mut out);
    assert!(rt; out.finish().as_slice() == MOVES.as_slice());
}

/// The header of a client's packet.
fn head_of(packet: &ClientPacket) -> Option<Header> {
    match packet {
        ClientPacket::Body(body) => Some(body.head),
        ClientPacket::Ping(_) => None,
    }
}

#[test]
fn acknowledgement_is_read(rt: HostRuntime) {
    let packet = decode_client(&ACKNOWLEDGES).expect(&rt, "refused");
    let head = Header {
        client: 0,
        seq: 3,
        horizon: 4,
        mask: 0b1101,
    };
    assert!(rt; head_of(&packet) == Some(head));
}

/// The bits of its moves.
fn move_bits(body: &ClientBody, place: usize) -> Option<u64> {
    match body.moves.get(place) {
        Some(m) => Some(m.bits),
        None => None,
    }
}

/// Moves of version 3 have the bits that the terms count, the lowest first; a datagram that is cut inside a move is short at the part
/// that is cut: the lowest 32 bits are one, the further bits another.
#[test]
fn wide_moves_are_read(rt: HostRuntime) {
    let mut body = ClientBody::new();
    assert!(rt; decode_client_into(&WIDE_MOVES, FORTY, &mut body) == Ok(PacketKind::Body));
    assert!(rt; body.first == 7 && body.moves.len() == 2);
    assert!(rt; move_bits(&body, 1) == Some(0xfe_dcba_9876));
    let cuts = [(18, 116), (19, 148), (23, 156), (24, 188), (25, 196)];
    for (len, place) in cuts {
        let (cut, _) = WIDE_MOVES.as_slice().split_at(len);
        let cause = BitsCause::Short;
        assert!(rt; decode_client_into(cut, FORTY, &mut body) == Err(BitsFault { place, cause }));
    }
}

/// A body that had a packet with moves and an event is filled anew.
#[test]
fn body_is_filled_again(rt: HostRuntime) {
    let mut body = ClientBody::new();
    let wire = Wire::old(1);
    assert!(rt; decode_client_into(&MOVES, wire, &mut body) == Ok(PacketKind::Body));
    assert!(rt; body.first == 7 && body.moves.len() == 2 && body.events.len() == 1);
    assert!(rt; decode_client_into(&ACKNOWLEDGES, wire, &mut body) == Ok(PacketKind::Body));
    assert!(rt; body.head.seq == 3 && body.moves.len() == 0 && body.events.len() == 0);
}

/// The op, the slot, the kind, the block or mask, and the levels of a ghost.
fn told(item: &GhostItem) -> (u8, u8, u8, u32, &[u32]) {
    match item {
        GhostItem::Kill { slot } => (0, *slot, 0, 0, &[]),
        GhostItem::Create {
            slot,
            kind,
            block,
            levels,
        } => (1, *slot, *kind, u32::from(*block), levels.as_slice()),
        GhostItem::Update {
            slot,
            kind,
            mask,
            levels,
        } => (2, *slot, *kind, *mask, levels.as_slice()),
    }
}

/// The only ghost of a packet.
pub(crate) fn only_ghost(packet: &ServerPacket) -> Option<(u8, u8, u8, u32, &[u32])> {
    match packet {
        ServerPacket::Body(body) => match body.ghosts.as_slice() {
            [item] => Some(told(item)),
            _ => None,
        },
        ServerPacket::Ping(_) => None,
    }
}

#[test]
fn ghosts_are_read(rt: HostRuntime) {
    let kinds = match_kinds();
    let cases: [(&[u8], u32, (u8, u8, u8, u32, &[u32])); 2] = [
        (&CREATE, 200, (1, 0, 0, 0, &[1000, 1000, 127, 31, 0])),
        (&UPDATE, 169, (2, 0, 5, 1, &[1])),
    ];
    for (bytes, bits, item) in cases {
        assert!(rt; bytes.len() <= 32);
        let packet = decode_server(bytes, &kinds).expect(&rt, "refused");
        assert!(rt; server_bits(&packet, &kinds) == bits && only_ghost(&packet) == Some(item));
    }
}

/// The client's: no byte, a cut number, kind 2, packet 0, a set bit after the last part, 33 moves.
#[test]
fn malformed_datagrams_of_a_client(rt: HostRuntime) {
    let clients: [(&[u8], u32, BitsCause); 6] = [
        (&[], 0, BitsCause::Short),
        (&[0x40], 6, BitsCause::Short),
        (&[2], 0, BitsCause::KindBits),
        (&[0; 16], 6, BitsCause::ZeroSeq),
        (
            &[0x40, 0, 0, 0, 0, 0, 0, 0, 0, 0, 0, 0, 0, 0, 0, 0x80],
            121,
            BitsCause::Padding,
        ),
        (
            &[0x40, 0, 0, 0, 0, 0, 0, 0, 0, 0, 0, 0, 0, 0x40, 8, 0],
            110,
            BitsCause::CountBits,
        ),
    ];
    for (bytes, place, cause) in clients {
        assert!(rt; bytes.len() <= 32);
        assert!(rt; decode_client(bytes).err() == Some(BitsFault { place, cause }));
    }
}

/// A datagram of the server that carries no control slot, no block, no event and no ghost, up to its accepted moves.
pub(crate) const SERVER_FRONT: [u8; 13] = [0x40, 0, 0, 0, 0, 0, 0, 0, 0, 0, 0, 0, 0];

/// These bytes after a front.
pub(crate) fn joined(alloc: Global, front: &[u8], rest: &[u8]) -> Result<Vec<u8>, AllocError> {
    let mut bytes = front.to_vec(alloc)?;
    bytes.extend_from_slice(rest)?;
    Ok(bytes)
}

/// What stands after the accepted moves of a server's packet: a block of 41 bytes, an event of 25, 129 ghosts, op 3,
/// kind 6, an update of no field, a cut level.
#[test]
fn malformed_datagrams(rt: HostRuntime) {
    let kinds = match_kinds();
    let servers: [(&[u8], u32, BitsCause); 7] = [
        (&[0x80, 0, 0x52], 121, BitsCause::LengthBits),
        (&[0, 8, 0x32], 121, BitsCause::LengthBits),
        (&[0, 0, 0x81], 120, BitsCause::CountBits),
        (&[0, 0, 1, 0, 3], 136, BitsCause::OpBits),
        (&[0, 0, 1, 0, 0x19, 0], 138, BitsCause::UnknownKind),
        (&[0, 0, 1, 0, 0x16, 0], 142, BitsCause::EmptyMask),
        (&[0, 0, 1, 0, 0x56, 2, 0, 0], 145, BitsCause::Short),
    ];
    for (behind, place, cause) in servers {
        let bytes = joined(rt.alloc(), &SERVER_FRONT, behind).expect(&rt, "memory");
        assert!(rt; bytes.len() <= 32);
        assert!(rt; decode_server(&bytes, &kinds).err() == Some(BitsFault { place, cause }));
    }
}
