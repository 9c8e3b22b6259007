//! Of `messages`: parcels of every length through both ends, in order; refusals and faults by their names.

use messages::{
    HoldFault, Inbox, Outbox, ParcelKind, PieceFault, SmallPlace, loose_parcel, loose_piece,
};
use std::alloc::Global;
use std::test::Fail;
use tn_types::{NoMemory, Payload};

/// Bytes that differ from their neighbours.
fn fill(bytes: &mut [u8]) {
    let mut next = 0u8;
    for byte in bytes {
        *byte = next;
        next = next.wrapping_add(7);
    }
}

/// Moves the held pieces over, as long as they are taken and no parcel waits.
fn move_over(outbox: &mut Outbox, inbox: &mut Inbox) -> usize {
    let mut count = 0usize;
    for _ in 0..outbox.held() {
        if inbox.waits() {
            return count;
        }
        let Some(piece) = outbox.take() else {
            return count;
        };
        if inbox.take(&piece).is_err() {
            return count;
        }
        count = count.saturating_add(1);
    }
    count
}

/// Whether a message of these bytes comes back through ends that are just large enough, in so many pieces.
fn comes_back(
    alloc: Global,
    bytes: &[u8],
    pieces: usize,
    place: &mut [u8],
) -> Result<bool, NoMemory> {
    let mut outbox = Outbox::new(alloc, pieces)?;
    let mut inbox = Inbox::new(alloc, bytes.len())?;
    if outbox.post(ParcelKind::Message, bytes).is_err() || outbox.free() != 0 {
        return Ok(false);
    }
    if move_over(&mut outbox, &mut inbox) != pieces {
        return Ok(false);
    }
    match inbox.hand_out(place) {
        Ok(Some(whole)) => Ok(
            whole.kind == ParcelKind::Message
                && whole.count == bytes.len()
                && whole.count <= place.len()
                && &place[..whole.count] == bytes,
        ),
        _ => Ok(false),
    }
}

#[test]
fn messages_of_each_length_come_back(rt: HostRuntime) -> Result<(), Fail> {
    let mut bytes = vec![in rt.alloc(); 0u8; 65_536]?;
    fill(&mut bytes);
    let mut place = vec![in rt.alloc(); 0u8; 65_536]?;
    for (length, pieces) in [
        (0usize, 1usize),
        (1, 1),
        (23, 1),
        (24, 2),
        (25, 2),
        (44, 2),
        (45, 3),
        (67, 3),
        (68, 4),
        (1_000, 44),
        (65_535, 2_850),
    ] {
        let (message, _) = bytes.split_at(length.min(bytes.len()));
        assert!(rt; comes_back(rt.alloc(), message, pieces, &mut place)?);
    }
    Ok(())
}

#[test]
fn what_has_no_place_is_refused(rt: HostRuntime) -> Result<(), Fail> {
    let bytes = vec![in rt.alloc(); 1u8; 65_536]?;
    let short = [1u8; 24];
    let name = [1u8; 5];
    let mut outbox = Outbox::new(rt.alloc(), 2)?;
    let too_long = HoldFault::TooLong { most: 65_535 };
    assert_eq!(rt; outbox.post(ParcelKind::Message, &bytes), Err(too_long));
    let too_long = HoldFault::TooLong { most: 23 };
    assert_eq!(rt; outbox.post(ParcelKind::Event, &short), Err(too_long));
    assert_eq!(rt; outbox.post(ParcelKind::Event, &name), Ok(()));
    let no_places = HoldFault::NoPlaces { needed: 2, free: 1 };
    assert_eq!(rt; outbox.post(ParcelKind::Message, &short), Err(no_places));
    assert_eq!(rt; outbox.post(ParcelKind::Message, &name), Ok(()));
    // Both share one order, and a place that is too small changes nothing.
    let mut inbox = Inbox::new(rt.alloc(), 30)?;
    let mut place = [0u8; 30];
    let (small, _) = place.split_at_mut(4);
    assert_eq!(rt; move_over(&mut outbox, &mut inbox), 1);
    assert_eq!(rt; inbox.hand_out(small), Err(SmallPlace { needed: 5 }));
    assert_eq!(rt; kind_out(&mut inbox, &mut place), Some(ParcelKind::Event));
    assert_eq!(rt; move_over(&mut outbox, &mut inbox), 1);
    assert_eq!(rt; kind_out(&mut inbox, &mut place), Some(ParcelKind::Message));
    assert_eq!(rt; kind_out(&mut inbox, &mut place), None);
    Ok(())
}

fn kind_out(inbox: &mut Inbox, place: &mut [u8]) -> Option<ParcelKind> {
    match inbox.hand_out(place) {
        Ok(Some(whole)) => Some(whole.kind),
        _ => None,
    }
}

/// The fault of the last of these pieces, in a new inbox for 60 bytes, where the others are taken.
fn fault_of(alloc: Global, before: &[u8], piece: &[u8]) -> Result<Option<PieceFault>, NoMemory> {
    let mut inbox = Inbox::new(alloc, 60)?;
    if !before.is_empty() {
        let Some(before) = Payload::from_slice(before) else {
            return Ok(None);
        };
        if inbox.waits() || inbox.take(&before).is_err() {
            return Ok(None);
        }
    }
    let Some(piece) = Payload::from_slice(piece) else {
        return Ok(None);
    };
    if inbox.waits() {
        return Ok(None);
    }
    let fault = inbox.take(&piece).err();
    if inbox.waits() || inbox.fault() != fault || inbox.take(&piece).err() != fault {
        return Ok(None);
    }
    Ok(fault)
}

#[test]
fn pieces_of_no_honest_end_are_named(rt: HostRuntime) -> Result<(), Fail> {
    let none = [0u8; 0];
    let mut first = [9u8; 24];
    first[0] = 2;
    first[1] = 45;
    first[2] = 0;
    let mut middle = [9u8; 24];
    middle[0] = 3;
    let mut long = first;
    long[1] = 61;
    let mut one = first;
    one[1] = 23;
    let mut late = first;
    late[1] = 44;
    let rows: [(&[u8], &[u8], PieceFault); 13] = [
        (&none, &none, PieceFault::Empty),
        (&none, &[5, 1], PieceFault::UnknownForm { form: 5 }),
        (&none, &middle, PieceFault::NotBegun),
        (&none, &[4, 1], PieceFault::NotBegun),
        (&none, &[2, 45], PieceFault::FewerBytes),
        (&none, &[2, 45, 0, 1], PieceFault::FewerBytes),
        (&none, &one, PieceFault::OnePiece { length: 23 }),
        (
            &none,
            &long,
            PieceFault::TooLong {
                length: 61,
                most: 60,
            },
        ),
        (&first, &[0, 1], PieceFault::NotEnded),
        (&first, &first, PieceFault::NotEnded),
        (&first, &[3, 1], PieceFault::FewerBytes),
        (&first, &[4, 1], PieceFault::FewerBytes),
        (&late, &middle, PieceFault::MoreBytes),
    ];
    for (before, piece, wanted) in rows {
        assert_eq!(rt; fault_of(rt.alloc(), before, piece)?, Some(wanted));
    }
    Ok(())
}

/// Whether a message of three bytes is one piece, which is the message again.
fn is_one_piece() -> bool {
    match loose_piece(ParcelKind::Message, b"hey") {
        Ok(piece) => {
            piece.as_slice() == [1, 104, 101, 121].as_slice()
                && matches!(
                    loose_parcel(&piece),
                    Ok((ParcelKind::Message, [104, 101, 121]))
                )
        }
        Err(_) => false,
    }
}

#[test]
fn an_unguaranteed_parcel_is_one_piece(rt: HostRuntime) {
    assert!(rt; is_one_piece());
    let long = [1u8; 24];
    assert!(rt; loose_piece(ParcelKind::Message, &long).is_err());
    let none = Payload::new();
    assert!(rt; matches!(loose_parcel(&none), Err(PieceFault::Empty)));
}
