//! What an end tells in lists of numbers: moves, copies, what became of packets and of slots.
ghost use Rattle.std.specs.Prelude.{◌≡◌, ◌≤◌, ◌<◌, ◌-◌, ◌^◌, Some, map, length, slice_get, take};
ghost use Rattle.tribes_ends.specs.Lists.{number_of, judged_of, change_of, received_of};

use stream_manager::Verdicts;
use tn_types::{MAX_PACKET_GHOSTS, MAX_PACKET_MOVES, MAX_UNJUDGED_PACKETS, MoveBits, Verdict};
use wire_format::GhostItem;

/// A copy: the kind and the block of the object, and how many fields it has.
#[repr(C)]
#[derive(Clone, Copy, Debug, Default, PartialEq, Eq)]
pub struct Copied {
    pub kind: u32,
    pub block: u32,
    pub fields: u32,
}

/// What became of a data packet that this end sent: 1 where the other end processed it, 0 where it never will.
#[repr(C)]
#[derive(Clone, Copy, Debug, Default, PartialEq, Eq)]
pub struct Judged {
    pub number: u32,
    pub received: u32,
}

/// What a packet did to a slot: 0 it took the copy away, 1 it made one, 2 it changed the fields of these bits.
#[repr(C)]
#[derive(Clone, Copy, Debug, Default, PartialEq, Eq)]
pub struct Change {
    pub slot: u32,
    pub what: u32,
    pub fields: u32,
}

/// Puts these moves at the front of the place, as numbers; gives how many these are.
pub(crate) fn list_moves(moves: &[MoveBits], place: &mut [u64]) -> u32
    requires few { length moves.now ≤ MAX_PACKET_MOVES }
    requires room { length moves.now ≤ length place.old }
    ensures { take result place.new ≡ map number_of moves.now }
{
    let mut count = 0u32;
    'moves: for m in moves {
        place[count as usize] = m.bits;
        count += 1;
    }
    count
}

/// What became of a packet, as a number.
fn received(verdict: Verdict) -> u32
    ensures { result ≡ received_of verdict }
{
    match verdict {
        Verdict::Received => 1,
        Verdict::Lost => 0,
    }
}

/// What became of the packet at this place.
#[tactic(auto, using(crate::proofs::Listing::judged_there, crate::proofs::Listing::not_past))]
fn judged_at(verdicts: &Verdicts, place: u32) -> Judged
    requires { place < length verdicts.now }
    ensures { slice_get (map judged_of verdicts.now) place ≡ Some result }
{
    match verdicts.get(place) {
        Some((number, verdict)) => Judged {
            number,
            received: received(verdict),
        },
        None => unreachable!(),
    }
}

/// Puts these verdicts at the front of the place; gives how many these are.
pub(crate) fn list_verdicts(verdicts: &Verdicts, place: &mut [Judged]) -> u32
    requires { MAX_UNJUDGED_PACKETS ≤ length place.old }
    ensures { take result place.new ≡ map judged_of verdicts.now }
{
    let count = verdicts.count();
    'verdicts: for at in 0..count {
        place[at as usize] = judged_at(verdicts, at);
    }
    count
}

/// The bits of so many fields.
pub(crate) fn first_bits(count: usize) -> u32
    requires { count < 32 }
    ensures { result ≡ 2 ^ count - 1 }
{
    (1 << count) - 1
}

/// The item as numbers.
fn item_change(item: &GhostItem) -> Change
    ensures { result ≡ change_of item.now }
{
    match item {
        GhostItem::Kill { slot } => Change {
            slot: u32::from(*slot),
            what: 0,
            fields: 0,
        },
        GhostItem::Create { slot, levels, .. } => Change {
            slot: u32::from(*slot),
            what: 1,
            fields: first_bits(levels.len()),
        },
        GhostItem::Update { slot, mask, .. } => Change {
            slot: u32::from(*slot),
            what: 2,
            fields: *mask,
        },
    }
}

/// Puts what these items did at the front of the place; gives how many these are.
pub(crate) fn list_changes(items: &[GhostItem], place: &mut [Change]) -> u32
    requires few { length items.now ≤ MAX_PACKET_GHOSTS }
    requires room { length items.now ≤ length place.old }
    ensures { take result place.new ≡ map change_of items.now }
{
    let mut count = 0u32;
    'items: for item in items {
        place[count as usize] = item_change(item);
        count += 1;
    }
    count
}
