//! What is kept of the period that holds a slot, slot by slot.
//!
//! Most packets carry of a period what the packet of its last turn did. So the fields of that packet are kept as one mask, and a
//! carrier is written only for a field that the next packet leaves out.

ghost use Rattle.std.specs.Prelude.{ℕ, ◌≡◌, ◌<◌, length, slice_set, slice_index_or, IfOk, ◌&&◌, ◌==◌, not, nat_lt, if◌then◌else◌};
ghost use Rattle.tn_types.specs.BitWords.{has_bit};
ghost use Rattle.ghost_rows.specs.Kept.{row_at, carrier_at, IsFresh, AreFresh, IsAbsorbed, IsCarried, IsRaised};
ghost use Rattle.ghost_rows.specs.RowLists.{carrier_of};

use std::alloc::Global;
use std::marker::Model;
use tn_types::{MAX_FIELDS, MAX_SLOTS, NoMemory};

/// The mask of all fields that a kind may have.
pub const ALL_FIELDS: u32 = (1 << MAX_FIELDS) - 1;

/// What a plan asks of the period that holds a slot.
#[derive(Clone, Copy)]
pub struct Standing {
    /// Bit f for field f: it is due.
    pub due: u32,
    /// How many packets were sent at the period's last turn.
    pub turn: u32,
}

/// A row for each slot. What a plan asks lies together, apart from what losses ask.
#[derive(Drop)]
pub struct Rows {
    standings: Vec<Standing>,
    // The fields that the packet of the last turn carries: its number is `turn`.
    lasts: Vec<u32>,
    // The last packet that carries each field that isn't among these, 0 where none does.
    carriers: Vec<[u32; MAX_FIELDS]>,
}

impl Model for Rows {
    ghost use Rattle.std.specs.Prelude.{◌≡◌, List, length};
    ghost use Rattle.tn_types.specs.declared.limits.TheConstants.{MAX_SLOTS};
    ghost use Rattle.ghost_rows.specs.Kept.{Row};
    ghost use Rattle.ghost_rows.specs.RowLists.{rows_of};

    ghost Value = { List Row };

    ghost view = { λ r. rows_of r.standings.items r.lasts.items r.carriers.items };

    ghost invariant = { λ r.
        (length r.standings.items ≡ MAX_SLOTS) × (length r.lasts.items ≡ MAX_SLOTS) × (length r.carriers.items ≡ MAX_SLOTS) };
}

impl Rows {
    /// No packet was sent, and all fields of each slot are due. No later call takes memory.
    pub fn new(alloc: Global) -> Result<Rows, NoMemory>
        ensures slots { IfOk result (λ r. length r ≡ MAX_SLOTS) }
        ensures fresh { IfOk result AreFresh }
    {
        let fresh = Standing {
            due: ALL_FIELDS,
            turn: 0,
        };
        let Ok(standings) = vec![in alloc; fresh; MAX_SLOTS] else {
            return Err(NoMemory);
        };
        let Ok(lasts) = vec![in alloc; 0; MAX_SLOTS] else {
            return Err(NoMemory);
        };
        match vec![in alloc; [0; MAX_FIELDS]; MAX_SLOTS] {
            Ok(carriers) => Ok(Rows {
                standings,
                lasts,
                carriers,
            }),
            Err(_) => Err(NoMemory),
        }
    }

    /// A period is granted the slot after so many packets.
    pub fn begin(&mut self, slot: u8, turn: u32)
        ensures { let row = row_at self.new slot in (self.new ≡ slice_set self.old slot row) × IsFresh turn row }
    {
        let slot = slot as usize;
        self.standings[slot] = Standing {
            due: ALL_FIELDS,
            turn,
        };
        self.lasts[slot] = 0;
        self.carriers[slot] = [0; MAX_FIELDS];
    }

    /// These fields of the slot's period are due as well.
    pub fn absorb(&mut self, slot: u8, bits: u32)
        ensures { let row = row_at self.new slot in (self.new ≡ slice_set self.old slot row) × IsAbsorbed bits (row_at self.old slot) row }
    {
        self.standings[slot as usize].due |= bits;
    }

    /// Packet `seq` carries these fields of the slot's period.
    pub fn carry(&mut self, slot: u8, seq: u32, mask: u32)
        ensures { let row = row_at self.new slot in
            (self.new ≡ slice_set self.old slot row) × IsCarried seq mask (row_at self.old slot) row }
    {
        let slot = slot as usize;
        let Standing { due, turn } = self.standings[slot];
        let left = self.lasts[slot] & !mask;
        if left != 0 {
            carry_fields(&mut self.carriers[slot], turn, left);
        }
        self.standings[slot] = Standing {
            due: due & !mask,
            turn: seq,
        };
        self.lasts[slot] = mask;
    }

    /// What packet `seq` was the last to carry of the slot's period is due again.
    pub fn raise(&mut self, slot: u8, seq: u32)
        ensures { let row = row_at self.new slot in (self.new ≡ slice_set self.old slot row) × IsRaised seq (row_at self.old slot) row }
    {
        let slot = slot as usize;
        let standing = &mut self.standings[slot];
        standing.due |= last_of(standing.turn, self.lasts[slot], &self.carriers[slot], seq);
    }

    /// The fields of the slot's period that are due.
    pub fn due(&self, slot: u8) -> u32
        ensures { let row = row_at self.now slot in result ≡ row.due }
    {
        self.standings[slot as usize].due
    }

    /// Whether the field isn't due, and no packet after those judged carries it.
    pub fn is_settled(&self, slot: u8, field: u8, judged: u32) -> bool
        requires { field < MAX_FIELDS }
        ensures { let row = row_at self.now slot in result ≡ (not (has_bit row.due field) && not (nat_lt judged (carrier_at row field))) }
    {
        let (slot, field) = (slot as usize, field as usize);
        let Standing { due, turn } = self.standings[slot];
        let carrier = if has_field(self.lasts[slot], field) {
            turn
        } else {
            self.carriers[slot][field]
        };
        !has_field(due, field) && carrier <= judged
    }

    /// The fields of the slot's period that are due, and how many packets were sent at its last turn.
    pub fn standing(&self, slot: u8) -> (u32, u32)
        ensures { let row = row_at self.now slot in (result.0 ≡ row.due) × (result.1 ≡ row.turn) }
    {
        let Standing { due, turn } = self.standings[slot as usize];
        (due, turn)
    }
}

// Packet `seq` is the carrier of the fields of the mask. It is rare, and so kept out of the calls.
#[inline(never)]
fn carry_fields(carriers: &mut [u32; MAX_FIELDS], seq: u32, mask: u32)
    ensures { (field : ℕ) → field < MAX_FIELDS
        → slice_index_or carriers.new field 0 ≡ (if has_bit mask field then seq else slice_index_or carriers.old field 0) }
{
    let mut rest = mask & ALL_FIELDS;
    'fields: while rest != 0 {
        carriers[rest.trailing_zeros() as usize] = seq;
        rest &= rest - 1;
    }
}

// The fields whose last carrier is packet `seq`.
fn last_of(turn: u32, last: u32, carriers: &[u32; MAX_FIELDS], seq: u32) -> u32
    ensures { (field : ℕ) → field < MAX_FIELDS → has_bit result field ≡ (carrier_of turn last carriers.now field == seq) }
{
    let kept = kept_of(carriers, seq) & !last;
    if turn == seq { kept | last } else { kept }
}

// The fields whose carrier here is packet `seq`.
fn kept_of(carriers: &[u32; MAX_FIELDS], seq: u32) -> u32
    ensures { (field : ℕ) → field < MAX_FIELDS → has_bit result field ≡ (slice_index_or carriers.now field 0 == seq) }
{
    let mut bits = 0;
    'fields: for field in 0..MAX_FIELDS {
        if carriers[field] == seq {
            bits |= 1 << field;
        }
    }
    bits
}

// Whether the mask has the bit of the field.
fn has_field(mask: u32, field: usize) -> bool
    requires { field < MAX_FIELDS }
    ensures { result ≡ has_bit mask field }
{
    (mask >> field) & 1 == 1
}
