//! Which fields of which objects each client is to hear of.
ghost use Rattle.std.specs.Prelude.{◌≡◌, ℕ, ◌<◌, ◌≤◌, ◌==◌, ◌&&◌, ◌^◌, [], OnOk, length, map, filter, bit_or, nat_lt, if◌then◌else◌};
ghost use Rattle.std.specs.List.{All, list_any};
ghost use Rattle.tn_types.specs.declared.limits.TheConstants.{MAX_CLIENTS};
ghost use Rattle.dirty_lanes.specs.Words.{mask_at, SizesStay};
ghost use Rattle.match_laws.specs.own_lists.Kept.{has_bits};
ghost use Rattle.match_engine.specs.Serving.{OthersStay, AreApart, marked, is_of, raised_by};

use client_scope::ShownPeriod;
use dirty_lanes::{MAX_LANE_FIELDS, PlainLanes};
use std::alloc::AllocError;
use tn_types::Drain;
use world_scope::Seen;
use world_sim::Write;

/// The fields of shown periods that were written since the last drain, none of which is left marked.
pub(crate) fn drain_all(
    lanes: &mut PlainLanes,
    client: u8,
    shown: &[ShownPeriod],
    drains: &mut Vec<Drain>,
) -> Result<(), AllocError>
    requires client { client < lanes.old.clients }
    requires there { All (λ p. p.object < lanes.old.objects) shown.now }
    requires apart { AreApart shown.now }
    ensures drains { OnOk result (drains.new.items ≡ filter has_bits (marked lanes.old client shown.now)) }
    ensures cleared { OnOk result (All (λ p. mask_at lanes.new client p.object ≡ 0) shown.now) }
    ensures others { OthersStay client lanes.old lanes.new }
{
    drains.clear();
    for p in shown {
        let bits = lanes.drain(client, p.object);
        if bits != 0 {
            drains.push(Drain { n: p.n, bits })?;
        }
    }
    Ok(())
}

/// Each shown period with its fields that were written since the last drain, if any.
pub(crate) fn written_of(
    lanes: &PlainLanes,
    client: u8,
    shown: &[ShownPeriod],
    written: &mut Vec<Drain>,
) -> Result<(), AllocError>
    requires client { client < lanes.now.clients }
    requires there { All (λ p. p.object < lanes.now.objects) shown.now }
    ensures { OnOk result (written.new.items ≡ marked lanes.now client shown.now) }
{
    written.clear();
    for p in shown {
        written.push(Drain {
            n: p.n,
            bits: lanes.raised(client, p.object),
        })?;
    }
    Ok(())
}

/// Periods of these objects begin, so that nothing was written of them.
pub(crate) fn clear_all(lanes: &mut PlainLanes, client: u8, shows: &[Seen])
    requires client { client < lanes.old.clients }
    requires there { All (λ s. s.object < lanes.old.objects) shows.now }
    ensures masks { (o : ℕ) → mask_at lanes.new client o
        ≡ (if list_any (is_of o) shows.now then 0 else mask_at lanes.old client o) }
    ensures others { OthersStay client lanes.old lanes.new }
{
    for s in shows {
        lanes.drain(client, s.object);
    }
}

// Every client is to hear of a write.
fn raise_one(lanes: &mut PlainLanes, write: &Write)
    requires clients { lanes.old.clients ≡ MAX_CLIENTS }
    requires object { write.now.object < lanes.old.objects }
    requires field { write.now.field < MAX_LANE_FIELDS }
    ensures masks { (d o : ℕ) → d < MAX_CLIENTS → mask_at lanes.new d o
        ≡ (if write.now.object == o then bit_or (mask_at lanes.old d o) (2 ^ write.now.field) else mask_at lanes.old d o) }
    ensures sizes { SizesStay lanes.old lanes.new }
{
    lanes.raise_for_all(write.object, 1 << write.field);
}

/// Every client is to hear of these writes.
pub(crate) fn raise_all(lanes: &mut PlainLanes, writes: &[Write])
    requires clients { lanes.old.clients ≡ MAX_CLIENTS }
    requires objects { All (λ w. w.object < lanes.old.objects) writes.now }
    requires fields { All (λ w. w.field < MAX_LANE_FIELDS) writes.now }
    ensures masks { (d o : ℕ) → d < MAX_CLIENTS → mask_at lanes.new d o ≡ raised_by writes.now o (mask_at lanes.old d o) }
    ensures sizes { SizesStay lanes.old lanes.new }
{
    for write in writes {
        raise_one(lanes, write);
    }
}
