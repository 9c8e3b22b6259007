//! How a link goes, which has a handle of its own.
ghost use Rattle.std.specs.Prelude.{◌≡◌, ◌↔◌, pos, IsSome, IfSome, []};
ghost use Rattle.tn_types.specs.Histories.{Does, Answers};
ghost use Rattle.tn_types.specs.Checks.{then_check};
ghost use Rattle.link_quality.specs.Packets.{StandsFor, Sent, Judged, losses_of, trips_of, time_check, sent_check, judged_check};
ghost use Rattle.link_quality.specs.Smoothing.{smoothed_of};
ghost use Rattle.tribes_link.specs.Behind.{Behind, Tells};
ghost use Rattle.tribes_link.specs.Cares.{quality_code, trip_of, verdict_of};
ghost use Rattle.tribes_link.specs.Handles.{AnswersAt, IsMadeIfRoom};

use crate::answering::NO_MEMORY;
use crate::joining_codes::{
    HAS_QUALITY, NO_QUALITY, NOTHING_WAITS, TIME_GOES_BACK_AT_LINK, TOO_MANY_WAIT,
};
use crate::quality_handle::{OPEN_QUALITY, QualityHandle};
use link_quality::{LinkQuality, QualityRefusal};
use std::alloc::Global;
use tn_types::Verdict;

/// How a link goes: the round trip in eighths of a millisecond and what single ones differ by in quarters, where `known` is not 0, and how many of the
/// last 64 packets that were judged are lost.
#[repr(C)]
#[derive(Clone, Copy)]
pub struct QualityRow {
    pub known: u32,
    pub lost: u64,
    pub eighths: u64,
    pub quarters: u64,
}

/// Makes one that was told nothing.
#[unsafe(no_mangle)]
pub extern "C" fn tribes_quality_open(alloc: Global, quality: &mut QualityHandle) -> i32
    ensures begins { result ≡ pos 0 → IfSome quality.new.held.value (λ q. StandsFor q []) }
    ensures some { result ≡ pos 0 → IsSome quality.new.held.value }
    ensures has_quality { quality.old.state ≡ OPEN_QUALITY → result ≡ HAS_QUALITY }
    ensures answer { (quality.old.state ≡ OPEN_QUALITY → ⊥) → IsMadeIfRoom result }
    ensures unchanged { (result ≡ pos 0 → ⊥) → quality.new ≡ quality.old }
{
    if quality.is_open() {
        return HAS_QUALITY;
    }
    let Ok(made) = LinkQuality::new(alloc) else {
        return NO_MEMORY;
    };
    match Box::new(alloc, made) {
        Ok(boxed) => {
            quality.put(boxed);
            0
        }
        Err(_) => NO_MEMORY,
    }
}

/// Frees it.
#[unsafe(no_mangle)]
pub extern "C" fn tribes_quality_free(alloc: Global, quality: &mut QualityHandle) -> i32
    ensures freed { (result ≡ pos 0) ↔ (quality.old.state ≡ OPEN_QUALITY) }
    ensures closed { (quality.old.state ≡ OPEN_QUALITY → ⊥) → result ≡ NO_QUALITY }
    ensures empty { quality.new.state ≡ OPEN_QUALITY → ⊥ }
{
    match quality.take(alloc) {
        Some(_) => 0,
        None => NO_QUALITY,
    }
}

fn quality_code(done: Result<(), QualityRefusal>) -> i32
    ensures { result ≡ quality_code done }
{
    match done {
        Ok(()) => 0,
        Err(QualityRefusal::TimeGoesBack) => TIME_GOES_BACK_AT_LINK,
        Err(QualityRefusal::TooMany) => TOO_MANY_WAIT,
        Err(QualityRefusal::NothingWaits) => NOTHING_WAITS,
    }
}

fn verdict_of(received: u32) -> Verdict
    ensures { result ≡ verdict_of received }
{
    if received == 0 {
        Verdict::Lost
    } else {
        Verdict::Received
    }
}

/// A data packet was sent.
#[unsafe(no_mangle)]
pub extern "C" fn tribes_quality_sent(alloc: Global, quality: &mut QualityHandle, now: u64) -> i32
    ensures told { result ≡ pos 0 → Behind (λ old new. Does StandsFor old (Sent now) new) quality.old.held.value quality.new.held.value }
    ensures answer { AnswersAt OPEN_QUALITY quality.old.state NO_QUALITY quality.old.held.value result
        (λ q. result ≡ quality_code (then_check (time_check q now) (sent_check q))) }
    ensures unchanged { (result ≡ pos 0 → ⊥) → quality.new.held.value ≡ quality.old.held.value }
{
    let Some(taken) = quality.take(alloc) else {
        return NO_QUALITY;
    };
    let mut open = taken;
    let code = quality_code(open.sent(now));
    quality.put(open);
    code
}

/// The oldest packet that waits was judged: it came, or where `received` is 0 it was lost.
#[unsafe(no_mangle)]
pub extern "C" fn tribes_quality_judged(
    alloc: Global,
    quality: &mut QualityHandle,
    received: u32,
    now: u64,
) -> i32
    ensures told { result ≡ pos 0 → Behind (λ old new. Does StandsFor old (Judged (verdict_of received) now) new)
        quality.old.held.value quality.new.held.value }
    ensures answer { AnswersAt OPEN_QUALITY quality.old.state NO_QUALITY quality.old.held.value result
        (λ q. result ≡ quality_code (then_check (time_check q now) (judged_check q.waiting))) }
    ensures unchanged { (result ≡ pos 0 → ⊥) → quality.new.held.value ≡ quality.old.held.value }
{
    let Some(taken) = quality.take(alloc) else {
        return NO_QUALITY;
    };
    let mut open = taken;
    let code = quality_code(open.judged(verdict_of(received), now));
    quality.put(open);
    code
}

/// Lists how it goes.
fn list(quality: &LinkQuality, row: &mut QualityRow)
    ensures trip { Answers StandsFor quality.now (λ log. smoothed_of (trips_of log)) (trip_of row.new) }
    ensures lost { Answers StandsFor quality.now losses_of row.new.lost }
{
    let lost = quality.losses() as u64;
    *row = match quality.round_trip() {
        Some(trip) => QualityRow {
            known: 1,
            lost,
            eighths: trip.eighths,
            quarters: trip.quarters,
        },
        None => QualityRow {
            known: 0,
            lost,
            eighths: 0,
            quarters: 0,
        },
    };
}

/// Tells how the link goes.
#[unsafe(no_mangle)]
pub extern "C" fn tribes_quality_told(
    alloc: Global,
    quality: &mut QualityHandle,
    row: &mut QualityRow,
) -> i32
    ensures trip { result ≡ pos 0 → Tells (λ q. Answers StandsFor q (λ log. smoothed_of (trips_of log)) (trip_of row.new)) quality.old.held.value }
    ensures lost { result ≡ pos 0 → Tells (λ q. Answers StandsFor q losses_of row.new.lost) quality.old.held.value }
    ensures answer { (result ≡ pos 0) ↔ (quality.old.state ≡ OPEN_QUALITY) }
    ensures closed { (quality.old.state ≡ OPEN_QUALITY → ⊥) → (result ≡ NO_QUALITY) × (row.new ≡ row.old) }
    ensures unchanged { quality.new.held.value ≡ quality.old.held.value }
{
    let Some(taken) = quality.take(alloc) else {
        return NO_QUALITY;
    };
    list(&*taken, row);
    quality.put(taken);
    0
}
