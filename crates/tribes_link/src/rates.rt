//! How much a link may carry, which the caller keeps.
ghost use Rattle.std.specs.Prelude.{◌≡◌, ◌≤◌, ◌<◌, ◌↔◌, pos, nat_lt, []};
ghost use Rattle.tn_types.specs.Histories.{Does, Answers};
ghost use Rattle.pace.specs.Pacing.{StandsFor, Came, WasLost, Went, IsBetween, pacing_from, rate_of, allowed_at, time_check};
ghost use Rattle.pace.specs.Rates.{AreTerms};
ghost use Rattle.pace.specs.Waiting.{IsWaitOf};
ghost use Rattle.tribes_link.specs.Cares.{RateAnswers, pace_code, wait_code};

use crate::joining_codes::{BAD_BOUNDS, NO_RATE, TIME_GOES_BACK_AT_LINK};
use pace::{Pace, PaceParts, PaceTerms, are_terms};

/// Starts a rate: the least one, and all saved up that may be.
#[unsafe(no_mangle)]
pub extern "C" fn tribes_rate_start(rate: &mut PaceParts, terms: &PaceTerms, now: u64) -> i32
    ensures begins { result ≡ pos 0 → StandsFor (pacing_from rate.new) [] }
    ensures terms { result ≡ pos 0 → (rate.new.terms ≡ terms.now) × (rate.new.start ≡ now) }
    ensures answer { (result ≡ pos 0) ↔ AreTerms terms.now }
    ensures refused { (AreTerms terms.now → ⊥) → (result ≡ BAD_BOUNDS) × (rate.new ≡ rate.old) }
{
    if !are_terms(*terms) {
        return BAD_BOUNDS;
    }
    *rate = Pace::new(*terms, now).parts();
    0
}

/// A packet is known to have come.
#[unsafe(no_mangle)]
pub extern "C" fn tribes_rate_came(rate: &mut PaceParts, now: u64) -> i32
    ensures told { result ≡ pos 0 → Does StandsFor (pacing_from rate.old) (Came now) (pacing_from rate.new) }
    ensures answer { RateAnswers (pacing_from rate.old) result (result ≡ pace_code (time_check (pacing_from rate.old) now)) }
    ensures unchanged { (result ≡ pos 0 → ⊥) → rate.new ≡ rate.old }
{
    let Some(mut kept) = Pace::of_parts(*rate) else {
        return NO_RATE;
    };
    match kept.came(now) {
        Ok(()) => {
            *rate = kept.parts();
            0
        }
        Err(_) => TIME_GOES_BACK_AT_LINK,
    }
}

/// A packet is known to be lost, while a round trip takes so many milliseconds.
#[unsafe(no_mangle)]
pub extern "C" fn tribes_rate_lost(rate: &mut PaceParts, round_trip: u64, now: u64) -> i32
    ensures told { result ≡ pos 0 → Does StandsFor (pacing_from rate.old) (WasLost now round_trip) (pacing_from rate.new) }
    ensures answer { RateAnswers (pacing_from rate.old) result (result ≡ pace_code (time_check (pacing_from rate.old) now)) }
    ensures unchanged { (result ≡ pos 0 → ⊥) → rate.new ≡ rate.old }
{
    let Some(mut kept) = Pace::of_parts(*rate) else {
        return NO_RATE;
    };
    match kept.lost(round_trip, now) {
        Ok(()) => {
            *rate = kept.parts();
            0
        }
        Err(_) => TIME_GOES_BACK_AT_LINK,
    }
}

/// A datagram of so many bytes went.
#[unsafe(no_mangle)]
pub extern "C" fn tribes_rate_went(rate: &mut PaceParts, bytes: u32, now: u64) -> i32
    ensures told { result ≡ pos 0 → Does StandsFor (pacing_from rate.old) (Went bytes now) (pacing_from rate.new) }
    ensures answer { RateAnswers (pacing_from rate.old) result (result ≡ pace_code (time_check (pacing_from rate.old) now)) }
    ensures unchanged { (result ≡ pos 0 → ⊥) → rate.new ≡ rate.old }
{
    let Some(mut kept) = Pace::of_parts(*rate) else {
        return NO_RATE;
    };
    match kept.went(bytes, now) {
        Ok(()) => {
            *rate = kept.parts();
            0
        }
        Err(_) => TIME_GOES_BACK_AT_LINK,
    }
}

/// Tells how many bytes a datagram may have now. The rate itself, in bytes a second, is `rate` of the numbers.
#[unsafe(no_mangle)]
pub extern "C" fn tribes_rate_allowed(rate: &PaceParts, now: u64, bytes: &mut u32) -> i32
    ensures told { result ≡ pos 0
        → Answers StandsFor (pacing_from rate.now) (λ log. allowed_at rate.now.terms rate.now.start log now) bytes.new }
    ensures rate { result ≡ pos 0 → Answers StandsFor (pacing_from rate.now) (rate_of rate.now.terms rate.now.start) rate.now.rate }
    ensures between { result ≡ pos 0 → (rate.now.terms.least ≤ rate.now.rate) × (rate.now.rate ≤ rate.now.terms.most) }
    ensures answer { RateAnswers (pacing_from rate.now) result (result ≡ pace_code (time_check (pacing_from rate.now) now)) }
    ensures unchanged { (result ≡ pos 0 → ⊥) → bytes.new ≡ bytes.old }
{
    let Some(kept) = Pace::of_parts(*rate) else {
        return NO_RATE;
    };
    match kept.allowed(now) {
        Ok(found) => {
            *bytes = found;
            0
        }
        Err(_) => TIME_GOES_BACK_AT_LINK,
    }
}

/// Answers 1 with the milliseconds until a datagram of so many bytes may go, if nothing is told until then; 0: it has more than may be saved up.
#[unsafe(no_mangle)]
pub extern "C" fn tribes_rate_wait(rate: &PaceParts, bytes: u32, now: u64, wait: &mut u64) -> i32
    ensures told { result ≡ pos 1 → IsWaitOf (pacing_from rate.now) bytes now wait.new }
    ensures never { result ≡ pos 0 → rate.now.terms.burst < bytes }
    ensures answer { RateAnswers (pacing_from rate.now) result
        (result ≡ wait_code (nat_lt rate.now.terms.burst bytes) (pace_code (time_check (pacing_from rate.now) now))) }
    ensures unchanged { (result ≡ pos 1 → ⊥) → wait.new ≡ wait.old }
{
    let Some(kept) = Pace::of_parts(*rate) else {
        return NO_RATE;
    };
    match kept.wait(bytes, now) {
        Ok(Some(found)) => {
            *wait = found;
            1
        }
        Ok(None) => 0,
        Err(_) => TIME_GOES_BACK_AT_LINK,
    }
}
