//! A clock that the caller keeps.
ghost use Rattle.std.specs.Prelude.{◌≡◌, ◌≤◌, ◌/◌, pos, [], Some, None};
ghost use Rattle.std.specs.Result.{result_err};
ghost use Rattle.tn_types.specs.Checks.{then_check};
ghost use Rattle.tn_types.specs.Histories.{Does};
ghost use Rattle.draw_clock.specs.declared.clock.TheConstants.{FINE_OF_MOMENT};
ghost use Rattle.draw_clock.specs.Clocking.{Came, Read, StandsFor, IsBounded, clock_from, bound_of, time_check, packet_check};
ghost use Rattle.tribes_link.specs.Clocks.{clock_code, Starts, ClockAnswered, ClockAnswers};

use draw_clock::{ClockParts, ClockRefusal, DrawClock, MAX_TIME, Pace};

/// No clock has these numbers: it was not started, or it was changed.
pub(crate) const NO_CLOCK: i32 = -97;

/// A packet takes no time.
pub(crate) const BAD_PACE: i32 = -98;

/// The time is too great.
pub(crate) const NO_TIME: i32 = -99;

/// A later time was told before.
pub(crate) const TIME_GOES_BACK: i32 = -100;

/// A packet of this or a higher number came before.
pub(crate) const NOT_NEWER: i32 = -101;

/// No packet has this number, as at a timeline.
pub(crate) const NO_CLOCK_PACKET: i32 = -95;

/// The code of a refusal.
fn clock_code(refusal: ClockRefusal) -> i32
    ensures value { result ≡ clock_code refusal }
    ensures not_zero { result ≡ pos 0 → ⊥ }
{
    match refusal {
        ClockRefusal::NoTime => NO_TIME,
        ClockRefusal::TimeGoesBack => TIME_GOES_BACK,
        ClockRefusal::NoPacket => NO_CLOCK_PACKET,
        ClockRefusal::NotNewer => NOT_NEWER,
    }
}

/// Starts a clock.
#[unsafe(no_mangle)]
pub extern "C" fn tribes_clock_start(clock: &mut ClockParts, pace: &Pace, now: u64) -> i32
    ensures begins { result ≡ pos 0 → StandsFor (clock_from clock.new) [] }
    ensures pace { result ≡ pos 0 → (clock.new.pace ≡ pace.now) × (clock.new.start ≡ now) }
    ensures answer { Starts pace.now now result }
    ensures unchanged { (result ≡ pos 0 → ⊥) → clock.new ≡ clock.old }
{
    if pace.period == 0 {
        return BAD_PACE;
    }
    if now > MAX_TIME {
        return NO_TIME;
    }
    let made = DrawClock::new(*pace, now);
    *clock = made.parts();
    0
}

/// Notes that a data packet came.
#[unsafe(no_mangle)]
pub extern "C" fn tribes_clock_came(clock: &mut ClockParts, packet: u32, now: u64) -> i32
    ensures told { result ≡ pos 0 → Does StandsFor (clock_from clock.old) (Came packet now) (clock_from clock.new) }
    ensures pace { (clock.new.pace ≡ clock.old.pace) × (clock.new.start ≡ clock.old.start) }
    ensures stays { clock.new.position ≡ clock.old.position }
    ensures answer { ClockAnswers (clock_from clock.old) result (λ c. ClockAnswered result
        (result_err (then_check (time_check c now) (packet_check c packet)))) }
    ensures unchanged { (result ≡ pos 0 → ⊥) → clock.new ≡ clock.old }
{
    let Some(mut kept) = DrawClock::of_parts(*clock) else {
        return NO_CLOCK;
    };
    match kept.came(packet, now) {
        Ok(()) => {
            *clock = kept.parts();
            0
        }
        Err(refusal) => clock_code(refusal),
    }
}

/// Reads the clock: the moment to draw.
#[unsafe(no_mangle)]
pub extern "C" fn tribes_clock_moment(clock: &mut ClockParts, now: u64, at: &mut u64) -> i32
    ensures told { result ≡ pos 0 → Does StandsFor (clock_from clock.old) (Read now) (clock_from clock.new) }
    ensures moment { result ≡ pos 0 → at.new ≡ clock.new.position / FINE_OF_MOMENT }
    ensures pace { (clock.new.pace ≡ clock.old.pace) × (clock.new.start ≡ clock.old.start) }
    ensures never_back { clock.old.position ≤ clock.new.position }
    ensures bound { result ≡ pos 0 → clock.new.position ≤ bound_of clock.new.pace clock.new.newest }
    ensures answer { ClockAnswers (clock_from clock.old) result (λ c. ClockAnswered result (result_err (time_check c now))) }
    ensures unchanged { (result ≡ pos 0 → ⊥) → clock.new ≡ clock.old }
{
    let Some(mut kept) = DrawClock::of_parts(*clock) else {
        return NO_CLOCK;
    };
    match kept.moment(now) {
        Ok(moment) => {
            *at = moment;
            *clock = kept.parts();
            0
        }
        Err(refusal) => clock_code(refusal),
    }
}
