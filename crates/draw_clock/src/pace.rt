//! How far the clock goes.
ghost use Rattle.std.specs.Prelude.{◌≡◌, ◌≤◌, ◌<◌, ◌+◌, ◌-◌, ◌*◌, ◌/◌, ◌^◌};
ghost use Rattle.draw_clock.specs.Following.{distance, followed};

/// The clock's own units to a packet.
pub const FINE: u64 = 65_536;

/// The clock goes at most this part faster or slower than time.
pub const PULL: u64 = 50;

/// How far the packets go in so many milliseconds, of which one takes `period`.
pub fn distance(elapsed: u64, period: u32) -> u64
    requires elapsed { elapsed ≤ 2 ^ 46 }
    requires period { 0 < period }
    ensures value { result ≡ distance elapsed period }
    ensures small { result ≤ 2 ^ 62 }
{
    elapsed * FINE / period as u64
}

/// Where the clock is after a step of time: it follows the target.
#[tactic(auto, using(crate::proofs::ClockFacts::far_behind, crate::proofs::ClockFacts::far_ahead, crate::proofs::ClockFacts::held_low, crate::proofs::ClockFacts::held_high, crate::proofs::ClockFacts::reaches))]
pub fn followed(at: u64, step: u64, target: u64, second: u64) -> u64
    requires at { at ≤ 2 ^ 50 }
    requires step { step ≤ 2 ^ 62 }
    requires target { target ≤ 2 ^ 62 + 2 ^ 50 }
    requires second { second ≤ 2 ^ 62 }
    ensures value { result ≡ followed at step target second }
    ensures on { at ≤ result }
{
    let own = at + step;
    if own + second < target {
        return target;
    }
    if target + second < own {
        return at;
    }
    let pull = step / PULL;
    if target < own - pull {
        return own - pull;
    }
    if own + pull < target {
        return own + pull;
    }
    target
}
