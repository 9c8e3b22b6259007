//! How much goes one way in a second, which the caller keeps.
ghost use Rattle.std.specs.Prelude.{◌≡◌, ◌/◌, pos};
ghost use Rattle.tn_types.specs.Histories.{Does, Answers};
ghost use Rattle.link_quality.specs.Traffic.{StandsFor, meter_from, second_check, traffic_before};
ghost use Rattle.link_quality.specs.declared.traffic.TheConstants.{SECOND};
ghost use Rattle.tribes_link.specs.Cares.{meter_code};

use crate::joining_codes::SECOND_IS_PAST;
use link_quality::{MeterParts, Traffic, TrafficMeter};

/// A datagram of so many bytes went. A meter that was filled with zeros was told nothing.
#[unsafe(no_mangle)]
pub extern "C" fn tribes_meter_went(meter: &mut MeterParts, bytes: u32, now: u64) -> i32
    ensures told { result ≡ pos 0 → Does StandsFor (meter_from meter.old) (record { bytes = bytes; time = now }) (meter_from meter.new) }
    ensures answer { result ≡ meter_code (second_check (meter_from meter.old) (now / SECOND)) }
    ensures unchanged { (result ≡ pos 0 → ⊥) → meter.new ≡ meter.old }
{
    let mut kept = TrafficMeter::of_parts(*meter);
    match kept.went(bytes, now) {
        Ok(()) => {
            *meter = kept.parts();
            0
        }
        Err(_) => SECOND_IS_PAST,
    }
}

/// Tells how much went in the whole second before this time's.
#[unsafe(no_mangle)]
pub extern "C" fn tribes_meter_told(meter: &MeterParts, now: u64, traffic: &mut Traffic) -> i32
    ensures told { result ≡ pos 0 → Answers StandsFor (meter_from meter.now) (traffic_before (now / SECOND)) traffic.new }
    ensures answer { result ≡ meter_code (second_check (meter_from meter.now) (now / SECOND)) }
    ensures unchanged { (result ≡ pos 0 → ⊥) → traffic.new ≡ traffic.old }
{
    let kept = TrafficMeter::of_parts(*meter);
    match kept.in_last_second(now) {
        Ok(found) => {
            *traffic = found;
            0
        }
        Err(_) => SECOND_IS_PAST,
    }
}
