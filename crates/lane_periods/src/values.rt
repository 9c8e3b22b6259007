//! The values of a packer's seat as packs ask for them.
ghost use Rattle.std.specs.Prelude.{◌≡◌, ℤ, ◌≤ℤ◌, IsTrue};
ghost use Rattle.quantised_fields.specs.Levels.{is_sound};
ghost use Rattle.lane_periods.specs.Views.{value_in};

use crate::periods::Periods;
use dirty_lanes::{LaneName, Lanes, PackSeat};
use quantised_fields::FieldSpec;
use tn_types::{Read, Values};

/// What is read for the shown periods of a connection, through the seat that is lent.
#[derive(Drop)]
pub struct SeatValues<'a, N: LaneName> {
    pub lanes: &'a Lanes<N>,
    pub seat: &'a mut PackSeat<N>,
    pub periods: &'a Periods,
}

// What a word of the lanes says of the field.
fn value_in(spec: &FieldSpec, word: u32) -> i64
    requires order { spec.now.lo ≤ℤ spec.now.hi }
    ensures value { result ≡ value_in spec.now word }
    ensures least { spec.now.lo ≤ℤ result }
    ensures greatest { result ≤ℤ spec.now.hi }
{
    let range = spec.hi.abs_diff(spec.lo);
    spec.lo + u64::from(word).min(range) as i64
}

impl<'a, N: LaneName> Values for SeatValues<'a, N> {
    ghost use Rattle.std.specs.Prelude.{◌≡◌, refl};
    ghost use Rattle.lane_periods.specs.Views.{ranges as ranges_of, ReadsOnto};
    ghost use Rattle.lane_periods.specs.Reading.{reads_none, reads_more};
    ghost use Rattle.std.proofs.Common.{◌∙◌};

    ghost ranges = { λ s n f. ranges_of s.lanes.now.objects s.periods.now n f };

    ghost asks = { λ a reads b. (b.seat.ghost_name ≡ a.seat.ghost_name) × (b.lanes.now ≡ a.lanes.now) × (b.periods.now ≡ a.periods.now)
        × (b.seat.now.client ≡ a.seat.now.client) × ReadsOnto a.periods.now a.seat.now.steps reads b.seat.now.steps };

    fn value(&mut self, n: u32, field: u8) -> Read {
        self.periods.are_periods();
        let Some(spec) = self.periods.spec(n, field) else {
            unreachable!()
        };
        let object = self.periods.object(n);
        let (version, word) = self.seat.read(self.lanes, object, field);
        Read {
            n,
            field,
            version,
            value: value_in(spec, word),
        }
    }

    ghost asks_none = { λ x. (refl, refl, refl, refl, reads_none x.periods.now x.seat.now.steps) };

    ghost asks_more = { λ x y z first later p q. (
      q.0 ∙ p.0,
      q.1 ∙ p.1,
      q.2 ∙ p.2,
      q.3 ∙ p.3,
      reads_more x.periods.now y.periods.now x.seat.now.steps y.seat.now.steps z.seat.now.steps first later p.2 p.4 q.4,
    ) };

    ghost asks_ranges = { λ x y reads n f p j. ranges_of (p.1 j).objects (p.2 j) n f };
}
