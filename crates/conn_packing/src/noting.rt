//! A source of values that notes what it is asked.

use tn_types::{Read, Values};

/// Another source, and the list in which each read is noted that is asked of it. The list has to have room: a packet has at most
/// `MAX_PACKET_VALUES` reads.
#[derive(Drop)]
pub struct Noting<'a, V: Values> {
    /// The source.
    pub values: &'a mut V,
    /// What was read, the oldest first.
    pub noted: &'a mut Vec<Read>,
}

impl<'a, V: Values> Values for Noting<'a, V> {
    ghost use Rattle.std.specs.Prelude.{◌≡◌, refl, vec_capacity};
    ghost use Rattle.std.proofs.Common.{◌∙◌};
    ghost use Rattle.conn_packing.specs.Noted.{AreNoted, noted_none, noted_more};

    ghost ranges = { λ s n f. V.ranges s.values.now n f };

    ghost asks = { λ a reads b. (b.values.ghost_name ≡ a.values.ghost_name) × (b.noted.ghost_name ≡ a.noted.ghost_name)
        × V.asks a.values.now reads b.values.now × (vec_capacity b.noted.now ≡ vec_capacity a.noted.now)
        × AreNoted (vec_capacity a.noted.now) a.noted.now.items reads b.noted.now.items };

    fn value(&mut self, n: u32, field: u8) -> Read {
        let read = self.values.value(n, field);
        if self.noted.len() < self.noted.capacity() {
            self.noted.push_reserved(read);
        }
        read
    }

    ghost asks_none = { λ x. (refl, refl, V.asks_none x.values.now, refl, noted_none (vec_capacity x.noted.now) x.noted.now.items) };

    ghost asks_more = { λ x y z first later p q. (
      q.0 ∙ p.0,
      q.1 ∙ p.1,
      V.asks_more x.values.now y.values.now z.values.now first later p.2 q.2,
      q.3 ∙ p.3,
      noted_more (vec_capacity x.noted.now) (vec_capacity y.noted.now) x.noted.now.items y.noted.now.items z.noted.now.items first later
          p.3 p.4 q.4,
    ) };

    ghost asks_ranges = { λ x y reads n f p. V.asks_ranges x.values.now y.values.now reads n f p.2 };
}
