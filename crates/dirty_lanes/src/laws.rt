//! What masks and views mean, bit by bit.

ghost use Rattle.std.specs.Prelude.{ℕ, ◌≡◌, ◌<◌, ◌↔◌, true, false, List, ◌∷◌, Any, IsBitSet};
ghost use Rattle.tn_types.specs.BitWords.{has_bit};
ghost use Rattle.dirty_lanes.specs.declared.limits.TheConstants.{MAX_LANE_FIELDS};
ghost use Rattle.dirty_lanes.specs.declared.view.SimStep.{SimStep};
ghost use Rattle.dirty_lanes.specs.declared.view.PackStep.{PackStep};
ghost use Rattle.dirty_lanes.specs.declared.view.PackView.{PackView};
ghost use Rattle.dirty_lanes.specs.Words.{Words, mask_at};
ghost use Rattle.dirty_lanes.specs.Log.{LaneEvent, raised_since_drain, mask_of};
ghost use Rattle.dirty_lanes.specs.Views.{newest, pending, last_read, owes, a_write, a_raise, a_drain, a_read};
ghost use Rattle.dirty_lanes.specs.Named.{IsHeard};

/// A client has a field's bit exactly where some raise since its last drain of the object had that bit.
pub fn each_bit_was_raised()
    ensures { (log : List LaneEvent) (client object field : ℕ) → IsBitSet (mask_of log client object) field
        ↔ Any (λ bits. IsBitSet bits field) (raised_since_drain log client object) }
{}

/// What was raised before a write doesn't count for it: the field is pending for every client.
pub fn write_is_pending()
    ensures { (sim : List SimStep) (client object field value : ℕ) → pending (a_write object field value ∷ sim) client object field ≡ true }
{}

/// A raise with the field's bit after the write does.
pub fn raise_tells()
    ensures { (sim : List SimStep) (client object field bits : ℕ) → has_bit bits field ≡ true
        → pending (a_raise client object bits ∷ sim) client object field ≡ false }
{}

/// A packer that drains an object and then reads a field of it owes that field no more.
pub fn read_pays()
    ensures { (pack : List PackStep) (object field bits version value : ℕ)
        → owes (a_read object field version value ∷ a_drain object bits ∷ pack) object field ≡ false }
{}

/// Where the lanes have ended, a field that is neither owed nor pending was read newest, or the client's bit is set.
pub fn newest_was_read()
    ensures { (sim : List SimStep) (words : Words) (pack : PackView) (object field : ℕ) → IsHeard sim words pack
        → field < MAX_LANE_FIELDS → object < words.objects
        → owes pack.steps object field ≡ false → pending sim pack.client object field ≡ false
        → has_bit (mask_at words pack.client object) field ≡ false → last_read pack.steps object field ≡ newest sim object field }
{}
