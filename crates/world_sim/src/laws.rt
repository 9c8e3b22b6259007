//! What holds of every match, whatever its moves.
ghost use Rattle.std.specs.Prelude.{ℕ, List, Option};
ghost use Rattle.world_sim.specs.Worlds.{first_world};
ghost use Rattle.world_sim.specs.History.{world_after, worlds, values_by_version, AreValuesOf};

use tn_types::MoveBits;
use world_rules::Setup;

/// Over the worlds of a match the newest of a field's values is the world's, and their number less 1 the field's version.
pub fn versions_count_values()
    ensures { (seed : ℕ) → (setup : Setup) → (log : List (List (Option MoveBits))) → (object field : ℕ) → AreValuesOf
        (world_after (first_world seed setup) log) object field (values_by_version (worlds (first_world seed setup) log) object field) }
{}
