//! What holds of offsets.
ghost use Rattle.fading_offset.specs.Laws.{NoCorrection, OffsetSettles};

/// What was predicted rightly is no correction: from a value to itself the offset stays.
pub fn no_correction_changes_nothing()
    ensures { NoCorrection }
{}

/// After 56 steps or more, with no correction between, nothing is left of the offset.
pub fn offset_settles()
    ensures { OffsetSettles }
{}
