//! What is asked of a list of entries.
ghost use Rattle.std.specs.Prelude.{◌≡◌, ◌&&◌, count_by, find};
ghost use Rattle.std.specs.List.{list_any};
ghost use Rattle.std.specs.Option.{option_copied};
ghost use Rattle.ghost_model.specs.Phases.{is_up};
ghost use Rattle.ghost_scope.specs.Table.{in_control, slot_in};

use crate::period::Period;
use ghost_model::Phase;

/// The slot of an entry that doesn't wait.
pub(crate) fn slot_held(entry: Option<&Period>) -> Option<u8>
    ensures { result ≡ slot_in (option_copied entry.entry) }
{
    let entry = entry?;
    match entry.phase {
        Phase::Waiting => None,
        _ => Some(entry.slot),
    }
}

/// The first entry that controls.
pub(crate) fn first_in_control(entries: &[Period]) -> Option<Period>
    ensures { result ≡ find in_control entries.now }
{
    entries
        .iter()
        .copied()
        .find(|entry| entry.control && entry.phase.is_live())
}

/// How many of the entries are not hidden.
pub(crate) fn count_entries(entries: &[Period]) -> usize
    ensures { result ≡ count_by (λ e. is_up e.phase) entries.now }
{
    entries.iter().filter(|entry| entry.phase.is_up()).count()
}

/// Whether one of the entries was shown with control and is not hidden.
pub(crate) fn any_control(entries: &[Period]) -> bool
    ensures { result ≡ list_any (λ e. e.control && is_up e.phase) entries.now }
{
    entries
        .iter()
        .any(|entry| entry.control && entry.phase.is_up())
}
