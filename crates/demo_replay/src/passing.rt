//! A record whose events nobody wants.
ghost use Rattle.std.specs.Prelude.{◌≡◌, ◌≤◌, ◌+◌, [], length};
ghost use Rattle.demo_view.specs.Viewing.{taking};
ghost use Rattle.demo_view.specs.Stands.{terms_of};
ghost use Rattle.demo_view.specs.Calls.{Becomes};

use demo_view::Viewer;
use std::sync::ledger::Ledger;
use tn_types::{MAX_READ_BYTES, Steps};

/// Lets the events go that wait.
fn drop_events(viewer: &mut Viewer)
    ensures none { viewer.new.events.ready ≡ [] }
    ensures stands { Becomes viewer.old (λ packets. packets) viewer.new }
    ensures terms { terms_of viewer.new ≡ terms_of viewer.old }
{
    'out: while let Some(_event) = viewer.pop_event() {}
}

/// The viewer is given a record, whose events are let go. No event may wait, and none does then.
pub(crate) fn pass_by(viewer: &mut Viewer, record_bytes: &[u8])
    requires few { length record_bytes.now ≤ MAX_READ_BYTES }
    requires quiet { viewer.old.events.ready ≡ [] }
    ensures stands { Becomes viewer.old (taking (terms_of viewer.old) record_bytes.now) viewer.new }
    ensures terms { terms_of viewer.new ≡ terms_of viewer.old }
    ensures quiet { viewer.new.events.ready ≡ [] }
{
    let _ = viewer.take(record_bytes);
    drop_events(viewer);
}

/// The same, as one step: whoever goes over records of a demo from outside counts each.
pub fn pass_over<L: Ledger>(viewer: &mut Viewer, record_bytes: &[u8], steps: &mut Steps<L>)
    requires few { length record_bytes.now ≤ MAX_READ_BYTES }
    requires quiet { viewer.old.events.ready ≡ [] }
    ensures stands { Becomes viewer.old (taking (terms_of viewer.old) record_bytes.now) viewer.new }
    ensures terms { terms_of viewer.new ≡ terms_of viewer.old }
    ensures quiet { viewer.new.events.ready ≡ [] }
    ensures steps { steps.new ≡ steps.old + 1 }
{
    let _ = viewer.take_counted(record_bytes, steps);
    drop_events(viewer);
}
