//! What one line adds to the counts.
ghost use Rattle.std.specs.Prelude.{◌≡◌, ℕ, ◌<◌, ◌≤◌, ◌+◌, count_by, length};
ghost use Rattle.match_script.specs.declared.limits.TheConstants.{MAX_BODY_LINES as MOST_LINES};
ghost use Rattle.match_count.specs.Counting.{is_guaranteed, with_line};
ghost use Rattle.match_count.specs.Bounds.{AreAfter};

use crate::counts::Counts;
use match_report::{EventTold, Told, Way};
use stream_manager::{ArriveFault, ClientFault};
use tn_types::{Class, End, PacketKind};

fn is_guaranteed(class: Class) -> bool
    ensures { result ≡ is_guaranteed class }
{
    match class {
        Class::Guaranteed => true,
        Class::Loose => false,
    }
}

// How many of these are guaranteed.
fn guaranteed_of(events: &[EventTold]) -> u64
    ensures value { result ≡ count_by (λ e. is_guaranteed e.class) events.now }
    ensures few { result ≤ length events.now }
{
    let mut count = 0u64;
    'events: for event in events {
        if is_guaranteed(event.class) {
            count += 1;
        }
    }
    count
}

/// One line more.
pub(crate) fn add(counts: &mut Counts, told: &Told)
    requires { (lines : ℕ) × (lines < MOST_LINES) × AreAfter lines counts.old }
    ensures counts { counts.new ≡ with_line counts.old told.now }
    ensures bounds { (lines : ℕ) → AreAfter lines counts.old → AreAfter (lines + 1) counts.new }
{
    match told {
        Told::Packed {
            by: End::Server,
            kind,
            bytes,
            ..
        } => {
            match kind {
                PacketKind::Ping => counts.pings += 1,
                PacketKind::Body => counts.data_packets += 1,
            }
            counts.bytes += bytes.as_slice().len() as u64;
        }
        Told::Came {
            way: Way::Down,
            events,
            ..
        } => {
            counts.down += 1;
            counts.events += guaranteed_of(events.as_slice());
        }
        Told::Came {
            way: Way::Up,
            moves,
            ..
        } => counts.moves += u64::from(*moves),
        Told::ServerRefused {
            way: Way::Up,
            fault: ArriveFault::Old { .. },
            ..
        } => counts.old_packets += 1,
        Told::ClientRefused {
            fault: ClientFault::Old { .. },
            ..
        } => counts.old_packets += 1,
        _ => {}
    }
}
