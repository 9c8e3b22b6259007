//! The events of a packet by their whole numbers, of which a packet has the lowest bits alone from version 2 on.
ghost use Rattle.std.specs.Prelude.{◌≡◌, ℕ, ◌+◌, ◌<◌, ◌≤◌, [], Ok, All, OnOk, length, if◌then◌else◌};
ghost use Rattle.event_manager.specs.Low.{whole_items};
ghost use Rattle.event_manager.specs.ReceiverStands.{TakesIn, HandsOver};
ghost use Rattle.event_manager.specs.ReceiverState.{event_count};
ghost use Rattle.event_manager.specs.Receiving.{take_answer};
ghost use Rattle.event_manager.specs.declared.TheConstants.{MAX_DELIVERED_BEFORE};
ghost use Rattle.wire_format.specs.Events.{IsEventInRange, is_low};
ghost use Rattle.stream_manager.specs.Faults.{events_at_client};
ghost use Rattle.demo_view.specs.Viewing.{as_client};

use crate::fault::ViewFault;
use event_manager::{EventAhead, EventReceiver};
use wire_format::EventList;

/// Whether an event of a packet is too far ahead; nothing changes.
pub(crate) fn check_events(
    receiver: &EventReceiver,
    version: u8,
    events: &EventList,
) -> Result<(), ViewFault>
    requires numbers { All (IsEventInRange version) events.now }
    ensures answer { as_client result ≡ events_at_client (take_answer receiver.now.delivered
        (if is_low version then whole_items receiver.now.delivered events.now else events.now)) }
    ensures near { OnOk result (take_answer receiver.now.delivered
        (if is_low version then whole_items receiver.now.delivered events.now else events.now) ≡ Ok tt) }
{
    let answer = if version >= 2 {
        receiver.check_low(events)
    } else {
        receiver.check(events)
    };
    match answer {
        Ok(()) => Ok(()),
        Err(EventAhead { number, delivered }) => Err(ViewFault::EventAhead { number, delivered }),
    }
}

/// Takes the events of a packet, none of which is too far ahead. No event may wait.
pub(crate) fn take_events(receiver: &mut EventReceiver, version: u8, events: &EventList)
    requires none_waits { receiver.old.ready ≡ [] }
    requires numbers { All (IsEventInRange version) events.now }
    requires few { receiver.old.delivered < MAX_DELIVERED_BEFORE }
    requires near { take_answer receiver.old.delivered
        (if is_low version then whole_items receiver.old.delivered events.now else events.now) ≡ Ok tt }
    ensures stands { TakesIn receiver.old
        (if is_low version then whole_items receiver.old.delivered events.now else events.now) receiver.new }
    ensures handed { HandsOver receiver.old
        (if is_low version then whole_items receiver.old.delivered events.now else events.now) receiver.new }
    ensures grown { event_count receiver.new ≤ event_count receiver.old + length events.now }
{
    let _ = if version >= 2 {
        receiver.take_low(events)
    } else {
        receiver.take(events)
    };
}
