//! The events of a packet by their whole numbers, of which a packet of version 2 or 3 has the lowest bits alone.
ghost use Rattle.std.specs.Prelude.{◌≡◌, ◌+◌, ◌<◌, ◌≤◌, [], Ok, All, length};
ghost use Rattle.event_manager.specs.ReceiverStands.{TakesIn, HandsOver};
ghost use Rattle.event_manager.specs.ReceiverState.{event_count};
ghost use Rattle.event_manager.specs.Receiving.{take_answer};
ghost use Rattle.event_manager.specs.declared.TheConstants.{MAX_DELIVERED_BEFORE};
ghost use Rattle.wire_format.specs.Events.{IsEventInRange};
ghost use Rattle.stream_manager.specs.Wire.{whole_events};

use crate::config::Config;
use event_manager::{EventAhead, EventReceiver};
use wire_format::EventList;

/// Whether an event of a packet is too far ahead; nothing changes.
pub(crate) fn check_events(
    receiver: &EventReceiver,
    config: &Config,
    events: &EventList,
) -> Result<(), EventAhead>
    requires numbers { All (IsEventInRange config.now.version) events.now }
    ensures answer { result ≡ take_answer receiver.now.delivered (whole_events config.now receiver.now.delivered events.now) }
{
    if config.version >= 2 {
        receiver.check_low(events)
    } else {
        receiver.check(events)
    }
}

/// Takes the events of a packet, none of which is too far ahead. No event may wait.
pub(crate) fn take_events(receiver: &mut EventReceiver, config: &Config, events: &EventList)
    requires none_waits { receiver.old.ready ≡ [] }
    requires numbers { All (IsEventInRange config.now.version) events.now }
    requires few { receiver.old.delivered < MAX_DELIVERED_BEFORE }
    requires near { take_answer receiver.old.delivered (whole_events config.now receiver.old.delivered events.now) ≡ Ok tt }
    ensures stands { TakesIn receiver.old (whole_events config.now receiver.old.delivered events.now) receiver.new }
    ensures handed { HandsOver receiver.old (whole_events config.now receiver.old.delivered events.now) receiver.new }
    ensures grown { event_count receiver.new ≤ event_count receiver.old + length events.now }
{
    let _ = if config.version >= 2 {
        receiver.take_low(events)
    } else {
        receiver.take(events)
    };
}
