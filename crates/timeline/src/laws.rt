//! What holds of the value at every moment.
ghost use Rattle.timeline.specs.Laws.{ValueIsBetween, OwnMomentIsItsValue, NewestStays, WindowIsEnough};

/// If a moment lies between two values that came, so does its value: of a stepped field it is the first one, of a linear one it lies
/// between both, of a turning one on the short way from one to the other.
pub fn value_is_between()
    ensures { ValueIsBetween }
{}

/// At the moment of a packet that brought a value, it is exactly that value.
pub fn moment_of_a_packet_is_its_value()
    ensures { OwnMomentIsItsValue }
{}

/// From the moment of the newest value on, it is that value.
pub fn newest_value_stays()
    ensures { NewestStays }
{}

/// The newest values alone are enough for each moment that has reached one of them: with them the value is what all values make of it.
pub fn window_is_enough()
    ensures { WindowIsEnough }
{}
