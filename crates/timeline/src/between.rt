//! A value between two that came.
ghost use Rattle.std.specs.Prelude.{◌%◌, ◌+ℤ◌, ◌≡◌, ◌≤◌, ◌<◌, ◌+◌, ◌-◌, ◌*◌, ◌^◌, ◌≤ℤ◌, pos, IsTrue, ◌↔◌};
ghost use Rattle.std.specs.Int.{int_gap};
ghost use Rattle.timeline.specs.Lines.{share, on_line, on_circle, turned, is_inside, size_of, way_up, IsInside, moment_of};
ghost use Rattle.timeline.specs.Between.{part_way, between};

use tn_types::MAX_LIFE;

/// Moments to a packet: a moment is a packet's number in this fixed point, so that packet n has the moment `n * MOMENTS`.
pub const MOMENTS: u64 = 256;

/// How a field goes from one value to the next.
#[derive(Clone, Copy)]
pub enum Interpolation {
    /// It stays, and is the next value at once when its packet's moment comes.
    Stepped,
    /// Along a line.
    Linear,
    /// Along a circle of all values from `least` to `most`, the short way round, upwards if both ways are as long. A value that is not
    /// from `least` to `most` stays, and what comes after it comes at once.
    Turning { least: i32, most: i32 },
}

/// A value that came, and the number of the packet that brought it.
#[derive(Clone, Copy)]
pub struct Keyframe {
    /// From 1 to `MAX_LIFE`.
    pub packet: u32,
    pub value: i32,
}

/// The moment of a packet.
pub fn moment(packet: u32) -> u64
    ensures value { result ≡ moment_of packet }
    ensures small { packet ≤ MAX_LIFE → result < 2 ^ 32 }
{
    packet as u64 * MOMENTS
}

// How far the second value is above the first.
fn gap(from: i32, to: i32) -> u64
    requires { from ≤ℤ to }
    ensures value { result ≡ int_gap from to }
    ensures small { result < 2 ^ 32 }
{
    (to as i64 - from as i64) as u64
}

// A part of a distance, cut.
fn share(distance: u64, part: u64, whole: u64) -> u64
    requires distance { distance < 2 ^ 32 }
    requires part { part < whole }
    requires whole { whole < 2 ^ 32 }
    ensures value { result ≡ share distance part whole }
    ensures within { result ≤ distance }
{
    distance * part / whole
}

// Along a line from one value to another.
fn on_line(from: i32, to: i32, part: u64, whole: u64) -> i64
    requires part { part < whole }
    requires whole { whole < 2 ^ 32 }
    ensures { result ≡ on_line from to part whole }
{
    if from <= to {
        from as i64 + share(gap(from, to), part, whole) as i64
    } else {
        from as i64 - share(gap(to, from), part, whole) as i64
    }
}

// How many values the circle has.
fn size(least: i32, most: i32) -> u64
    requires { least ≤ℤ most }
    ensures value { result ≡ size_of least most }
    ensures small { result ≤ 2 ^ 32 }
{
    gap(least, most) + 1
}

// How far it is from one value up to the other.
fn way_up(least: i32, most: i32, from: i32, to: i32) -> u64
    requires from { IsInside least most from }
    requires to { IsInside least most to }
    requires order { least ≤ℤ most }
    ensures value { result ≡ way_up least most from to }
    ensures within { result < size_of least most }
{
    let size = size(least, most);
    (gap(least, to) + size - gap(least, from)) % size
}

// The value that is so many steps above the least one, round the circle.
fn raised(least: i32, steps: u64, size: u64) -> i64
    requires size { size ≤ 2 ^ 32 }
    requires some { 0 < size }
    ensures { result ≡ least +ℤ pos (steps % size) }
{
    let left = steps % size;
    least as i64 + left as i64
}

// Along a circle, the short way round.
fn on_circle(least: i32, most: i32, from: i32, to: i32, part: u64, whole: u64) -> i64
    requires from { IsInside least most from }
    requires to { IsInside least most to }
    requires order { least ≤ℤ most }
    requires part { part < whole }
    requires whole { whole < 2 ^ 32 }
    ensures { result ≡ on_circle least most from to part whole }
{
    let size = size(least, most);
    let up = way_up(least, most, from, to);
    let at = gap(least, from);
    if 2 * up <= size {
        return raised(least, at + share(up, part, whole), size);
    }
    let back = share(size - up, part, whole);
    raised(least, at + size - back, size)
}

// Whether the circle has the value.
fn is_inside(least: i32, most: i32, value: i32) -> bool
    ensures value { result ≡ is_inside least most value }
    ensures inside { IsTrue result → IsInside least most value }
    ensures order { IsTrue result → least ≤ℤ most }
{
    least <= value && value <= most
}

// The same where both values are on the circle, else the first one.
fn turned(least: i32, most: i32, from: i32, to: i32, part: u64, whole: u64) -> i64
    requires part { part < whole }
    requires whole { whole < 2 ^ 32 }
    ensures { result ≡ turned least most from to part whole }
{
    let starts = is_inside(least, most, from);
    let ends = is_inside(least, most, to);
    if starts && ends {
        return on_circle(least, most, from, to, part, whole);
    }
    from as i64
}

// The value at a part of the way.
fn part_way(how: Interpolation, from: i32, to: i32, part: u64, whole: u64) -> i64
    requires part { part < whole }
    requires whole { whole < 2 ^ 32 }
    ensures { result ≡ part_way how from to part whole }
{
    match how {
        Interpolation::Stepped => from as i64,
        Interpolation::Linear => on_line(from, to, part, whole),
        Interpolation::Turning { least, most } => turned(least, most, from, to, part, whole),
    }
}

/// The value at a moment between two keyframes.
pub fn between(how: Interpolation, before: Keyframe, after: Keyframe, at: u64) -> i64
    requires reached { moment_of before.packet ≤ at }
    requires ahead { at < moment_of after.packet }
    requires life { after.packet ≤ MAX_LIFE }
    ensures { result ≡ between how before after at }
{
    let first = moment(before.packet);
    let whole = moment(after.packet) - first;
    part_way(how, before.value, after.value, at - first, whole)
}
