//! A timeline behind a handle: made, freed, and told what came.
ghost use Rattle.std.specs.Prelude.{◌≡◌, ◌↔◌, pos, IsSome, IsNone, IfSome, IfOk, IsTrue, [], map, length};
ghost use Rattle.std.specs.List.{list_any};
ghost use Rattle.std.specs.declared.option.Option.TheVariants.{Some};
ghost use Rattle.timeline.specs.Shapes.{IsSound};
ghost use Rattle.timeline.specs.Standing.{StandsFor};
ghost use Rattle.tribes_link.specs.declared.held_timeline.HeldTimeline.{HeldTimeline};
ghost use Rattle.tribes_link.specs.Drawing.{shape_of, way_of, is_way, is_no_way, HasShape, Opens};

use crate::answering::NO_MEMORY;
use crate::held::Loose;
use crate::held_timeline::HeldTimeline;
use crate::timeline_answers::{BAD_SHAPE, BAD_WAY, HAS_TIMELINE, NO_TIMELINE};
use std::alloc::Global;
use std::mem;
use timeline::{Interpolation, Shape, Timeline, USUAL_DEPTH};
use tn_types::NoMemory;

/// What the first number of a handle is if a timeline is behind it.
pub const OPEN_TIMELINE: u32 = 1_414_090_053;

/// A handle: filled with zeros it has no timeline.
#[repr(C)]
#[derive(Drop)]
pub struct TimelineHandle {
    pub(crate) state: u32,
    pub(crate) held: HeldTimeline,
    ghost open: { state ≡ 1414090053 → IsSome held.value },
}

impl TimelineHandle {
    /// Whether a timeline is behind it.
    pub fn is_open(&self) -> bool
        ensures { IsTrue result ↔ (self.now.state ≡ OPEN_TIMELINE) }
    {
        self.state == OPEN_TIMELINE
    }

    /// Takes the timeline out of the handle.
    pub fn take(&mut self, alloc: Global) -> Option<Box<Timeline>>
        ensures open { IsSome result ↔ (self.old.state ≡ OPEN_TIMELINE) }
        ensures taken { IfSome result (λ t. self.old.held.value ≡ Some t.value) }
        ensures empty { self.new.state ≡ OPEN_TIMELINE → ⊥ }
        ensures unchanged { IsNone result → self.new ≡ self.old }
    {
        if self.state != OPEN_TIMELINE {
            return None;
        }
        let none = TimelineHandle {
            state: 0,
            held: HeldTimeline::none(alloc),
        };
        let TimelineHandle { state: _, held } = mem::replace(self, none);
        let timeline = held.into_loose().into_box();
        Some(timeline)
    }

    /// Puts a timeline into the handle.
    pub fn put(&mut self, timeline: Box<Timeline>)
        ensures open { self.new.state ≡ OPEN_TIMELINE }
        ensures held { self.new.held.value ≡ Some timeline.value }
    {
        *self = TimelineHandle {
            state: OPEN_TIMELINE,
            held: HeldTimeline::of(Loose::of(timeline)),
        };
    }
}

/// How large a timeline is: slots, fields of the kind that has most, and keyframes of each field. A depth of 0 stands for the usual one.
#[repr(C)]
#[derive(Clone, Copy)]
pub struct ShapeRow {
    pub slots: u32,
    pub fields: u32,
    pub depth: u32,
}

/// How a field goes: 0 stepped, 1 linear, 2 turning from `least` to `most`.
#[repr(C)]
#[derive(Clone, Copy)]
pub struct WayRow {
    pub how: u32,
    pub least: i32,
    pub most: i32,
}

/// The shape of these numbers.
fn shape_of(row: &ShapeRow) -> Shape
    ensures { result ≡ shape_of row.now }
{
    let depth = if row.depth == 0 {
        USUAL_DEPTH
    } else {
        row.depth as usize
    };
    Shape {
        slots: row.slots as usize,
        fields: row.fields as usize,
        depth,
    }
}

/// How a field of these numbers goes.
fn way_of(row: &WayRow) -> Interpolation
    ensures { result ≡ way_of row.now }
{
    match row.how {
        1 => Interpolation::Linear,
        2 => Interpolation::Turning {
            least: row.least,
            most: row.most,
        },
        _ => Interpolation::Stepped,
    }
}

/// Whether a field can go so.
fn is_way(row: &WayRow) -> bool
    ensures { result ≡ is_way row.now }
{
    match row.how {
        0 => true,
        1 => true,
        2 => row.least <= row.most,
        _ => false,
    }
}

/// Whether a field can't.
fn has_no_way(rows: &[WayRow]) -> bool
    ensures { result ≡ list_any is_no_way rows.now }
{
    'rows: for row in rows {
        if !is_way(row) {
            return true;
        }
    }
    false
}

/// How the fields go, as a list of its own.
fn ways_of(alloc: Global, rows: &[WayRow]) -> Result<Vec<Interpolation>, NoMemory>
    ensures { IfOk result (λ v. v.items ≡ map way_of rows.now) }
{
    let mut ways = Vec::new(alloc);
    'rows: for row in rows {
        let Ok(()) = ways.push(way_of(row)) else {
            return Err(NoMemory);
        };
    }
    Ok(ways)
}

/// A timeline of these numbers.
fn timeline_of(alloc: Global, shape: Shape, rows: &[WayRow]) -> Result<Box<Timeline>, NoMemory>
    requires { IsSound shape }
    ensures log { IfOk result (λ t. StandsFor t.value []) }
    ensures shape { IfOk result (λ t. HasShape shape rows.now t.value) }
{
    let Ok(ways) = ways_of(alloc, rows) else {
        return Err(NoMemory);
    };
    let Ok(timeline) = Timeline::new(alloc, shape, ways.as_slice()) else {
        return Err(NoMemory);
    };
    match Box::new(alloc, timeline) {
        Ok(boxed) => Ok(boxed),
        Err(_) => Err(NoMemory),
    }
}

/// Makes a timeline.
#[unsafe(no_mangle)]
pub extern "C" fn tribes_timeline_open(
    alloc: Global,
    timeline: &mut TimelineHandle,
    shape: &ShapeRow,
    ways: &[WayRow],
) -> i32
    ensures begins { result ≡ pos 0 → IfSome timeline.new.held.value (λ t. StandsFor t []) }
    ensures shape { result ≡ pos 0 → IfSome timeline.new.held.value (HasShape (shape_of shape.now) ways.now) }
    ensures some { result ≡ pos 0 → IsSome timeline.new.held.value }
    ensures has_timeline { timeline.old.state ≡ OPEN_TIMELINE → result ≡ HAS_TIMELINE }
    ensures answer { (timeline.old.state ≡ OPEN_TIMELINE → ⊥) → Opens (shape_of shape.now) ways.now result }
    ensures unchanged { (result ≡ pos 0 → ⊥) → timeline.new ≡ timeline.old }
{
    if timeline.is_open() {
        return HAS_TIMELINE;
    }
    let wanted = shape_of(shape);
    if !wanted.is_sound() {
        return BAD_SHAPE;
    }
    if has_no_way(ways) {
        return BAD_WAY;
    }
    match timeline_of(alloc, wanted, ways) {
        Ok(made) => {
            timeline.put(made);
            0
        }
        Err(_) => NO_MEMORY,
    }
}

/// Frees a timeline.
#[unsafe(no_mangle)]
pub extern "C" fn tribes_timeline_free(alloc: Global, timeline: &mut TimelineHandle) -> i32
    ensures freed { (result ≡ pos 0) ↔ (timeline.old.state ≡ OPEN_TIMELINE) }
    ensures closed { (timeline.old.state ≡ OPEN_TIMELINE → ⊥) → result ≡ NO_TIMELINE }
    ensures empty { timeline.new.state ≡ OPEN_TIMELINE → ⊥ }
{
    match timeline.take(alloc) {
        Some(_) => 0,
        None => NO_TIMELINE,
    }
}
