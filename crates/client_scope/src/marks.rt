//! What a scan saw, as a mark for each object.
ghost use Rattle.std.specs.Prelude.{◌≡◌, ◌<◌, ◌≤◌, length, map};
ghost use Rattle.std.specs.List.{All};
ghost use Rattle.std.specs.List.Sorted.{IsStrictlyIncreasing};
ghost use Rattle.client_scope.specs.Marks.{marked, AreOf};

use tn_types::{MAX_DISTANCE_LEVEL, MAX_OBJECTS};
use world_scope::Seen;

// The level that the marks tell of an object.
pub(crate) fn marked(marks: &[u8], object: u32) -> Option<u8>
    requires { object < length marks.now }
    ensures { result ≡ marked marks.now object }
{
    let mark = marks[object as usize];
    if mark == 0 { None } else { Some(mark - 1) }
}

// Marks what a scan saw, and nothing else.
pub(crate) fn mark_all(marks: &mut [u8], seen: &[Seen])
    requires room { length marks.old ≡ MAX_OBJECTS }
    requires there { All (λ s. s.object < MAX_OBJECTS) seen.now }
    requires levels { All (λ s. s.level ≤ MAX_DISTANCE_LEVEL) seen.now }
    requires rising { IsStrictlyIncreasing (map (λ s. s.object) seen.now) }
    ensures room { length marks.new ≡ MAX_OBJECTS }
    ensures marks { AreOf seen.now marks.new }
{
    marks.fill(0);
    for s in seen {
        marks[s.object as usize] = s.level + 1;
    }
}
