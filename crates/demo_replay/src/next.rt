//! Walking over the records.
ghost use Rattle.std.specs.Prelude.{◌≡◌, ◌≤◌, length, drop, IfSome, IfNone, None};
ghost use Rattle.demo_format.specs.Records.{front_length};
ghost use Rattle.demo_replay.specs.Walking.{IsNext};

use demo_format::front_length;

/// The record that stands whole at a place of the bytes after a head, if one does.
pub fn next_record(bytes: &[u8], start: usize) -> Option<&[u8]>
    requires { start ≤ length bytes.now }
    ensures some { IfSome result (λ next. IsNext bytes.now start next.now) }
    ensures none { IfNone result (front_length (drop start bytes.now) ≡ None) }
{
    let (_, rest) = bytes.split_at(start);
    let size = front_length(rest)?;
    let (_, from) = rest.split_at(2);
    let (next, _) = from.split_at(size);
    Some(next)
}
