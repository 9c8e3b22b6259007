ghost use Rattle.std.specs.Prelude.{◌≡◌, ◌+◌, ◌*◌, ◌^◌, ◌<◌, ◌++◌};
ghost use Rattle.bit_stream.specs.Bits.{number};

use tn_types::MAX_WORD_BITS;

/// `count` bits that are the number `pending`, and after them the `width` bits of `value`.
pub fn joined(pending: u64, count: u32, value: u32, width: u32) -> u64
    requires below { pending < 2 ^ count }
    requires few { count + width < 2 * MAX_WORD_BITS }
    requires fits { value < 2 ^ width }
    ensures bits { number (count + width) result ≡ number count pending ++ number width value }
    ensures below { result < 2 ^ (count + width) }
{
    pending + (u64::from(value) << count)
}
