//! The two ends of a link, how long a tag is, and whether two tags are one.
ghost use Rattle.std.specs.Prelude.{◌≡◌, ◌≤◌, length, Decides};
ghost use Rattle.datagram_tags.specs.Tagging.{other, side_byte, tag_bytes};

/// An end of a link, and so the way of what it sends.
#[derive(Clone, Copy)]
pub enum Side {
    Client,
    Server,
}

impl Side {
    /// The end that it speaks with.
    pub fn other(self) -> Side
        ensures { result ≡ other self }
    {
        match self {
            Side::Client => Side::Server,
            Side::Server => Side::Client,
        }
    }

    // What tells in a tag whose datagram it is.
    pub(crate) fn byte(self) -> u8
        ensures { result ≡ side_byte self }
    {
        match self {
            Side::Client => 0,
            Side::Server => 1,
        }
    }
}

/// How many bytes a tag has.
#[derive(Clone, Copy)]
pub enum TagBytes {
    Eight,
    Sixteen,
}

impl TagBytes {
    /// So many they are.
    pub fn count(self) -> usize
        ensures { result ≡ tag_bytes self }
    {
        match self {
            TagBytes::Eight => 8,
            TagBytes::Sixteen => 16,
        }
    }
}

// Whether two tags are one. Each byte is looked at whatever stands before it, so that the time taken tells a forger nothing of where its
// tag goes wrong.
pub(crate) fn is_same(found: &[u8], right: &[u8]) -> bool
    requires short { length found.now ≤ 32 }
    requires same { length right.now ≡ length found.now }
    ensures { Decides result (found.now ≡ right.now) }
{
    let mut apart = 0u32;
    'bytes: for i in 0..found.len() {
        apart += u32::from(found[i].abs_diff(right[i]));
    }
    apart == 0
}
