//! The rate, and what is saved up by it.
ghost use Rattle.std.specs.Prelude.{◌≡◌, ◌≤◌, ◌<◌, ◌*◌, ◌/◌, ◌↔◌, IsTrue};
ghost use Rattle.pace.specs.Rates.{raised, eased, saved_up, wait_for, AreTerms};

/// Thousandths of a byte: what a rate of 1 byte a second saves up in a millisecond.
pub const THOUSANDTHS: u64 = 1_000;

/// What a game asks of the rate.
#[repr(C)]
#[derive(Clone, Copy, Debug)]
pub struct PaceTerms {
    /// The least rate, in bytes a second, above 0.
    pub least: u32,
    /// The most, not below the least.
    pub most: u32,
    /// By how many bytes a second each packet that came raises it.
    pub step: u32,
    /// How many bytes may be saved up: as many as the longest datagram has, or more.
    pub burst: u32,
}

/// Whether a rate may have these terms: the least is above 0, and the most not below it.
pub fn are_terms(terms: PaceTerms) -> bool
    ensures { IsTrue result ↔ AreTerms terms }
{
    0 < terms.least && terms.least <= terms.most
}

/// The rate after a packet came.
pub(crate) fn raised(terms: PaceTerms, rate: u32) -> u32
    requires terms { AreTerms terms }
    requires most { rate ≤ terms.most }
    requires least { terms.least ≤ rate }
    ensures value { result ≡ raised terms rate }
    ensures most { result ≤ terms.most }
    ensures least { terms.least ≤ result }
{
    if terms.most - rate <= terms.step {
        terms.most
    } else {
        rate + terms.step
    }
}

/// The rate after a loss: a quarter less.
pub(crate) fn eased(terms: PaceTerms, rate: u32) -> u32
    requires terms { AreTerms terms }
    requires most { rate ≤ terms.most }
    ensures value { result ≡ eased terms rate }
    ensures most { result ≤ terms.most }
    ensures least { terms.least ≤ result }
{
    let less = rate - rate / 4;
    less.max(terms.least)
}

/// What is saved up after so many milliseconds, in thousandths of a byte.
pub(crate) fn saved_up(terms: PaceTerms, saved: u64, rate: u32, elapsed: u64) -> u64
    ensures value { result ≡ saved_up terms saved rate elapsed }
    ensures most { result ≤ terms.burst * THOUSANDTHS }
{
    let gained = elapsed.saturating_mul(rate as u64);
    let most = terms.burst as u64 * THOUSANDTHS;
    most.min(saved.saturating_add(gained))
}

/// The whole bytes of what is saved up.
pub(crate) fn whole_bytes(saved: u64, burst: u32) -> u32
    requires few { saved ≤ burst * THOUSANDTHS }
    ensures { result ≡ saved / THOUSANDTHS }
{
    (saved / THOUSANDTHS) as u32
}

/// In how many milliseconds so many bytes are saved up.
pub(crate) fn wait_for(bytes: u32, saved: u64, rate: u32) -> u64
    requires rate { 0 < rate }
    ensures { result ≡ wait_for bytes saved rate }
{
    let missing = (bytes as u64 * THOUSANDTHS).saturating_sub(saved);
    missing.div_ceil(rate as u64)
}
