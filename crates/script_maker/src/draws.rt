//! Draws from the generator.
ghost use Rattle.std.specs.Prelude.{◌≡◌, ◌<◌};
ghost use Rattle.script_maker.specs.Draws.{draw, generator};

use rand_pcg::Lcg64Xsh32;
use rand_pcg::rand_core::utils::NextWord;

/// The generator of a seed, on one of its streams: a made script draws from stream 0 of its seed (docs/maker.md).
#[tactic(auto, unfolding(crate::specs::Draws::generator))]
pub fn generator(seed: u32, stream: u32) -> Lcg64Xsh32
    ensures { result ≡ generator seed stream }
{
    Lcg64Xsh32::new(u64::from(seed), u64::from(stream))
}

// A number below n.
#[tactic(auto, unfolding(crate::specs::Draws::draw))]
pub(crate) fn draw(rng: &mut Lcg64Xsh32, n: u32) -> u32
    requires { 0 < n }
    ensures value { (result, rng.new) ≡ draw n rng.old }
    ensures below { result < n }
{
    rng.next_word() % n
}
