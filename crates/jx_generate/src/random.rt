//! Random numbers of a linear congruential generator.

ghost use Rattle.std.specs.Prelude.{◌≡◌, ◌<◌, ◌^◌};
ghost use Rattle.jx_generate.specs.Random.{number_at, state_after};

const FACTOR: u64 = 6_364_136_223_846_793_005;

const SUMMAND: u64 = 1_442_695_040_888_963_407;

/// Moves the state on and takes the next number from it, of 31 bits.
#[tactic(auto, unfolding(crate::specs::Random::state_after, crate::specs::Random::number_at))]
pub(crate) fn next(state: &mut u64) -> u32
    ensures value { result ≡ number_at state.old }
    ensures state { state.new ≡ state_after state.old }
    ensures bound { result < 2 ^ 31 }
{
    *state = state.wrapping_mul(FACTOR).wrapping_add(SUMMAND);
    (*state >> 33) as u32
}
