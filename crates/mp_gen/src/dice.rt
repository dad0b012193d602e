//! Numbers drawn from the words of a generator.

ghost use Rattle.std.specs.Prelude.{◌≡◌, ◌<◌};
ghost use Rattle.mp_gen.specs.Dice.{draw, dice_of};

use rand_core::utils::NextWord;
use rand_pcg::Pcg32;

// The generator of a seed.
#[tactic(auto, unfolding(crate::specs::Dice::dice_of))]
pub(crate) fn dice_of(seed: u64) -> Pcg32
    ensures { result ≡ dice_of seed }
{
    Pcg32::new(seed, 1)
}

// A number below n.
pub(crate) fn draw(dice: &mut Pcg32, n: u32) -> u32
    requires { 0 < n }
    ensures value { (result, dice.new) ≡ draw n dice.old }
    ensures below { result < n }
{
    dice.next_word() % n
}
