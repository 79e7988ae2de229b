//! The picker by chance (docs/DEFINITIONS.md, Picked list).
ghost use Rattle.std.specs.Prelude.{◌≡◌, ◌<◌};
ghost use Rattle.rand_chacha.specs.ChaCha.{of_seed};
ghost use Rattle.lg_model.specs.Carrying.{candidate, chance_seed, chance_word, words_on};
ghost use Rattle.lg_model.specs.TwinsState.{offer_of};
ghost use Rattle.column_pick.specs.Picks.{ChancePicks};

use crate::picker::Picker;
use epoch_freeze::Twins;
use rand_chacha::ChaCha8Rng;
use rand_core::SeedableRng;
use rand_core::utils::NextWord;
use std::marker::Model;

/// Gives columns by chance. Each offer draws three words of 32 bits. A column is given exactly where the hops left divide
/// the first. The second and the third, modulo the width, are two candidates: the one that was put out less often since
/// the last end is taken, and at a tie the first. Contracts see the generator, which is at the next word.
#[derive(Drop)]
pub struct Chance {
    rng: ChaCha8Rng,
}

impl Model for Chance {
    ghost use Rattle.rand_chacha.specs.ChaCha.{ChaCha};

    ghost Value = { ChaCha };

    ghost view = { λ c. c.rng };
}

impl Chance {
    /// The picker of the switch of that name whose words are those of ChaCha8, stream 0 from word 0. The 32 bytes of
    /// the generator's seed are `seed` as 8 bytes and `switch` as 2, both big-endian, then 22 zeros.
    pub fn new(seed: u64, switch: u16) -> Chance
        ensures { result ≡ of_seed (chance_seed seed switch) }
    {
        let mut bytes = [0u8; 32];
        bytes[..8].copy_from_slice(&seed.to_be_bytes());
        bytes[8..10].copy_from_slice(&switch.to_be_bytes());
        Chance {
            rng: ChaCha8Rng::from_seed(bytes),
        }
    }
}

impl Picker for Chance {
    ghost picks = { ChancePicks };

    fn pick(&mut self, hops_left: u8, twins: &Twins) -> Option<u16> {
        let gate = word(&mut self.rng);
        let first = word(&mut self.rng);
        let second = word(&mut self.rng);
        if gate % u32::from(hops_left) != 0 {
            return None;
        }
        Some(less_used(twins, first, second))
    }
}

// The next word of the stream.
#[tactic(auto, unfolding(lg_model::specs::Carrying::chance_word))]
fn word(rng: &mut ChaCha8Rng) -> u32
    ensures word { result ≡ chance_word rng.old }
    ensures next { rng.new ≡ words_on 1 rng.old }
{
    rng.next_word()
}

// Of the candidates of two words the one that was put out less often, and the first at a tie.
fn less_used(twins: &Twins, first: u32, second: u32) -> u16
    ensures value { result ≡ candidate (offer_of twins.now) first second }
    ensures inside { result < twins.now.shape.width }
{
    let width = u32::from(twins.width());
    let first = (first % width) as u16;
    let second = (second % width) as u16;
    if twins.times_out(second) < twins.times_out(first) {
        second
    } else {
        first
    }
}

#[cfg(test)]
mod tests {
    use super::*;

    // The words are from a ChaCha8 in another language; a block has 16 of them.
    #[test]
    fn words_of_three_streams(rt: HostRuntime) {
        for (seed, switch, first, after_a_block) in [
            (
                0,
                0,
                [804192318, 3594542985, 3904396159],
                [234532562, 1371645418, 1826294463],
            ),
            (
                7,
                1,
                [3909990497, 1680148722, 1338336546],
                [512706804, 2772089622, 999175034],
            ),
            (
                u64::MAX,
                65535,
                [1506885742, 59469922, 224550818],
                [2104016835, 2867344886, 491188402],
            ),
        ] {
            let mut chance = Chance::new(seed, switch);
            for want in first {
                assert_eq!(rt; word(&mut chance.rng), want, "seed {seed}");
            }
            for _ in 3..16 {
                word(&mut chance.rng);
            }
            for want in after_a_block {
                assert_eq!(rt; word(&mut chance.rng), want, "seed {seed}");
            }
        }
    }
}
