//! The generated scenario of some rounds.
ghost use Rattle.std.specs.Prelude.{◌≡◌, ◌≤◌, ℕ, IfOk};
ghost use Rattle.scenario_make.specs.Generator.{generated, generated_shape, IsGenerated};
ghost use Rattle.scenario_make.specs.Worked.{WorkedRound};

use crate::declared::{flows, hosts, switches};
use crate::happening::{asks, steps};
use lg_base::Memory;
use lg_model::{Hash, Pick};
use row_hash::Shape;
use scenario_text::{Scenario, printed_is_read};
use std::alloc::Global;

/// The most rounds of a generated scenario.
pub const MOST_ROUNDS: u32 = 1_000;

/// The law of generated scenarios: the definition of each gives a scenario, of 160 packets a round and 256 at the end.
pub fn generated_are_scenarios()
    ensures { (rounds : ℕ) → rounds ≤ MOST_ROUNDS → IsGenerated rounds }
{}

/// The generated scenario of one round, printed, worked out by computation.
pub fn worked_round()
    ensures { WorkedRound }
{}

// The shape: 4 rows of 16 buckets, with the number of rounds as the seed of the hash.
fn shape(rounds: u32) -> Shape
    ensures { result ≡ generated_shape rounds }
{
    match Shape::new(4, 16, Hash::Seed(u64::from(rounds))) {
        Some(shape) => shape,
        None => unreachable!(),
    }
}

/// The generated scenario of 1 to 1,000 rounds (docs/FORMATS.md, Generated scenarios): two hosts, four switches, eight flows,
/// rounds of bursts some of which are lost, repeated or late, the ends of epochs, and last bursts that bring what was frozen.
/// Takes time linear in the lines of its text.
///
/// `Memory` where memory runs out.
pub fn make(alloc: Global, rounds: u32) -> Result<Scenario, Memory>
    requires some { 1 ≤ rounds }
    requires few { rounds ≤ MOST_ROUNDS }
    ensures { IfOk result (λ scenario. scenario ≡ generated rounds) }
{
    generated_are_scenarios();
    printed_is_read();
    let hosts = hosts(alloc)?;
    let switches = switches(alloc)?;
    let flows = flows(alloc)?;
    let steps = steps(alloc, rounds)?;
    let asks = asks(alloc)?;
    match Scenario::new(
        shape(rounds),
        Pick::Turns,
        hosts,
        switches,
        flows,
        steps,
        asks,
    ) {
        Some(scenario) => Ok(scenario),
        None => unreachable!(),
    }
}

#[cfg(test)]
mod tests {
    use super::*;
    use lg_base::MemorySource;
    use scenario_text::{print, read};
    use std::test::Fail;

    // The FNV-1a hash of some bytes.
    fn hash(bytes: &[u8]) -> u64 {
        let mut hash: u64 = 0xcbf29ce484222325;
        for byte in bytes {
            hash = (hash ^ u64::from(*byte)).wrapping_mul(0x100000001b3);
        }
        hash
    }

    // The texts of another program that follows docs/FORMATS.md have these lengths and hashes.
    #[test]
    fn generated_texts(rt: HostRuntime) -> Result<(), Fail> {
        let alloc = rt.alloc();
        for (rounds, len, want) in [
            (1, 1108, 0x71796d355fa3ad81),
            (2, 1361, 0x20a5d9aa7dc8ac79),
            (10, 3442, 0x2daaa714b6e202c6),
            (1000, 282592, 0x8832299d2c5fc09),
        ] {
            let scenario = make(alloc, rounds)?;
            let text = print(alloc, &scenario)?;
            assert_eq!(rt; text.len(), len, "{rounds}");
            assert_eq!(rt; hash(&text), want, "{rounds}");
            let mut source = MemorySource::new(
                text.as_slice().to_vec(alloc)?,
                4096,
                Vec::new(alloc),
            );
            let again = read(alloc, &mut source)?;
            assert_eq!(rt; print(alloc, &again)?.as_slice(), text.as_slice());
        }
        worked_round();
        Ok(())
    }
}
