//! The command `make`: the text of a generated scenario.
ghost use Rattle.std.specs.Prelude.{◌≤◌, Ok, Err, IfOk, IfErr};
ghost use Rattle.guardian_run.specs.Giving.{GivesMade};

use crate::refusal::Refusal;
use scenario_text::print;
use std::alloc::Global;

/// Gives the text of the generated scenario of 1 to 1,000 rounds. Nothing is read, the book's file neither. `Memory` where no
/// memory was found.
pub fn make(alloc: Global, rounds: u32) -> Result<Vec<u8>, Refusal>
    requires some { 1 ≤ rounds }
    requires few { rounds ≤ 1000 }
    ensures output { IfOk result (λ text. GivesMade rounds (Ok text.items)) }
    ensures refused { IfErr result (λ refusal. GivesMade rounds (Err refusal)) }
{
    let scenario = scenario_make::make(alloc, rounds)?;
    let text = print(alloc, &scenario)?;
    Ok(text)
}
