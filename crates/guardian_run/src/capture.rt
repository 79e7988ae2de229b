//! The command `capture`: the sketchlets that came to the hosts, as text.
ghost use Rattle.std.specs.Prelude.{◌≡◌, ◌<◌, ◌≤◌, ◌+◌, ◌++◌, ◌^◌, length, slice_index_or, All, Ok, Err, IfOk, IfErr};
ghost use Rattle.lg_model.specs.Matching.{Matched};
ghost use Rattle.lg_model.specs.Carrying.{picked};
ghost use Rattle.lg_model.specs.Arriving.{brought};
ghost use Rattle.lg_model.specs.declared.scenario.HostLine.{HostLine};
ghost use Rattle.sketchlet_wire.specs.Packing.{IsPacked};
ghost use Rattle.path_sim.specs.Pooling.{items_at};
ghost use Rattle.guardian_run.specs.Arrived.{HavePooled};
ghost use Rattle.guardian_run.specs.Changes.{change};
ghost use Rattle.guardian_run.specs.Outputs.{host_lines, capture_of};
ghost use Rattle.guardian_run.specs.Outcomes.{Captures};
ghost use Rattle.guardian_run.specs.Giving.{GivesOfText};

use crate::refusal::Refusal;
use lg_base::{Memory, Source};
use lg_model::HostLine;
use path_sim::{PooledArrivals, run_pooled};
use report_text::{put_hex_line, put_sketchlets_line};
use run_laws::runs_are_true;
use scenario_text::{Scenario, read};
use sketchlet_wire::Packed;
use std::alloc::Global;

// The lines of what came to the host at a position, as places among the kept columns. Memory where there is none for one of them.
fn put_host(
    scenario: &Scenario,
    host_at: u16,
    host: &HostLine,
    kept: &[Packed],
    arrived: &[u32],
    text: &mut Vec<u8>,
) -> Result<(), Memory>
    requires inside { All (λ k. k < length kept.now) arrived.now }
    requires packed { Matched IsPacked (items_at kept.now arrived.now) (brought scenario.now (picked scenario.now) host_at) }
    ensures { IfOk result (λ _. text.new.items ≡ text.old.items ++ host_lines scenario.now (host_at, host.now)) }
{
    for place in arrived {
        put_hex_line(text, host.name, &kept[*place as usize])?;
    }
    Ok(())
}

// The lines of all that came to the hosts, host after host, and how many they are. Memory where there is none for them.
fn capture_lines(
    alloc: Global,
    scenario: &Scenario,
    arrivals: &PooledArrivals,
) -> Result<Vec<u8>, Memory>
    requires { HavePooled scenario.now arrivals.now }
    ensures { IfOk result (λ text. text.items ≡ capture_of scenario.now) }
{
    let mut text = Vec::new(alloc);
    let mut count = 0;
    let hosts = scenario.hosts();
    for at in 0..hosts.len() {
        let arrived = arrivals.arrived(at as u16);
        put_host(
            scenario,
            at as u16,
            &hosts[at],
            arrivals.kept(),
            arrived,
            &mut text,
        )?;
        count += arrived.len();
    }
    put_sketchlets_line(&mut text, count)?;
    Ok(text)
}

/// Reads a scenario from the source, runs its network and gives the lines of the sketchlets that came to the hosts.
///
/// `BadScenario` where the input is no scenario text, `ReadFault` only where the source's count of faults rose in this
/// call or stands at its last value, `Memory` where no memory was found.
pub fn capture<S: Source>(alloc: Global, source: &mut S) -> Result<Vec<u8>, Refusal>
    ensures output { IfOk result (λ text. GivesOfText Captures (change S.left S.faults source.old source.new) (Ok text.items)) }
    ensures refused { IfErr result (λ refusal. GivesOfText Captures (change S.left S.faults source.old source.new) (Err refusal)) }
{
    runs_are_true();
    let scenario = read(alloc, source)?;
    let arrivals = run_pooled(alloc, &scenario)?;
    let text = capture_lines(alloc, &scenario, &arrivals)?;
    Ok(text)
}
