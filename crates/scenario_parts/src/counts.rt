//! Whether the packets and the ends of steps keep their limits.
ghost use Rattle.std.specs.Prelude.{◌≡◌, ◌+◌, ◌<◌, ◌≤◌, ℕ, All, length, slice_index, Decides};
ghost use Rattle.lg_model.specs.declared.limits.TheConstants.{MOST_SWITCHES, MOST_PACKETS, MOST_ENDS};
ghost use Rattle.lg_model.specs.Scenario.{burst_of, packet_count};
ghost use Rattle.lg_model.specs.Keeping.{ends_of};
ghost use Rattle.scenario_parts.specs.Parts.{IsEndInRange};

use lg_model::Step;
use lg_model::limits::{MOST_ENDS, MOST_PACKETS, MOST_SWITCHES};

fn burst_in(step: &Step) -> u32
    ensures { result ≡ burst_of step.now }
{
    match step {
        Step::Packet { burst, .. } => *burst,
        Step::End { .. } | Step::EndAll | Step::Release => 0,
    }
}

// Whether the steps send at most 1,000,000 packets.
pub(crate) fn are_few_packets(steps: &[Step]) -> bool
    ensures { Decides result (packet_count steps.now ≤ MOST_PACKETS) }
{
    let mut packets: u64 = 0;
    for step in steps {
        packets += u64::from(burst_in(step));
        if packets > u64::from(MOST_PACKETS) {
            return false;
        }
    }
    true
}

// Whether the steps end at most 65,535 epochs of each of the first switches.
pub(crate) fn are_few_ends(switches: &[u16], steps: &[Step]) -> bool
    requires few { length switches.now ≤ MOST_SWITCHES }
    requires positions { All (IsEndInRange (length switches.now)) steps.now }
    ensures { Decides result ((s : ℕ) → s < length switches.now → ends_of s steps.now ≤ MOST_ENDS) }
{
    let mut ends = [0; MOST_SWITCHES];
    let mut ends_of_all: u64 = 0;
    for step in steps {
        match step {
            Step::End { switch_at } => ends[*switch_at as usize] += 1,
            Step::EndAll => ends_of_all += 1,
            Step::Packet { .. } => {}
            Step::Release => {}
        }
    }
    for at in 0..switches.len() {
        if ends[at] + ends_of_all > u64::from(MOST_ENDS) {
            return false;
        }
    }
    true
}
