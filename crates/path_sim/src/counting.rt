//! The switches count the packets of a step.
ghost use Rattle.std.specs.Prelude.{◌≡◌, ◌+◌, List};
ghost use Rattle.lg_model.specs.Trace.{packets_until, meetings_in};
ghost use Rattle.lg_model.specs.Carrying as model;
ghost use Rattle.lg_model.specs.TwinsState.{AreTwins};
ghost use Rattle.path_sim.specs.Sending.{IsPacketStep};

use crate::sending::Sent;
use epoch_freeze::Twins;
use scenario_text::Scenario;

/// Each switch that the packets of a step reach counts all of them at once, hop after hop. As fast for many packets as for
/// one.
pub fn count_step(scenario: &Scenario, twins: &mut [Twins], sent: &Sent)
    requires step { IsPacketStep scenario.now sent.now }
    requires twins { (cs : List model.Carry) × AreTwins scenario.now sent.now.step_at
        (meetings_in (packets_until scenario.now sent.now.step_at)) cs twins.old }
    ensures { (cs : List model.Carry) → AreTwins scenario.now sent.now.step_at
        (meetings_in (packets_until scenario.now sent.now.step_at)) cs twins.old
        → AreTwins scenario.now sent.now.step_at (meetings_in (packets_until scenario.now (sent.now.step_at + 1))) cs twins.new }
{
    let _fits = scenario.flows();
    let _wide = scenario.shape().width();
    let hops = sent.flow.path.items();
    let delays = sent.delays.items();
    for k in 0..sent.reached {
        let at = usize::from(k);
        let twin = &mut twins[usize::from(hops[at])];
        twin.see(sent.places, sent.size, delays[at], sent.burst);
    }
}
