//! Columns on their way to the hosts, and what came there.
ghost use Rattle.std.specs.Prelude.{◌≡◌, ◌+◌, ◌++◌, [], ℕ, List, length, reverse, IfOk, All};
ghost use Rattle.lg_model.specs.Scenario.{Scenario as ScenarioOfModel};
ghost use Rattle.lg_model.specs.Carrying as model;
ghost use Rattle.lg_model.specs.Columns.{Column};
ghost use Rattle.lg_model.specs.Midway.{AreDelivered};
ghost use Rattle.sketchlet_wire.specs.Packing.{IsPacked};
ghost use Rattle.path_sim.specs.Holding.{AreHeld, IsInside};
ghost use Rattle.path_sim.specs.Sending.{IsSending};
ghost use Rattle.path_sim.specs.Running.{IsCargo, IsMail};

use crate::inbox::Held;
use crate::post::Post;
use crate::sending::Sent;
use crate::traffic::Traffic;
use lg_base::Memory;
use lg_model::Fate;
use scenario_text::Scenario;

/// What becomes of the packet of that number after its last hop, by its fate: what it carries arrives, once or twice in
/// succession, or is held, or is lost. Memory where there is none for it.
pub fn settle<O: Post + Drop>(
    scenario: &Scenario,
    number: u32,
    sent: &Sent,
    cargo: Option<O::Cargo>,
    traffic: &mut Traffic<O>,
) -> Result<(), Memory>
    requires sent { IsSending scenario.now number sent.now }
    requires mail { (cs : List model.Carry) × IsMail O.Post.own scenario.now sent.now.step_at number cs traffic.old
        × IsCargo O.Post.own scenario.now number cs traffic.old cargo }
    ensures mail { IfOk result (λ _. (cs : List model.Carry) → IsMail O.Post.own scenario.now sent.now.step_at number cs traffic.old
        → IsCargo O.Post.own scenario.now number cs traffic.old cargo
        → IsMail O.Post.own scenario.now sent.now.step_at (number + 1) cs traffic.new) }
    ensures twins { IfOk result (λ _. traffic.new.twins ≡ traffic.old.twins) }
{
    let Some(cargo) = cargo else {
        return Ok(());
    };
    let host_at = sent.flow.host_at;
    match sent.fate {
        Fate::Straight => traffic.post.arrive(host_at, cargo),
        Fate::Lost(_) => Ok(()),
        Fate::Twice => {
            traffic.post.arrive(host_at, cargo)?;
            traffic.post.arrive(host_at, cargo)
        }
        Fate::Late => {
            traffic.held.push(Held { host_at, cargo })?;
            Ok(())
        }
    }
}

/// All that is held arrives, the last held first. Memory where there is none for it.
pub fn release<O: Post + Drop>(post: &mut O, held: &mut Vec<Held<O::Cargo>>) -> Result<(), Memory>
    requires inside { All (IsInside (length (O.inboxes post.old))) held.old.items }
    requires held { (hs : List (ℕ × Column)) × AreHeld (O.stands post.old) hs held.old.items }
    ensures arrived { IfOk result (λ _. (ds hs : List (ℕ × Column)) → AreHeld (O.stands post.old) hs held.old.items
        → AreDelivered IsPacked ds (O.inboxes post.old) → AreDelivered IsPacked (ds ++ reverse hs) (O.inboxes post.new)) }
    ensures hosts { IfOk result (λ _. length (O.inboxes post.new) ≡ length (O.inboxes post.old)) }
    ensures noted { IfOk result (λ _. (w : ScenarioOfModel) (cs : List model.Carry) → O.notes post.old w cs → O.notes post.new w cs) }
    ensures empty { IfOk result (λ _. held.new.items ≡ []) }
{
    while let Some(item) = held.pop() {
        post.arrive(item.host_at, item.cargo)?;
    }
    Ok(())
}
