//! The text of some parts.
ghost use Rattle.std.specs.Prelude.{◌≤◌, ◌++◌, length, Decides};
ghost use Rattle.lg_model.specs.declared.limits.TheConstants.{MOST_TEXT_BYTES};
ghost use Rattle.text_out.specs.Growing.{Prints};
ghost use Rattle.scenario_lines.specs.Spelling.{line_text, guardian_words, shape_line_words, pick_line_words};
ghost use Rattle.scenario_parts.specs.Printed.{declared_text, happening_text, text_of};
ghost use Rattle.lg_model.specs.Keeping.{IsScenario};
ghost use Rattle.lg_model.specs.Scenario.{scenario_of};

use crate::put_declared::{put_flows, put_hosts, put_links, put_switches};
use crate::put_first::{put_guardian, put_pick, put_shape};
use crate::put_steps::{put_asks, put_done, put_steps};
use lg_model::limits::MOST_TEXT_BYTES;
use lg_model::{Parts, Pick};
use row_hash::Shape;
use text_out::{Room, TextOut};

fn put_first_lines<T: TextOut>(out: &mut T, shape: &Shape, pick: &Pick) -> Result<(), T::Fault>
    ensures { Prints result (T.kind out.old) (T.kind out.new)
        (line_text guardian_words ++ (line_text (shape_line_words shape.now) ++ line_text (pick_line_words pick.now))) }
{
    put_guardian(out)?;
    put_shape(out, shape)?;
    put_pick(out, pick)
}

fn put_declarations<T: TextOut>(out: &mut T, parts: &Parts) -> Result<(), T::Fault>
    requires { IsScenario (scenario_of parts.now) }
    ensures { Prints result (T.kind out.old) (T.kind out.new) (declared_text (scenario_of parts.now)) }
{
    let hosts = &parts.hosts;
    let switches = &parts.switches;
    put_hosts(out, hosts)?;
    put_switches(out, switches)?;
    put_flows(out, hosts, switches, &parts.flows)?;
    put_links(out, hosts)
}

fn put_happenings<T: TextOut>(out: &mut T, parts: &Parts) -> Result<(), T::Fault>
    requires { IsScenario (scenario_of parts.now) }
    ensures { Prints result (T.kind out.old) (T.kind out.new) (happening_text (scenario_of parts.now)) }
{
    let flows = &parts.flows;
    put_steps(out, flows, &parts.switches, &parts.steps)?;
    put_asks(out, flows, &parts.asks)?;
    put_done(out)
}

/// Puts the text of parts that make a scenario, however long it is (docs/FORMATS.md, Scenario text): the first three lines; the
/// hosts, the switches, the flows and the links of hosts that have letters, each in the order of the parts; the steps;
/// the asks; and `done`. Every line ends with 0A, and `burst 1` is left out.
pub fn put_parts<T: TextOut>(out: &mut T, parts: &Parts) -> Result<(), T::Fault>
    requires { IsScenario (scenario_of parts.now) }
    ensures { Prints result (T.kind out.old) (T.kind out.new) (text_of (scenario_of parts.now)) }
{
    put_first_lines(out, &parts.shape, &parts.pick)?;
    put_declarations(out, parts)?;
    put_happenings(out, parts)?;
    Ok(())
}

// Whether the text of the parts is at most 16,777,216 bytes long.
pub(crate) fn is_short(parts: &Parts) -> bool
    requires { IsScenario (scenario_of parts.now) }
    ensures { Decides result (length (text_of (scenario_of parts.now)) ≤ MOST_TEXT_BYTES) }
{
    let mut room = Room {
        left: MOST_TEXT_BYTES + 1,
    };
    match put_parts(&mut room, parts) {
        Ok(()) => room.left > 0,
        Err(never) => match never {},
    }
}
