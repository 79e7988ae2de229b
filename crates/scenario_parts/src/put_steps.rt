//! The steps and the asks, added to a text.
ghost use Rattle.std.specs.Prelude.{◌≡◌, ◌<◌, ◌++◌, ◌∷◌, [], All, length, map, slice_index, OnOk, codes};
ghost use Rattle.std.specs.Fmt.{decimal};
ghost use Rattle.lg_model.specs.Keeping.{IsStep, names_of};
ghost use Rattle.text_out.specs.Growing.{Prints};
ghost use Rattle.text_out.specs.Words.{spaced, joined};
ghost use Rattle.scenario_lines.specs.Spelling.{line_text, burst_words, fate_words, step_words, ask_words, done_words};
ghost use Rattle.scenario_parts.specs.Printed.{lines_text};

use crate::put::{put_bytes, put_delays, put_next};
use lg_model::{Ask, Fate, Flow, Step};
use text_out::TextOut;

fn put_burst<T: TextOut>(out: &mut T, burst: u32) -> Result<(), T::Fault>
    ensures { Prints result (T.kind out.old) (T.kind out.new) (spaced (burst_words burst)) }
{
    if burst == 1 {
        Ok(())
    } else {
        put_bytes(out, b" burst")?;
        put_next(out, burst as u64)
    }
}

fn put_fate<T: TextOut>(out: &mut T, fate: Fate) -> Result<(), T::Fault>
    ensures { Prints result (T.kind out.old) (T.kind out.new) (spaced (fate_words fate)) }
{
    match fate {
        Fate::Straight => Ok(()),
        Fate::Lost(k) => {
            put_bytes(out, b" lost")?;
            put_next(out, k as u64)
        }
        Fate::Twice => put_bytes(out, b" twice"),
        Fate::Late => put_bytes(out, b" late"),
    }
}

fn put_packet_front<T: TextOut>(
    out: &mut T,
    name: u16,
    size: u16,
    delays: &[u32],
) -> Result<(), T::Fault>
    ensures { Prints result (T.kind out.old) (T.kind out.new)
        (joined (codes "packet" ∷ decimal name ∷ decimal size ∷ map decimal delays.now)) }
{
    put_bytes(out, b"packet")?;
    put_next(out, name as u64)?;
    put_next(out, size as u64)?;
    put_delays(out, delays)
}

fn put_tail<T: TextOut>(out: &mut T, burst: u32, fate: Fate) -> Result<(), T::Fault>
    ensures { Prints result (T.kind out.old) (T.kind out.new) (spaced (burst_words burst ++ fate_words fate)) }
{
    put_burst(out, burst)?;
    put_fate(out, fate)
}

fn put_packet<T: TextOut>(
    out: &mut T,
    name: u16,
    size: u16,
    delays: &[u32],
    burst: u32,
    fate: Fate,
) -> Result<(), T::Fault>
    ensures { Prints result (T.kind out.old) (T.kind out.new)
        (joined (codes "packet" ∷ decimal name ∷ decimal size ∷ (map decimal delays.now ++ (burst_words burst ++ fate_words fate)))) }
{
    put_packet_front(out, name, size, delays)?;
    put_tail(out, burst, fate)?;
    Ok(())
}

fn flow_name(flows: &[Flow], at: u16) -> u16
    requires { at < length flows.now }
    ensures { result ≡ slice_index (names_of flows.now) at }
{
    flows[at as usize].name
}

fn put_step_words<T: TextOut>(
    out: &mut T,
    flows: &[Flow],
    switches: &[u16],
    step: &Step,
) -> Result<(), T::Fault>
    requires { IsStep (length switches.now) flows.now step.now }
    ensures { Prints result (T.kind out.old) (T.kind out.new) (joined (step_words flows.now switches.now step.now)) }
{
    match step {
        Step::Packet {
            flow_at,
            size,
            delays,
            burst,
            fate,
        } => {
            let name = flow_name(flows, *flow_at);
            put_packet(out, name, *size, delays.items(), *burst, *fate)
        }
        Step::End { switch_at } => {
            put_bytes(out, b"end")?;
            put_next(out, switches[*switch_at as usize] as u64)
        }
        Step::EndAll => put_bytes(out, b"end all"),
        Step::Release => put_bytes(out, b"release"),
    }
}

fn put_step<T: TextOut>(
    out: &mut T,
    flows: &[Flow],
    switches: &[u16],
    step: &Step,
) -> Result<(), T::Fault>
    requires { IsStep (length switches.now) flows.now step.now }
    ensures { Prints result (T.kind out.old) (T.kind out.new) (line_text (step_words flows.now switches.now step.now)) }
{
    put_step_words(out, flows, switches, step)?;
    put_bytes(out, b"\n")
}

pub(crate) fn put_steps<T: TextOut>(
    out: &mut T,
    flows: &[Flow],
    switches: &[u16],
    steps: &[Step],
) -> Result<(), T::Fault>
    requires { All (IsStep (length switches.now) flows.now) steps.now }
    ensures { Prints result (T.kind out.old) (T.kind out.new) (lines_text (step_words flows.now switches.now) steps.now) }
{
    for step in steps {
        put_step(out, flows, switches, step)?;
    }
    Ok(())
}

fn put_ask<T: TextOut>(out: &mut T, flows: &[Flow], ask: &Ask) -> Result<(), T::Fault>
    requires { ask.now.flow_at < length flows.now }
    ensures { Prints result (T.kind out.old) (T.kind out.new) (line_text (ask_words flows.now ask.now)) }
{
    put_bytes(out, b"ask")?;
    put_next(out, flow_name(flows, ask.flow_at) as u64)?;
    put_next(out, ask.switch as u64)?;
    put_next(out, ask.epoch as u64)?;
    put_bytes(out, b"\n")
}

pub(crate) fn put_asks<T: TextOut>(
    out: &mut T,
    flows: &[Flow],
    asks: &[Ask],
) -> Result<(), T::Fault>
    requires { All (λ q. q.flow_at < length flows.now) asks.now }
    ensures { Prints result (T.kind out.old) (T.kind out.new) (lines_text (ask_words flows.now) asks.now) }
{
    for ask in asks {
        put_ask(out, flows, ask)?;
    }
    Ok(())
}

pub(crate) fn put_done<T: TextOut>(out: &mut T) -> Result<(), T::Fault>
    ensures { Prints result (T.kind out.old) (T.kind out.new) (line_text done_words) }
{
    put_bytes(out, b"done\n")
}
