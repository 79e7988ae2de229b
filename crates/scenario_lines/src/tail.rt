//! The rest of a `packet` line after its delays.
ghost use Rattle.std.specs.Prelude.{◌≡◌, ◌≤◌, ◌+◌, IfOk, OnOk};
ghost use Rattle.std.specs.Option.{option_copied};
ghost use Rattle.lg_model.specs.Scenario.{reached};
ghost use Rattle.flow_key.specs.Words.{words_left};
ghost use Rattle.lg_model.specs.declared.limits.TheConstants.{MOST_PACKETS};
ghost use Rattle.scenario_lines.specs.Spelling.{size, burst_words, fate_words};
ghost use Rattle.scenario_lines.specs.Fields.{GivesField, burst, fate, fate_ended};

use crate::fault::LineFault;
use crate::fields::number_field;
use crate::why::Why;
use flow_key::words;
use flow_key::words::is;
use lg_model::Fate;
use lg_model::limits::MOST_PACKETS;

// `burst N`, or nothing, which is 1.
#[tactic(auto, unfolding(crate::specs::Fields::burst))]
pub(crate) fn burst_field(text: Option<&[u8]>) -> Result<(u32, Option<&[u8]>), LineFault>
    ensures some { IfOk result (λ x. 1 ≤ x.0) }
    ensures bound { IfOk result (λ x. x.0 ≤ MOST_PACKETS) }
    ensures taken { IfOk result (λ x. size (burst_words x.0) + size (words_left 32 (option_copied x.1)) ≤ size (words_left 32 (option_copied text.entry))) }
    ensures gives { GivesField (λ x. (x.0, words_left 32 (option_copied x.1))) result (burst (words_left 32 (option_copied text.entry))) }
{
    let Some(line) = text else {
        return Ok((1, None));
    };
    let (word, rest) = words::cut(line, b' ');
    if is(word, b"burst") {
        let (n, rest) = number_field(rest, 1, u64::from(MOST_PACKETS))?;
        Ok((n as u32, rest))
    } else {
        Ok((1, Some(line)))
    }
}

#[tactic(auto, unfolding(crate::specs::Fields::fate_ended))]
fn fate_end(text: Option<&[u8]>) -> Result<(), LineFault>
    ensures taken { OnOk result (size (words_left 32 (option_copied text.entry)) ≡ 0) }
    ensures gives { GivesField (λ x. x) result (fate_ended (words_left 32 (option_copied text.entry))) }
{
    let Some(text) = text else {
        return Ok(());
    };
    let (word, _) = words::cut(text, b' ');
    if is(word, b"burst") {
        Err(LineFault::Bad(Why::BadWord))
    } else {
        Err(LineFault::Bad(Why::WordCount))
    }
}

// The fate of a packet over this many hops, and the end of the line.
#[tactic(auto, unfolding(crate::specs::Fields::fate))]
pub(crate) fn fate_field(hops: usize, text: Option<&[u8]>) -> Result<Fate, LineFault>
    requires { hops ≤ 255 }
    ensures taken { IfOk result (λ x. size (fate_words x) ≤ size (words_left 32 (option_copied text.entry))) }
    ensures bound { IfOk result (λ x. reached x hops ≤ hops) }
    ensures gives { GivesField (λ x. x) result (fate hops (words_left 32 (option_copied text.entry))) }
{
    let Some(text) = text else {
        return Ok(Fate::Straight);
    };
    let (word, rest) = words::cut(text, b' ');
    if is(word, b"lost") {
        let (k, rest) = number_field(rest, 0, hops as u64)?;
        fate_end(rest)?;
        Ok(Fate::Lost(k as u8))
    } else if is(word, b"twice") {
        fate_end(rest)?;
        Ok(Fate::Twice)
    } else if is(word, b"late") {
        fate_end(rest)?;
        Ok(Fate::Late)
    } else {
        Err(LineFault::Bad(Why::BadWord))
    }
}
