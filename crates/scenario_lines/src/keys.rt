//! The key of a flow line: five places, read from left to right. The first place whose word is there and is malformed
//! form is no key, and a place with no word is a missing word.
ghost use Rattle.std.specs.Prelude.{◌≡◌, ◌≤◌, ◌+◌, length, IfOk};
ghost use Rattle.std.specs.Fmt.{decimal};
ghost use Rattle.std.specs.Option.{option_copied};
ghost use Rattle.flow_key.specs.KeyText.{dotted, IsAddress, Fits};
ghost use Rattle.flow_key.specs.Words.{words_left};
ghost use Rattle.scenario_lines.specs.Spelling.{size, key_parts};
ghost use Rattle.scenario_lines.specs.Fields.{GivesField, key_address, key_number, key};

use crate::fault::LineFault;
use crate::why::Why;
use flow_key::{FlowKey, words};

#[tactic(auto, unfolding(crate::specs::Fields::key_address))]
fn address_field(text: Option<&[u8]>) -> Result<([u8; 4], Option<&[u8]>), LineFault>
    ensures bytes { IfOk result (λ x. IsAddress x.0) }
    ensures taken { IfOk result (λ x. size (words_left 32 (option_copied text.entry)) ≡ length (dotted x.0) + 1 + size (words_left 32 (option_copied x.1))) }
    ensures gives { GivesField (λ x. (x.0, words_left 32 (option_copied x.1))) result (key_address (words_left 32 (option_copied text.entry))) }
{
    let Some(text) = text else {
        return Err(LineFault::Bad(Why::WordCount));
    };
    let (word, rest) = words::cut(text, b' ');
    match words::address(word) {
        None => Err(LineFault::Bad(Why::BadKey)),
        Some(bytes) => Ok((bytes, rest)),
    }
}

// Where there is no number the word is cut off, since only the clause of `cut` tells that there is one.
#[tactic(auto, unfolding(crate::specs::Fields::key_number, flow_key::specs::KeyText::number_word))]
fn key_number_field(text: Option<&[u8]>, most: u64) -> Result<(u64, Option<&[u8]>), LineFault>
    ensures bound { IfOk result (λ x. x.0 ≤ most) }
    ensures taken { IfOk result (λ x. size (words_left 32 (option_copied text.entry)) ≡ length (decimal x.0) + 1 + size (words_left 32 (option_copied x.1))) }
    ensures gives { GivesField (λ x. (x.0, words_left 32 (option_copied x.1))) result (key_number most (words_left 32 (option_copied text.entry))) }
{
    let Some(text) = text else {
        return Err(LineFault::Bad(Why::WordCount));
    };
    match words::number_cut(text, b' ', most) {
        None => {
            let (_, _) = words::cut(text, b' ');
            Err(LineFault::Bad(Why::BadKey))
        }
        Some((n, rest)) => Ok((n, rest)),
    }
}

// The five words of a key.
#[tactic(auto, unfolding(crate::specs::Fields::key))]
pub(crate) fn key_field(text: Option<&[u8]>) -> Result<(FlowKey, Option<&[u8]>), LineFault>
    ensures fits { IfOk result (λ x. Fits x.0) }
    ensures taken { IfOk result (λ x. size (words_left 32 (option_copied text.entry)) ≡ size (key_parts x.0 (words_left 32 (option_copied x.1)))) }
    ensures gives { GivesField (λ x. (x.0, words_left 32 (option_copied x.1))) result (key (words_left 32 (option_copied text.entry))) }
{
    let (src, text) = address_field(text)?;
    let (dst, text) = address_field(text)?;
    let (proto, text) = key_number_field(text, 255)?;
    let (sport, text) = key_number_field(text, 65535)?;
    let (dport, text) = key_number_field(text, 65535)?;
    let key = FlowKey {
        src,
        dst,
        proto: proto as u8,
        sport: sport as u16,
        dport: dport as u16,
    };
    Ok((key, text))
}
