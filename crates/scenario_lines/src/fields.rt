//! The fields of a line, from left to right. What is left of a line is `None` after its last word.
ghost use Rattle.std.specs.Prelude.{◌≡◌, ◌≤◌, ◌<◌, ◌+◌, ◌∷◌, length, IfOk, OnOk};
ghost use Rattle.std.specs.Fmt.{decimal};
ghost use Rattle.std.specs.Option.{option_copied};
ghost use Rattle.flow_key.specs.Words.{words_left};
ghost use Rattle.text_out.specs.Shapes.{hash_words};
ghost use Rattle.scenario_lines.specs.Spelling.{size, pick_words};
ghost use Rattle.lg_model.specs.Ranges.{IsHashRange, IsPickRange};
ghost use Rattle.scenario_lines.specs.Fields.{GivesField, number, word, no_more, room, room_to, hash, pick};

use crate::fault::LineFault;
use crate::why::Why;
use flow_key::words;
use flow_key::words::is;
use lg_model::{Hash, Pick};

// A number from low to most. Where there is none the word is cut off, since only the clause of `cut` tells that there
// is one.
#[tactic(auto, unfolding(crate::specs::Fields::number, flow_key::specs::KeyText::number_word))]
pub(crate) fn number_field(
    text: Option<&[u8]>,
    low: u64,
    most: u64,
) -> Result<(u64, Option<&[u8]>), LineFault>
    ensures least { IfOk result (λ x. low ≤ x.0) }
    ensures bound { IfOk result (λ x. x.0 ≤ most) }
    ensures taken { IfOk result (λ x. size (words_left 32 (option_copied text.entry)) ≡ length (decimal x.0) + 1 + size (words_left 32 (option_copied x.1))) }
    ensures gives { GivesField (λ x. (x.0, words_left 32 (option_copied x.1))) result (number low most (words_left 32 (option_copied text.entry))) }
{
    let Some(text) = text else {
        return Err(LineFault::Bad(Why::WordCount));
    };
    match words::number_cut(text, b' ', most) {
        None => {
            let (_, _) = words::cut(text, b' ');
            Err(LineFault::Bad(Why::BadNumber))
        }
        Some((n, rest)) => {
            if low <= n {
                Ok((n, rest))
            } else {
                Err(LineFault::Bad(Why::BadNumber))
            }
        }
    }
}

// A fixed word.
#[tactic(auto, unfolding(crate::specs::Fields::word))]
pub(crate) fn word_field<'a>(
    text: Option<&'a [u8]>,
    wanted: &[u8],
) -> Result<Option<&'a [u8]>, LineFault>
    ensures taken { IfOk result (λ x. size (words_left 32 (option_copied text.entry)) ≡ length wanted.now + 1 + size (words_left 32 (option_copied x))) }
    ensures gives { GivesField (λ x. words_left 32 (option_copied x)) result (word wanted.now (words_left 32 (option_copied text.entry))) }
{
    let Some(text) = text else {
        return Err(LineFault::Bad(Why::WordCount));
    };
    let (first, rest) = words::cut(text, b' ');
    if is(first, wanted) {
        Ok(rest)
    } else {
        Err(LineFault::Bad(Why::BadWord))
    }
}

// The end of the line. The word is cut off, since only the clause of `cut` tells that there is one.
#[tactic(auto, unfolding(crate::specs::Fields::no_more))]
pub(crate) fn end_field(text: Option<&[u8]>) -> Result<(), LineFault>
    ensures taken { OnOk result (size (words_left 32 (option_copied text.entry)) ≡ 0) }
    ensures gives { GivesField (λ x. x) result (no_more (words_left 32 (option_copied text.entry))) }
{
    match text {
        None => Ok(()),
        Some(text) => {
            let (_, _) = words::cut(text, b' ');
            Err(LineFault::Bad(Why::WordCount))
        }
    }
}

// `TooMany` where there are already `most`.
#[tactic(auto, unfolding(crate::specs::Fields::room))]
pub(crate) fn room_for(most: usize, count: usize) -> Result<(), LineFault>
    ensures gives { GivesField (λ x. x) result (room most count) }
    ensures fits { OnOk result (count < most) }
{
    if count < most {
        Ok(())
    } else {
        Err(LineFault::Bad(Why::TooMany))
    }
}

// `TooMany` where there are more than `most`.
#[tactic(auto, unfolding(crate::specs::Fields::room_to))]
pub(crate) fn room_up_to(most: u32, count: u32) -> Result<(), LineFault>
    ensures gives { GivesField (λ x. x) result (room_to most count) }
    ensures fits { OnOk result (count ≤ most) }
{
    if count <= most {
        Ok(())
    } else {
        Err(LineFault::Bad(Why::TooMany))
    }
}

// `ports`, or `seed N`.
#[tactic(auto, unfolding(crate::specs::Fields::hash))]
pub(crate) fn hash_field(text: Option<&[u8]>) -> Result<(Hash, Option<&[u8]>), LineFault>
    ensures bound { IfOk result (λ x. IsHashRange x.0) }
    ensures taken { IfOk result (λ x. size (words_left 32 (option_copied text.entry)) ≡ size (hash_words x.0) + size (words_left 32 (option_copied x.1))) }
    ensures gives { GivesField (λ x. (x.0, words_left 32 (option_copied x.1))) result (hash (words_left 32 (option_copied text.entry))) }
{
    let Some(text) = text else {
        return Err(LineFault::Bad(Why::WordCount));
    };
    let (first, rest) = words::cut(text, b' ');
    if is(first, b"ports") {
        Ok((Hash::Ports, rest))
    } else if is(first, b"seed") {
        let (n, rest) = number_field(rest, 0, u64::MAX)?;
        Ok((Hash::Seed(n), rest))
    } else {
        Err(LineFault::Bad(Why::BadWord))
    }
}

// `turns`, or `chance N`.
#[tactic(auto, unfolding(crate::specs::Fields::pick))]
pub(crate) fn pick_field(text: Option<&[u8]>) -> Result<(Pick, Option<&[u8]>), LineFault>
    ensures bound { IfOk result (λ x. IsPickRange x.0) }
    ensures taken { IfOk result (λ x. size (words_left 32 (option_copied text.entry)) ≡ size (pick_words x.0) + size (words_left 32 (option_copied x.1))) }
    ensures gives { GivesField (λ x. (x.0, words_left 32 (option_copied x.1))) result (pick (words_left 32 (option_copied text.entry))) }
{
    let Some(text) = text else {
        return Err(LineFault::Bad(Why::WordCount));
    };
    let (first, rest) = words::cut(text, b' ');
    if is(first, b"turns") {
        Ok((Pick::Turns, rest))
    } else if is(first, b"chance") {
        let (n, rest) = number_field(rest, 0, u64::MAX)?;
        Ok((Pick::Chance(n), rest))
    } else {
        Err(LineFault::Bad(Why::BadWord))
    }
}
