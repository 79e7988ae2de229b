//! Fields with several parts: paths, letters and delays.
ghost use Rattle.std.specs.Prelude.{◌≡◌, ◌≤◌, ◌<◌, ◌+◌, ◌∷◌, ◌==◌, [], All, Ok, false, length, map, slice_index, IfOk, OnOk};
ghost use Rattle.std.specs.Fmt.{decimal};
ghost use Rattle.std.specs.List.{list_all, list_any};
ghost use Rattle.std.specs.Option.{option_copied};
ghost use Rattle.flow_key.specs.Words.{words_left};
ghost use Rattle.lg_model.specs.declared.limits.TheConstants.{MOST_HOPS, MOST_LETTERS};
ghost use Rattle.scenario_lines.specs.Spelling.{size, path_words};
ghost use Rattle.lg_model.specs.Keeping.{AreApart};
ghost use Rattle.scenario_lines.specs.Fields.{GivesField, number, hop, path, is_letter, letter_of, letters_word, delays};

use crate::fault::LineFault;
use crate::fields::number_field;
use crate::names::{fresh_name, position_of};
use crate::why::Why;
use flow_key::words;
use lg_model::limits::{MOST_HOPS, MOST_LETTERS};
use lg_model::{Letter, Letters};
use smallvec::SmallVec;
use std::alloc::Global;

#[tactic(auto, unfolding(crate::specs::Fields::number))]
fn name_in(word: &[u8]) -> Result<u16, LineFault>
    ensures gives { GivesField (λ n. (n, [])) result (number 0 65535 (word.now ∷ [])) }
    ensures spelled { IfOk result (λ n. word.now ≡ decimal n) }
{
    match words::number(word, 65535) {
        None => Err(LineFault::Bad(Why::BadNumber)),
        Some(n) => Ok(n as u16),
    }
}

#[tactic(auto, unfolding(crate::specs::Fields::hop))]
fn next_hop(switches: &[u16], sofar: &[u16], word: &[u8]) -> Result<u16, LineFault>
    requires few { length switches.now ≤ 65536 }
    requires short { length sofar.now ≤ MOST_HOPS }
    ensures gives { GivesField (λ x. x) result (hop switches.now sofar.now word.now) }
    ensures fits { OnOk result (length sofar.now < MOST_HOPS) }
    ensures bound { IfOk result (λ at. at < length switches.now) }
    ensures fresh { IfOk result (λ at. list_any (λ m. m == at) sofar.now ≡ false) }
    ensures spelled { IfOk result (λ at. word.now ≡ decimal (slice_index switches.now at)) }
{
    if sofar.len() == MOST_HOPS {
        return Err(LineFault::Bad(Why::BadPath));
    }
    let name = name_in(word)?;
    let at = position_of(switches, name)?;
    fresh_name(sofar, at)?;
    Ok(at)
}

// The rest of the line as a path: the positions of its switches.
#[tactic(auto, unfolding(crate::specs::Fields::path))]
pub(crate) fn path_field(
    alloc: Global,
    switches: &[u16],
    text: Option<&[u8]>,
) -> Result<Vec<u16>, LineFault>
    requires { length switches.now ≤ 65536 }
    ensures gives { GivesField (λ v. v.items) result (path switches.now [] (words_left 32 (option_copied text.entry))) }
    ensures some { IfOk result (λ v. 1 ≤ length v.items) }
    ensures short { IfOk result (λ v. length v.items ≤ MOST_HOPS) }
    ensures bound { IfOk result (λ v. All (λ at. at < length switches.now) v.items) }
    ensures once { IfOk result (λ v. AreApart v.items) }
    ensures taken { IfOk result (λ v. size (words_left 32 (option_copied text.entry)) ≡ size (path_words switches.now v.items)) }
{
    let mut hops: Vec<u16> = Vec::new(alloc);
    let mut left = text;
    while let Some(line) = left {
        let (word, rest) = words::cut(line, b' ');
        let at = next_hop(switches, &hops, word)?;
        hops.push(at)?;
        left = rest;
    }
    if hops.is_empty() {
        return Err(LineFault::Bad(Why::WordCount));
    }
    Ok(hops)
}

fn letter_in(b: u8) -> bool
    ensures { result ≡ is_letter b }
{
    b == b'd' || b == b'x' || b == b'a' || b == b'r' || b == b'h'
}

fn are_letters(word: &[u8]) -> bool
    ensures { result ≡ list_all is_letter word.now }
{
    word.iter().all(|b| letter_in(*b))
}

fn letter(b: u8) -> Letter
    ensures { result ≡ letter_of b }
{
    if b == b'd' {
        Letter::Deliver
    } else if b == b'x' {
        Letter::Lose
    } else if b == b'a' {
        Letter::LoseReply
    } else if b == b'r' {
        Letter::Twice
    } else {
        Letter::Hold
    }
}

fn letters_in(alloc: Global, word: &[u8]) -> Result<Letters, LineFault>
    ensures gives { GivesField (λ x. x) result (Ok (map letter_of word.now)) }
    ensures count { IfOk result (λ x. length x ≡ length word.now) }
{
    let mut letters: Vec<Letter> = Vec::new(alloc);
    for b in word {
        letters.push(letter(*b))?;
    }
    Ok(Letters::new(letters))
}

// A word of 1 to 4,096 letters.
#[tactic(auto, unfolding(crate::specs::Fields::letters_word))]
pub(crate) fn letters_field(
    alloc: Global,
    text: Option<&[u8]>,
) -> Result<(Letters, Option<&[u8]>), LineFault>
    ensures few { IfOk result (λ x. length x.0 ≤ MOST_LETTERS) }
    ensures taken { IfOk result (λ x. size (words_left 32 (option_copied text.entry)) ≡ length x.0 + 1 + size (words_left 32 (option_copied x.1))) }
    ensures gives { GivesField (λ x. (x.0, words_left 32 (option_copied x.1))) result (letters_word (words_left 32 (option_copied text.entry))) }
{
    let Some(text) = text else {
        return Err(LineFault::Bad(Why::WordCount));
    };
    let (word, rest) = words::cut(text, b' ');
    if word.len() < 1 {
        return Err(LineFault::Bad(Why::BadLetters));
    }
    if word.len() > MOST_LETTERS {
        return Err(LineFault::Bad(Why::BadLetters));
    }
    if !are_letters(word) {
        return Err(LineFault::Bad(Why::BadLetters));
    }
    let letters = letters_in(alloc, word)?;
    Ok((letters, rest))
}

// One delay for each hop of a path, in room that is taken for all of them at the start.
#[tactic(auto, unfolding(crate::specs::Fields::delays))]
pub(crate) fn delays_field<'a>(
    alloc: Global,
    path: &[u16],
    text: Option<&'a [u8]>,
) -> Result<(SmallVec<u32, 4>, Option<&'a [u8]>), LineFault>
    ensures taken { IfOk result (λ x. size (map decimal x.0.items) + size (words_left 32 (option_copied x.1)) ≡ size (words_left 32 (option_copied text.entry))) }
    ensures count { IfOk result (λ x. length x.0.items ≡ length path.now) }
    ensures small { IfOk result (λ x. All (λ d. d < 4294967296) x.0.items) }
    ensures gives { GivesField (λ x. (x.0.items, words_left 32 (option_copied x.1))) result (delays path.now [] (words_left 32 (option_copied text.entry))) }
{
    let mut delays: SmallVec<u32, 4> = SmallVec::with_capacity(alloc, path.len())?;
    let mut left = text;
    for _ in path {
        let (delay, rest) = number_field(left, 0, 4294967295)?;
        delays.push_reserved(delay as u32);
        left = rest;
    }
    Ok((delays, left))
}
