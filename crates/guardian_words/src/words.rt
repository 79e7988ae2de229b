//! The command of the words after the program's name.
ghost use Rattle.std.specs.Prelude.{◌≡◌, ◌≤◌, IfSome};
ghost use Rattle.guardian_words.specs.Words.{asked, lone_word, rounds_of, making, showing, two_words, rebuilding, three_words, IsCommand};
ghost use Rattle.flow_key.specs.Words.{number_to};

use crate::commands::Command;
use flow_key::words::{is, number};

// The command of one word.
fn lone(word: &[u8]) -> Option<Command>
    ensures value { result ≡ lone_word word.now }
    ensures range { IfSome result IsCommand }
{
    if is(word, b"run") {
        return Some(Command::Run);
    }
    if is(word, b"ask") {
        return Some(Command::Ask);
    }
    if is(word, b"list") {
        return Some(Command::List);
    }
    if is(word, b"capture") {
        return Some(Command::Capture);
    }
    None
}

// The number of rounds that a word writes, 1 to 1000.
fn rounds(word: &[u8]) -> Option<u32>
    ensures value { result ≡ rounds_of word.now }
    ensures range { IfSome result (λ n. (1 ≤ n) × (n ≤ 1000)) }
{
    let rounds = number(word, 1000)?;
    if rounds == 0 {
        return None;
    }
    Some(rounds as u32)
}

// The command to write the text of a generated scenario, if the word is a number of rounds.
fn make(word: &[u8]) -> Option<Command>
    ensures value { result ≡ making (rounds_of word.now) }
    ensures range { IfSome result IsCommand }
{
    Some(Command::Make(rounds(word)?))
}

// The command to run a generated scenario, if the word is a number of rounds.
fn demo(word: &[u8]) -> Option<Command>
    ensures value { result ≡ showing (rounds_of word.now) }
    ensures range { IfSome result IsCommand }
{
    Some(Command::Demo(rounds(word)?))
}

// The command of two words.
fn two(word: &[u8], rounds: &[u8]) -> Option<Command>
    ensures value { result ≡ two_words word.now rounds.now }
    ensures range { IfSome result IsCommand }
{
    if is(word, b"make") {
        return make(rounds);
    }
    if is(word, b"demo") {
        return demo(rounds);
    }
    None
}

// The command to rebuild the sketch of this switch and epoch, if both words are numbers of their range.
fn rebuild(switch: &[u8], epoch: &[u8]) -> Option<Command>
    ensures value { result ≡ rebuilding (number_to 65535 switch.now) (number_to 4294967295 epoch.now) }
    ensures range { IfSome result IsCommand }
{
    let switch = number(switch, 65535)?;
    let epoch = number(epoch, 4294967295)?;
    Some(Command::Rebuild {
        switch: switch as u16,
        epoch: epoch as u32,
    })
}

// The command of three words.
fn three(word: &[u8], switch: &[u8], epoch: &[u8]) -> Option<Command>
    ensures value { result ≡ three_words word.now switch.now epoch.now }
    ensures range { IfSome result IsCommand }
{
    if is(word, b"rebuild") {
        rebuild(switch, epoch)
    } else {
        None
    }
}

/// The command of these words, with its numbers. They are one of `run`, `ask`, `list` and `capture` alone; `make N` or
/// `demo N`, N being 1 to 1000; or `rebuild S E`, S being 0 to 65535 and E 0 to 4294967295. Numbers are decimal, with no sign
/// and no leading zeros. None exactly where they are none of these. Takes no memory (docs/FORMATS.md, Command line).
pub fn command(words: &[String]) -> Option<Command>
    ensures value { result ≡ asked words.now }
    ensures range { IfSome result IsCommand }
{
    match words {
        [word] => lone(word.as_bytes()),
        [word, rounds] => two(word.as_bytes(), rounds.as_bytes()),
        [word, switch, epoch] => three(word.as_bytes(), switch.as_bytes(), epoch.as_bytes()),
        _ => None,
    }
}

#[cfg(test)]
mod tests {
    use super::*;
    use std::alloc::Global;
    use std::test::Fail;

    // The command of words that are cut at each space.
    fn told(alloc: Global, line: &str) -> Result<Option<Command>, Fail> {
        let mut words = Vec::new(alloc);
        for word in line.split(' ') {
            words.push(String::from_str(alloc, word)?)?;
        }
        Ok(command(&words))
    }

    #[test]
    fn words_and_their_commands(rt: HostRuntime) -> Result<(), Fail> {
        let rebuild = |switch, epoch| Some(Command::Rebuild { switch, epoch });
        for (line, want) in [
            ("run", Some(Command::Run)),
            ("ask", Some(Command::Ask)),
            ("list", Some(Command::List)),
            ("capture", Some(Command::Capture)),
            ("make 1", Some(Command::Make(1))),
            ("make 1000", Some(Command::Make(1000))),
            ("demo 1", Some(Command::Demo(1))),
            ("demo 1000", Some(Command::Demo(1000))),
            ("rebuild 0 0", rebuild(0, 0)),
            ("rebuild 65535 4294967295", rebuild(65535, 4294967295)),
            ("rebuild 65536 0", None),
            ("rebuild 0 4294967296", None),
            ("rebuild 01 0", None),
            ("rebuild -1 0", None),
            ("rebuild +1 0", None),
            ("rebuild 1", None),
            ("rebuild 1 ", None),
            ("rebuild 1 2 3", None),
            ("rebuilds 1 2", None),
            ("runs", None),
            ("Run", None),
            ("run x", None),
            ("list x", None),
            ("list 1 0", None),
            ("make", None),
            ("make 0", None),
            ("make 1001", None),
            ("make 01", None),
            ("make +1", None),
            ("make -1", None),
            ("make 1 2", None),
            ("make  1", None),
            ("make x", None),
            ("make 4294967297", None),
            ("demo", None),
            ("demo 0", None),
            ("demo 1001", None),
            ("demo 010", None),
            ("demo 1 2", None),
            ("demos 1", None),
            ("run 1", None),
            ("", None),
        ] {
            assert_eq!(rt; told(rt.alloc(), line)?, want, "{line}");
        }
        assert_eq!(rt; command(&[]), None);
        Ok(())
    }
}
