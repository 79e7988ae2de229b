//! Numbers and words added to a text.
ghost use Rattle.std.specs.Prelude.{◌≡◌, ◌<◌, ◌^◌, ◌++◌, ◌∷◌, [], length, map, nat_lt, slice_index, OnOk, true};
ghost use Rattle.std.specs.List.{list_all};
ghost use Rattle.std.specs.Fmt.{decimal};
ghost use Rattle.text_out.specs.Growing.{Prints};
ghost use Rattle.text_out.specs.Words.{spaced};
ghost use Rattle.scenario_lines.specs.Spelling.{key_parts, path_words, byte_of};

use flow_key::FlowKey;
use lg_model::Letter;
use text_out::{TextOut, put_field, put_text};

// Bytes.
pub(crate) fn put_bytes<T: TextOut>(out: &mut T, text: &[u8]) -> Result<(), T::Fault>
    ensures { Prints result (T.kind out.old) (T.kind out.new) text.now }
{
    put_text(out, text)
}

// A number after a space.
pub(crate) fn put_next<T: TextOut>(out: &mut T, n: u64) -> Result<(), T::Fault>
    ensures { Prints result (T.kind out.old) (T.kind out.new) (spaced (decimal n ∷ [])) }
{
    put_field(out, b" ", n)
}

// The five words of a key, each after a space.
pub(crate) fn put_key<T: TextOut>(out: &mut T, key: &FlowKey) -> Result<(), T::Fault>
    ensures { Prints result (T.kind out.old) (T.kind out.new) (spaced (key_parts key.now [])) }
{
    let mut text = [0; 47];
    let len = key.print(&mut text);
    put_bytes(out, b" ")?;
    put_bytes(out, &text[..len])
}

// The names of the switches of a path, each after a space. A path has at most 16, so the calls are at most 17 deep.
pub(crate) fn put_path<T: TextOut>(
    out: &mut T,
    switches: &[u16],
    path: &[u16],
) -> Result<(), T::Fault>
    requires { list_all (λ at. nat_lt at (length switches.now)) path.now ≡ true }
    ensures { Prints result (T.kind out.old) (T.kind out.new) (spaced (path_words switches.now path.now)) }
{
    match path {
        [] => Ok(()),
        [at, path @ ..] => {
            put_next(out, switches[*at as usize] as u64)?;
            put_path(out, switches, path)
        }
    }
}

// The delays of a packet, each after a space. They are at most 16, so the calls are at most 17 deep.
pub(crate) fn put_delays<T: TextOut>(out: &mut T, delays: &[u32]) -> Result<(), T::Fault>
    ensures { Prints result (T.kind out.old) (T.kind out.new) (spaced (map decimal delays.now)) }
{
    match delays {
        [] => Ok(()),
        [delay, delays @ ..] => {
            put_next(out, *delay as u64)?;
            put_delays(out, delays)
        }
    }
}

fn byte_in(letter: Letter) -> u8
    ensures { result ≡ byte_of letter }
{
    match letter {
        Letter::Deliver => b'd',
        Letter::Lose => b'x',
        Letter::LoseReply => b'a',
        Letter::Twice => b'r',
        Letter::Hold => b'h',
    }
}

// The bytes of letters.
pub(crate) fn put_letters<T: TextOut>(out: &mut T, letters: &[Letter]) -> Result<(), T::Fault>
    ensures { Prints result (T.kind out.old) (T.kind out.new) (map byte_of letters.now) }
{
    for letter in letters {
        put_bytes(out, &[byte_in(*letter)])?;
    }
    Ok(())
}
