//! One send: what a letter brings at once, what it lets go, and what it holds.
ghost use Rattle.std.specs.Prelude.{◌≡◌, ◌++◌, ◌∷◌, [], OnOk, All, map};
ghost use Rattle.link_deliveries.specs.Deliveries.{at_once, let_go, brings, send, heard};
ghost use Rattle.upload_world.specs.Pumping.{IsFrame, MakesDue, dues, seqs, still_held, held_with};

use crate::deliver::{Due, Sent, deliver};
use lg_base::Memory;
use lg_model::Letter;
use std::alloc::Global;

/// Delivers uploads that were held, in their order.
pub(crate) fn release(alloc: Global, due: &mut Due, held: &[Sent]) -> Result<(), Memory>
    requires frames { All IsFrame held.now }
    ensures dues { OnOk result (dues due.new ≡ dues due.old ++ map heard (seqs held.now)) }
    ensures due { OnOk result (MakesDue held.now due.old due.new) }
{
    for sent in held {
        deliver(alloc, due, sent, true)?;
    }
    Ok(())
}

// What a letter brings of the upload sent.
fn bring(alloc: Global, due: &mut Due, sent: &Sent, letter: Letter) -> Result<(), Memory>
    requires frame { IsFrame sent.now }
    ensures dues { OnOk result (dues due.new ≡ dues due.old ++ at_once letter sent.now.seq) }
    ensures due { OnOk result (MakesDue (sent.now ∷ []) due.old due.new) }
{
    match letter {
        Letter::Deliver => deliver(alloc, due, sent, true),
        Letter::Lose => Ok(()),
        Letter::LoseReply => deliver(alloc, due, sent, false),
        Letter::Twice => {
            deliver(alloc, due, sent, true)?;
            deliver(alloc, due, sent, true)
        }
        Letter::Hold => Ok(()),
    }
}

// Delivers what a letter lets go of the uploads held, which are held no more.
fn let_out(alloc: Global, due: &mut Due, held: &mut Vec<Sent>, letter: Letter) -> Result<(), Memory>
    requires frames { All IsFrame held.old.items }
    ensures held { OnOk result (held.new.items ≡ still_held letter held.old.items) }
    ensures dues { OnOk result (dues due.new ≡ dues due.old ++ map heard (let_go letter (seqs held.old.items))) }
    ensures due { OnOk result (MakesDue held.old.items due.old due.new) }
{
    match letter {
        Letter::Deliver | Letter::LoseReply | Letter::Twice => {
            release(alloc, due, held)?;
            held.clear();
            Ok(())
        }
        Letter::Lose | Letter::Hold => Ok(()),
    }
}

// Holds the upload sent, where the letter says so.
fn keep(held: &mut Vec<Sent>, sent: Sent, letter: Letter) -> Result<(), Memory>
    ensures { OnOk result (held.new.items ≡ held_with letter sent held.old.items) }
{
    if letter == Letter::Hold {
        held.push(sent)?;
    }
    Ok(())
}

/// What a letter makes of an upload sent, and of those that are held.
pub(crate) fn send(
    alloc: Global,
    due: &mut Due,
    held: &mut Vec<Sent>,
    sent: Sent,
    letter: Letter,
) -> Result<(), Memory>
    requires frame { IsFrame sent }
    requires frames { All IsFrame held.old.items }
    ensures held { OnOk result (held.new.items ≡ held_with letter sent (still_held letter held.old.items)) }
    ensures dues { OnOk result (dues due.new ≡ dues due.old ++ brings (send sent.seq letter) (seqs held.old.items)) }
    ensures due { OnOk result (MakesDue (sent ∷ held.old.items) due.old due.new) }
{
    bring(alloc, due, &sent, letter)?;
    let_out(alloc, due, held, letter)?;
    keep(held, sent, letter)
}
