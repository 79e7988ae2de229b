// A pump over uploads that are kept in another way.
ghost use Rattle.std.specs.Prelude.{◌≡◌, ◌∷◌, [], IfOk};
ghost use Rattle.link_deliveries.specs.Waiting.{refusals};

use super::pumping::{OTHERS, digits, run, stored, uploads, watching};
use crate::{Memory, Uploader, Uploads};
use lg_model::Letter;
use sketchlet_wire::Upload;
use std::alloc::Global;
use std::sync::atomic::Ordering;
use std::test::Fail;
use upload_frame::write_upload;

// Two uploads.
#[derive(Drop)]
struct Pair {
    first: Upload,
    second: Upload,
}

impl Uploads for Pair {
    ghost listed = { λ p. p.first ∷ p.second ∷ [] };

    fn count(&self) -> usize {
        self.first.columns();
        self.second.columns();
        2
    }

    fn frame(&self, alloc: Global, at: usize) -> Result<Vec<u8>, Memory> {
        if at == 0 {
            write_upload(alloc, &self.first)
        } else {
            write_upload(alloc, &self.second)
        }
    }
}

fn uploader(alloc: Global, pair: Pair) -> Result<Uploader<Pair>, Fail>
    ensures { IfOk result (λ u. refusals u.states ≡ 0) }
{
    if pair.first.host() != 1 || pair.first.seq() != 0 {
        return Err("not the first upload of host 1".into());
    }
    if pair.second.host() != 1 || pair.second.seq() != 1 {
        return Err("not its second upload".into());
    }
    Ok(Uploader::over(alloc, 1, pair)?)
}

#[test]
fn a_pair_of_uploads_is_pumped(rt: HostRuntime) -> Result<(), Fail> {
    let alloc = rt.alloc();
    let mut both = uploads(alloc, 1, &OTHERS[..2])?;
    let gate = watching(alloc, &both)?;
    let (Some(second), Some(first)) = (both.pop(), both.pop()) else {
        return Err("not two uploads".into());
    };
    let mut uploader = uploader(alloc, Pair { first, second })?;
    let letters = [Letter::Lose, Letter::LoseReply, Letter::Twice, Letter::Hold];
    let (result, made, book) = run(&rt, alloc, &mut uploader, &letters, &gate)?;
    assert_eq!(rt; (result, uploader.done(), made), (Ok(()), true, 4));
    assert_eq!(rt;
        (stored(&book), gate.sends.load(Ordering::SeqCst)),
        (digits("10"), digits("0101"))
    );
    assert_eq!(rt; gate.others.load(Ordering::SeqCst), 0);
    Ok(())
}
