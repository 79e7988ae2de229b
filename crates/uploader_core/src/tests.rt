ghost use Rattle.std.specs.Prelude.{◌≡◌};

use crate::{Refused, Uploader, are_own};
use lg_model::{Bucket, Dims, Key};
use sketchlet_wire::{Column, Upload};
use std::alloc::Global;
use std::test::Fail;
use upload_frame::{RefusedWhy, Reply, write_upload};

// Uploads of one column each, of host 7, numbered from `first`.
fn uploads(alloc: Global, first: u32, count: u32) -> Result<Vec<Upload>, Fail> {
    let mut all = Vec::new(alloc);
    for n in 0..count {
        let key = Key {
            switch: 1,
            epoch: n,
            index: 0,
        };
        let bucket = Bucket {
            bytes: 1500,
            delay: 20,
        };
        let column = Column::new(key, Dims { rows: 2, width: 1 }, [bucket; 8]).ok_or("no column")?;
        let columns = [column].to_vec(alloc)?;
        let upload = Upload::new(7, first.saturating_add(n), columns)
            .ok()
            .ok_or("no upload")?;
        all.push(upload)?;
    }
    Ok(all)
}

fn uploader(alloc: Global, count: u32) -> Result<Uploader, Fail> {
    let uploads = uploads(alloc, 0, count)?;
    if !are_own(7, &uploads) {
        return Err("no uploads of host 7".into());
    }
    Ok(Uploader::new(alloc, 7, uploads)?)
}

// The seqs that the next calls give.
fn sends(uploader: &mut Uploader, seqs: &[Option<u32>]) -> Result<(), Fail> {
    for seq in seqs {
        if uploader.next() != *seq {
            return Err("another seq".into());
        }
    }
    Ok(())
}

const fn acknowledged(host: u16, seq: u32) -> Reply {
    Reply::Acknowledged {
        host,
        seq,
        known: false,
    }
}

const fn refused(host: u16, seq: u32) -> Reply {
    Reply::Refused {
        host,
        seq,
        why: RefusedWhy::Full,
    }
}

#[test]
fn uploads_are_told_apart(rt: HostRuntime) -> Result<(), Fail> {
    let alloc = rt.alloc();
    assert_eq!(rt; are_own(7, &uploads(alloc, 0, 3)?), true);
    assert_eq!(rt; are_own(7, &uploads(alloc, 1, 3)?), false);
    assert_eq!(rt; are_own(8, &uploads(alloc, 0, 3)?), false);
    assert_eq!(rt; are_own(8, &uploads(alloc, 0, 0)?), true);
    Ok(())
}

#[test]
fn the_ninth_waits_for_a_tick(rt: HostRuntime) -> Result<(), Fail> {
    let mut uploader = uploader(rt.alloc(), 9)?;
    let all = [
        Some(0),
        Some(1),
        Some(2),
        Some(3),
        Some(4),
        Some(5),
        Some(6),
        Some(7),
        None,
    ];
    sends(&mut uploader, &all)?;
    uploader.tick();
    sends(&mut uploader, &all)?;
    // An acknowledgement makes room for the next one.
    assert_eq!(rt; uploader.on_reply(&acknowledged(7, 1)), Ok(()));
    sends(&mut uploader, &[Some(8), None])?;
    assert_eq!(rt; uploader.on_reply(&acknowledged(7, 0)), Ok(()));
    sends(&mut uploader, &[None])?;
    assert_eq!(rt; uploader.done(), false);
    for seq in 2..9 {
        assert_eq!(rt; uploader.on_reply(&acknowledged(7, seq)), Ok(()));
    }
    assert_eq!(rt; uploader.done(), true);
    sends(&mut uploader, &[None])
}

#[test]
fn replies_change_states(rt: HostRuntime) -> Result<(), Fail> {
    let mut uploader = uploader(rt.alloc(), 2)?;
    let one = Err(Refused {
        seq: 1,
        why: RefusedWhy::Full,
    });
    let rows = [
        (acknowledged(8, 0), Ok(()), (false, false)),
        (acknowledged(7, 2), Ok(()), (false, false)),
        (refused(8, 0), Ok(()), (false, false)),
        (refused(7, 2), Ok(()), (false, false)),
        (Reply::Welcome { host: 7 }, Ok(()), (false, false)),
        (Reply::Goodbye { host: 7 }, Ok(()), (false, false)),
        (acknowledged(7, 0), Ok(()), (true, false)),
        (refused(7, 0), Ok(()), (true, false)),
        (refused(7, 1), one, (true, false)),
        (acknowledged(7, 1), Ok(()), (true, false)),
        (refused(7, 1), one, (true, false)),
    ];
    for (reply, answer, acked) in rows {
        assert_eq!(rt; uploader.on_reply(&reply), answer);
        if uploader.len() < 2 {
            return Err("fewer uploads".into());
        }
        assert_eq!(rt; (uploader.acked(0), uploader.acked(1)), acked);
        assert_eq!(rt;
            (uploader.done(), uploader.host(), uploader.upload(1).seq()),
            (false, 7, 1)
        );
    }
    uploader.tick();
    sends(&mut uploader, &[None])
}

#[test]
fn each_frame_is_that_of_its_upload(rt: HostRuntime) -> Result<(), Fail> {
    let alloc = rt.alloc();
    let uploader = uploader(alloc, 3)?;
    for seq in 0..uploader.len() {
        let own = write_upload(alloc, uploader.upload(seq))?;
        assert_eq!(rt;
            uploader.frame(alloc, seq)?.as_slice() == own.as_slice(),
            true,
            "{seq}"
        );
    }
    Ok(())
}
