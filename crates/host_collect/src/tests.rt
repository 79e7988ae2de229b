//! Lists of sketchlets with known cuts.

use crate::{
    CollectFault, Cutter, PackedUploads, cuts_are_longest, cutters_cut, pack_columns, uploads,
};
use lg_model::{Bucket, Dims, Key};
use sketchlet_wire::{Column, Packed, Upload, WireFault};
use std::alloc::Global;
use std::test::Fail;
use upload_frame::write_upload;
use uploader_core::Uploads;

// The sketchlet of an index of switch 1, of two rows and width 32.
fn packed(index: u16) -> Option<Packed> {
    let key = Key {
        switch: 1,
        epoch: 0,
        index,
    };
    let dims = Dims { rows: 2, width: 32 };
    let buckets = [Bucket {
        bytes: 1500,
        delay: 20,
    }; 8];
    Some(Packed::of(&Column::new(key, dims, buckets)?))
}

// The sketchlet of index 0, of which that many bytes count.
fn of_len(len: u8) -> Option<Packed> {
    let mut item = packed(0)?;
    item.len = len;
    Some(item)
}

fn items(alloc: Global, indexes: &[u16]) -> Result<Vec<Packed>, Fail> {
    let mut list = Vec::new(alloc);
    for index in indexes {
        list.push(packed(*index).ok_or("no column")?)?;
    }
    Ok(list)
}

// Whether the upload is of host 7, has this number, and has columns of these indexes.
fn is_upload(upload: &Upload, seq: usize, indexes: &[u16]) -> bool {
    let columns = upload.columns();
    upload.host() == 7
        && upload.seq() as usize == seq
        && columns.len() == indexes.len()
        && columns
            .iter()
            .zip(indexes.iter())
            .all(|(column, index)| column.key().index == *index)
}

// Whether columns of these indexes are cut into uploads of these lengths, numbered from 0.
fn cut_is(alloc: Global, indexes: &[u16], lens: &[usize]) -> Result<bool, Fail> {
    let list = items(alloc, indexes)?;
    if !list.iter().all(|item| item.len <= 62) || list.len() >= 4_294_967_296 {
        return Ok(false);
    }
    let given = uploads(alloc, 7, &list).map_err(|_| "refused")?;
    let mut rest = indexes;
    let mut fits = given.len() == lens.len();
    for (seq, (upload, len)) in given.iter().zip(lens.iter()).enumerate() {
        match rest.split_at_checked(*len) {
            Some((front, past)) => {
                fits = fits && is_upload(upload, seq, front);
                rest = past;
            }
            None => fits = false,
        }
    }
    Ok(fits && rest.is_empty())
}

#[test]
fn cuts_lists_of_columns(rt: HostRuntime) -> Result<(), Fail> {
    let alloc = rt.alloc();
    let many: [u16; 17] = [0, 1, 2, 3, 4, 5, 6, 7, 8, 9, 10, 11, 12, 13, 14, 15, 16];
    assert!(rt; cut_is(alloc, &[], &[])?);
    assert!(rt; cut_is(alloc, &[3], &[1])?);
    assert!(rt; cut_is(alloc, &[0, 0, 0, 1], &[1, 1, 2])?);
    assert!(rt; cut_is(alloc, &many, &[16, 1])?);
    assert!(rt; cut_is(alloc, &[0, 1, 0, 1, 2, 1], &[2, 3, 1])?);
    cuts_are_longest();
    cutters_cut();
    Ok(())
}

#[test]
fn refuses_the_first_item_that_is_no_sketchlet(rt: HostRuntime) -> Result<(), Fail> {
    let alloc = rt.alloc();
    let short = CollectFault::Bad {
        nth: 1,
        fault: WireFault::Short,
    };
    for (lens, want) in [
        ([26, 25, 27], short),
        ([27, 25, 26], CollectFault::Longer { nth: 0 }),
        ([26, 26, 27], CollectFault::Longer { nth: 2 }),
    ] {
        let mut list = Vec::new(alloc);
        for len in lens {
            list.push(of_len(len).ok_or("no column")?)?;
        }
        assert!(rt; list.iter().all(|item| item.len <= 62));
        assert!(rt; list.len() < 4_294_967_296);
        assert_eq!(rt; uploads(alloc, 7, &list).err(), Some(want));
    }
    Ok(())
}

#[test]
fn goes_on_after_a_fault(rt: HostRuntime) -> Result<(), Fail> {
    let mut cutter = Cutter::new(rt.alloc(), 7);
    for (len, want) in [
        (26, None),
        (
            25,
            Some(CollectFault::Bad {
                nth: 1,
                fault: WireFault::Short,
            }),
        ),
        (27, Some(CollectFault::Longer { nth: 1 })),
    ] {
        let item = of_len(len).ok_or("no column")?;
        assert!(rt; item.len <= 62 && cutter.taken() < 4_294_967_296);
        assert_eq!(rt; cutter.push(&item).err(), want);
    }
    let again = of_len(26).ok_or("no column")?;
    assert!(rt; again.len <= 62 && cutter.taken() < 4_294_967_296);
    match cutter.push(&again) {
        Ok(Some(upload)) => assert!(rt; is_upload(&upload, 0, &[0])),
        Ok(None) => return Err("no upload".into()),
        Err(_) => return Err("refused".into()),
    }
    match cutter.finish() {
        Some(upload) => assert!(rt; is_upload(&upload, 1, &[0])),
        None => return Err("no upload".into()),
    }
    Ok(())
}

// Whether what came, kept by places of a pool of the sketchlets of these indexes, has the frames of the uploads of the
// sketchlets at these places.
fn frames_are_same(alloc: Global, indexes: &[u16], places: &[u32]) -> Result<bool, Fail> {
    let pool = items(alloc, indexes)?;
    let mut came = Vec::new(alloc);
    for place in places {
        came.push(*pool.get(*place as usize).ok_or("no such place")?)?;
    }
    if !pack_columns(&pool, places)
        || !came.iter().all(|item| item.len <= 62)
        || came.len() >= 4_294_967_296
        || places.len() >= 4_294_967_296
    {
        return Ok(false);
    }
    let plain = uploads(alloc, 7, &came).map_err(|_| "refused")?;
    let kept = PackedUploads::new(alloc, 7, &pool, places)?;
    let mut same = kept.count() == plain.len();
    for (at, upload) in plain.iter().enumerate() {
        if at < kept.count() {
            let frame = write_upload(alloc, upload)?;
            same = same && kept.frame(alloc, at)? == frame;
        }
    }
    Ok(same)
}

#[test]
fn packed_uploads_have_the_frames_of_uploads(rt: HostRuntime) -> Result<(), Fail> {
    let alloc = rt.alloc();
    let indexes: [u16; 20] = [
        9, 1, 2, 3, 4, 5, 6, 7, 8, 0, 10, 11, 12, 13, 14, 15, 16, 17, 18, 19,
    ];
    let all: [u32; 20] = [
        0, 1, 2, 3, 4, 5, 6, 7, 8, 9, 10, 11, 12, 13, 14, 15, 16, 17, 18, 19,
    ];
    assert!(rt; frames_are_same(alloc, &indexes, &all)?);
    assert!(rt; frames_are_same(alloc, &indexes, &[3, 3, 4, 5, 3, 4, 4])?);
    assert!(rt; frames_are_same(alloc, &indexes, &[])?);
    // Two places of one key.
    assert!(rt; frames_are_same(alloc, &[5, 5], &[0, 1, 0])?);
    assert!(rt; !pack_columns(&items(alloc, &indexes)?, &[20]));
    Ok(())
}
