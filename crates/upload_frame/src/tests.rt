//! Frames and replies with known bytes.

use crate::{
    Frame, FrameFault, NextFault, Reader, RefusedWhy, Reply, ReplyReader, columns_are_spelled,
    frames_follow_streams, frames_of, read_upload, replies_follow_streams, worked_frames,
    write_frame, write_reply, write_upload,
};
use lg_model::{Bucket, Dims, Hash, Key, Shape};
use sketchlet_wire::{Column, Upload, WireFault};
use std::alloc::Global;
use std::test::Fail;

// The upload 0 of host 1: switch 1, epoch 0, index 0, two rows of width 1, each with the sum 1500 and the maximum 20.
const WORKED: [u8; 36] =
    *b"\x00\x22\x02\x00\x01\x00\x00\x00\x00\x01\x4c\x47\x01\x02\x00\x01\x00\x01\x00\x00\x00\x00\x00\x00\x00\x00\x05\xdc\x00\x14\x00\x00\x05\xdc\x00\x14";

const HELLO: [u8; 17] = *b"\x00\x0f\x01\x00\x01\x02\x00\x01\x01\x00\x00\x00\x00\x00\x00\x00\x07";

const BYE: [u8; 5] = *b"\x00\x03\x03\x00\x01";

fn key(index: u16) -> Key {
    Key {
        switch: 1,
        epoch: 0,
        index,
    }
}

fn upload(alloc: Global) -> Result<Upload, Fail> {
    let buckets = [Bucket {
        bytes: 1500,
        delay: 20,
    }; 8];
    let column = Column::new(key(0), Dims { rows: 2, width: 1 }, buckets).ok_or("no column")?;
    let mut columns = Vec::new(alloc);
    columns.push(column)?;
    match Upload::new(1, 0, columns) {
        Ok(upload) => Ok(upload),
        Err(_) => Err("no upload".into()),
    }
}

#[test]
fn writes_the_worked_frames(rt: HostRuntime) -> Result<(), Fail> {
    let alloc = rt.alloc();
    let shape = Shape::new(2, 1, Hash::Seed(7)).ok_or("no shape")?;
    let hello = write_frame(alloc, &Frame::Hello { host: 1, shape }).map_err(|_| "memory")?;
    assert_eq!(rt; hello.as_slice(), HELLO.as_slice());
    let bye = write_frame(alloc, &Frame::Bye { host: 1 }).map_err(|_| "memory")?;
    assert_eq!(rt; bye.as_slice(), BYE.as_slice());
    let lent = write_upload(alloc, &upload(alloc)?).map_err(|_| "memory")?;
    assert_eq!(rt; lent.as_slice(), WORKED.as_slice());
    let owned = write_frame(alloc, &Frame::Upload(upload(alloc)?)).map_err(|_| "memory")?;
    assert_eq!(rt; owned, lent);
    frames_follow_streams();
    replies_follow_streams();
    columns_are_spelled();
    worked_frames();
    Ok(())
}

#[test]
fn reads_the_worked_frame_byte_by_byte(rt: HostRuntime) -> Result<(), Fail> {
    let alloc = rt.alloc();
    let mut reader = Reader::new(alloc);
    for n in 0..36 {
        match reader.next() {
            Ok(None) => {}
            _ => return Err("not unfinished".into()),
        }
        assert_eq!(rt; reader.frame_bytes(), 0);
        assert!(rt; is_fed(&mut reader, &WORKED[n..=n]));
    }
    // All 36 are there, and none is taken yet.
    assert_eq!(rt; reader.frame_bytes(), 0);
    match reader.next() {
        Ok(Some(Frame::Upload(read))) => {
            assert_eq!(rt; (read.host(), read.seq(), read.columns().len()), (1, 0, 1));
            assert_eq!(rt; read.columns()[0].key(), key(0));
        }
        _ => return Err("no upload".into()),
    }
    assert_eq!(rt; reader.frame_bytes(), 36);
    match reader.next() {
        Ok(None) => Ok(()),
        _ => Err("not unfinished".into()),
    }
}

// Feeds a piece, where fewer than 2^62 bytes were taken.
fn is_fed(reader: &mut Reader, piece: &[u8]) -> bool {
    reader.left() >= piece.len() as u64 && reader.feed(piece).is_ok()
}

// The fault of these bytes.
fn fault_of(alloc: Global, bytes: &[u8]) -> Option<FrameFault> {
    let mut reader = Reader::new(alloc);
    if !is_fed(&mut reader, bytes) {
        return None;
    }
    let first = reader.next();
    // Bytes after the fault change nothing.
    if !is_fed(&mut reader, &BYE) {
        return None;
    }
    match (first, reader.next()) {
        (Err(NextFault::Frame(fault)), Err(NextFault::Frame(again))) => {
            if fault == again { Some(fault) } else { None }
        }
        _ => None,
    }
}

#[test]
fn refuses_frames_by_their_first_fault(rt: HostRuntime) -> Result<(), Fail> {
    let alloc = rt.alloc();
    for (at, byte, fault) in [
        (0, 4, FrameFault::Length { length: 1058 }),
        (2, 0, FrameFault::Kind { kind: 0 }),
        (2, 0x81, FrameFault::Kind { kind: 0x81 }),
        (2, 3, FrameFault::Length { length: 34 }),
        (
            1,
            33,
            FrameFault::Wire {
                nth: 0,
                fault: WireFault::Short,
            },
        ),
        (9, 17, FrameFault::Count { count: 17 }),
        (9, 0, FrameFault::Count { count: 0 }),
        (
            12,
            2,
            FrameFault::Wire {
                nth: 0,
                fault: WireFault::NotSketchlet { at: 2 },
            },
        ),
    ] {
        let mut bytes = WORKED;
        bytes[at] = byte;
        assert_eq!(rt; fault_of(alloc, &bytes), Some(fault), "byte {at} is {byte}");
    }
    for (at, byte) in [(5, 0), (5, 9), (6, 17), (8, 2), (8, 0)] {
        let mut bytes = HELLO;
        bytes[at] = byte;
        assert_eq!(rt;
            fault_of(alloc, &bytes),
            Some(FrameFault::BadShape),
            "byte {at} is {byte}"
        );
    }
    assert_eq!(rt;
        fault_of(alloc, &[0, 0]),
        Some(FrameFault::Length { length: 0 })
    );
    assert_eq!(rt;
        fault_of(alloc, &[0, 3, 7]),
        Some(FrameFault::Kind { kind: 7 })
    );
    assert_eq!(rt;
        fault_of(alloc, &[0, 4, 7]),
        Some(FrameFault::Kind { kind: 7 })
    );
    assert_eq!(rt;
        fault_of(alloc, &[0, 4, 3]),
        Some(FrameFault::Length { length: 4 })
    );
    Ok(())
}

// The reply of these bytes, and how many they are.
fn reply_of(alloc: Global, bytes: &[u8]) -> Result<(Reply, u64), Option<FrameFault>> {
    let mut reader = ReplyReader::new(alloc);
    if reader.left() < bytes.len() as u64 || reader.feed(bytes).is_err() {
        return Err(None);
    }
    match reader.next() {
        Ok(Some(reply)) => Ok((reply, reader.frame_bytes())),
        Err(NextFault::Frame(fault)) => Err(Some(fault)),
        _ => Err(None),
    }
}

#[test]
fn writes_and_reads_replies(rt: HostRuntime) -> Result<(), Fail> {
    let alloc = rt.alloc();
    let refused = |why| Reply::Refused {
        host: 1,
        seq: 2,
        why,
    };
    for (reply, kind, code) in [
        (Reply::Welcome { host: 1 }, 0x81, None),
        (
            Reply::Acknowledged {
                host: 1,
                seq: 2,
                known: false,
            },
            0x82,
            Some(0),
        ),
        (
            Reply::Acknowledged {
                host: 1,
                seq: 2,
                known: true,
            },
            0x82,
            Some(1),
        ),
        (refused(RefusedWhy::Conflict(key(3))), 0x83, Some(1)),
        (refused(RefusedWhy::Full), 0x83, Some(2)),
        (refused(RefusedWhy::Shape), 0x83, Some(3)),
        (refused(RefusedWhy::Closed), 0x83, Some(4)),
        (Reply::Goodbye { host: 1 }, 0x84, None),
    ] {
        let bytes = write_reply(alloc, &reply).map_err(|_| "memory")?;
        assert_eq!(rt; bytes.get(2).copied(), Some(kind));
        assert_eq!(rt; bytes.get(9).copied(), code);
        assert_eq!(rt; reply_of(alloc, &bytes), Ok((reply, bytes.len() as u64)));
    }
    for (bytes, fault) in [
        (
            *b"\x00\x08\x82\x00\x01\x00\x00\x00\x00\x02\0\0\0\0\0\0\0\0",
            FrameFault::Code { code: 2 },
        ),
        (
            *b"\x00\x10\x83\x00\x01\x00\x00\x00\x00\x02\0\0\0\0\0\0\0\x01",
            FrameFault::KeyNotZero,
        ),
        (
            *b"\x00\x10\x83\x00\x01\x00\x00\x00\x00\x05\0\0\0\0\0\0\0\x01",
            FrameFault::Code { code: 5 },
        ),
        (
            *b"\x00\x03\x03\x00\x01\x00\x00\x00\x00\x00\0\0\0\0\0\0\0\0",
            FrameFault::Kind { kind: 3 },
        ),
    ] {
        assert_eq!(rt; reply_of(alloc, &bytes), Err(Some(fault)));
    }
    Ok(())
}

// The frames of a stream that comes in pieces of that length: how many, and whether all are uploads but the last.
fn count_of(alloc: Global, stream: &[u8], len: usize) -> Result<usize, Fail> {
    if len == 0 {
        return Err("no length".into());
    }
    let mut reader = Reader::new(alloc);
    let mut count: usize = 0;
    for piece in stream.chunks(len) {
        if !is_fed(&mut reader, piece) {
            return Err("not fed".into());
        }
        for _ in 0..100 {
            match reader.next() {
                Ok(None) => break,
                Ok(Some(_)) => count = count.saturating_add(1),
                Err(_) => return Err("refused".into()),
            }
        }
    }
    if reader.frame_bytes() != stream.len() as u64 {
        return Err("bytes left".into());
    }
    Ok(count)
}

#[test]
fn gives_a_thousand_frames_however_they_are_cut(rt: HostRuntime) -> Result<(), Fail> {
    let alloc = rt.alloc();
    let mut stream = Vec::new(alloc);
    for _ in 0..333 {
        stream.extend_from_slice(&HELLO)?;
        stream.extend_from_slice(&WORKED)?;
        stream.extend_from_slice(&BYE)?;
    }
    stream.extend_from_slice(&WORKED)?;
    for len in 1..71 {
        assert_eq!(rt; count_of(alloc, &stream, len)?, 1000, "pieces of {len}");
    }
    Ok(())
}

#[test]
fn reads_whole_streams_and_whole_uploads(rt: HostRuntime) -> Result<(), Fail> {
    let alloc = rt.alloc();
    let mut first = Vec::new(alloc);
    first.extend_from_slice(&WORKED)?;
    let mut pieces = Vec::new(alloc);
    pieces.push(first)?;
    let (frames, end) = frames_of(alloc, &pieces).map_err(|_| "memory")?;
    assert_eq!(rt; (frames.len(), end), (1, None));
    let lent = upload(alloc)?;
    let bytes = write_upload(alloc, &lent).map_err(|_| "memory")?;
    let read = read_upload(alloc, &bytes).map_err(|_| "memory")?;
    assert_eq!(rt; (read.host(), read.seq()), (1, 0));
    Ok(())
}
