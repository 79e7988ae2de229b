//! The part of the frames.
ghost use Rattle.std.specs.Prelude.{◌≡◌, ◌≤◌, ◌<◌, ◌^◌, OnSome};
ghost use Rattle.bench_parts.specs.Fed.{held};

use crate::columns::{column, mixed};
use host_collect::Cutter;
use sketchlet_wire::{Packed, Upload};
use std::alloc::Global;
use upload_frame::{Frame, NextFault, Reader, write_upload};

// How many sketchlets are made. They come again and again.
const POOL: u32 = 4096;

// A stream of frames, how many bytes were fed to its reader, and what was read.
#[derive(Drop)]
struct Stream {
    reader: Reader,
    fed: u64,
    sum: u64,
}

fn pool(alloc: Global) -> Option<Vec<Packed>> {
    let mut items = Vec::new(alloc);
    for n in 0..POOL {
        items.push(Packed::of(&column(n)?)).ok()?;
    }
    Some(items)
}

// The upload that the item makes the cutter give, if it does.
fn cut(cutter: &mut Cutter, item: &Packed) -> Option<Option<Upload>> {
    if item.len > 62 || cutter.taken() >= 1 << 32 {
        return None;
    }
    cutter.push(item).ok()
}

// Takes in the number of an upload, and of each column the index and two of the counters.
fn tallied(sum: u64, upload: &Upload) -> u64 {
    let mut sum = mixed(sum, u64::from(upload.seq()));
    for column in upload.columns() {
        let [first, _, _, _, _, _, _, last] = column.filled();
        sum = mixed(sum, u64::from(column.key().index));
        sum = mixed(
            sum,
            u64::from(first.bytes).wrapping_add(u64::from(last.delay)),
        );
    }
    sum
}

// The next frame. The reader holds no more bytes than before.
fn next_frame(reader: &mut Reader) -> Result<Option<Frame>, NextFault>
    ensures { held reader.new ≤ held reader.old }
{
    reader.next()
}

// The next upload that was read. No answer where there is a fault or a frame of another kind.
fn next_upload(reader: &mut Reader) -> Option<Option<Upload>>
    ensures { held reader.new ≤ held reader.old }
{
    match next_frame(reader) {
        Ok(None) => Some(None),
        Ok(Some(Frame::Upload(upload))) => Some(Some(upload)),
        Ok(Some(_)) => None,
        Err(_) => None,
    }
}

// Feeds the frame of an upload to the reader, and takes all uploads that it gives.
fn send(alloc: Global, stream: &mut Stream, upload: &Upload) -> Option<()>
    requires { held stream.old.reader ≤ stream.old.fed }
    ensures { held stream.new.reader ≤ stream.new.fed }
{
    let bytes = write_upload(alloc, upload).ok()?;
    if stream.fed >= 1 << 62 || bytes.len() >= 1 << 62 {
        return None;
    }
    stream.fed += bytes.len() as u64;
    stream.reader.feed(&bytes).ok()?;
    for _ in 0..u64::MAX {
        let Some(upload) = next_upload(&mut stream.reader)? else {
            return Some(());
        };
        stream.sum = tallied(stream.sum, &upload);
    }
    None
}

/// Cuts `count` sketchlets into uploads, writes each as a frame, and reads it back.
pub(crate) fn sent(alloc: Global, count: u32) -> Option<u64> {
    let items = pool(alloc)?;
    let mut cutter = Cutter::new(alloc, 1);
    let mut stream = Stream {
        reader: Reader::new(alloc),
        fed: 0,
        sum: 0,
    };
    for n in 0..count {
        let item = items.get((n % POOL) as usize)?;
        if let Some(upload) = cut(&mut cutter, item)? {
            send(alloc, &mut stream, &upload)?;
        }
    }
    if let Some(upload) = cutter.finish() {
        send(alloc, &mut stream, &upload)?;
    }
    Some(mixed(stream.sum, stream.fed))
}
