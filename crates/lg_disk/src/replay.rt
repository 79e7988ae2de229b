//! What a list of calls leaves, by the disk model.
ghost use Rattle.std.specs.Prelude.{◌≡◌, ◌↔◌, ◌≤◌, length, IfOk, OnOk, IsTrue};
ghost use Rattle.lg_disk.specs.Choices.{IsChosen, IsFilled, IsFilledAt};
ghost use Rattle.lg_disk.specs.Model.{IsWritten, run, start, step, wrote};

use crate::bytes::put_at;
use crate::call::Call;
use crate::choice::Choice;
use lg_base::Memory;
use std::alloc::Global;
use std::marker::Model;

// The state of a disk after a list of calls.
#[derive(Drop)]
pub(crate) struct Replay {
    seen: Vec<u8>,
    synced: Vec<u8>,
    written: Vec<(u64, u64)>,
    least: u64,
    greatest: u64,
}

impl Model for Replay {
    ghost use Rattle.lg_disk.specs.Model.{State};

    ghost Value = { State };

    ghost view = { λ r. record {
      seen = r.seen.items;
      synced = r.synced.items;
      written = r.written.items;
      least = r.least;
      greatest = r.greatest;
    } };
}

// Whether the byte at i is in one of the ranges.
fn is_written(ranges: &[(u64, u64)], i: u64) -> bool
    ensures { IsTrue result ↔ IsWritten ranges.now i }
{
    ranges.iter().any(|(at, len)| *at <= i && i - *at < *len)
}

impl Replay {
    fn new(alloc: Global, file: &[u8]) -> Result<Replay, Memory>
        ensures { IfOk result (λ r. r ≡ start file.now) }
    {
        Ok(Replay {
            seen: file.to_vec(alloc)?,
            synced: file.to_vec(alloc)?,
            written: Vec::new(alloc),
            least: file.len() as u64,
            greatest: file.len() as u64,
        })
    }

    // These bytes were put there, at a place up to the end.
    fn write(&mut self, at: u64, bytes: &[u8]) -> Result<(), Memory>
        requires { at ≤ length self.old.seen }
        ensures { OnOk result (self.new ≡ wrote self.old at bytes.now) }
    {
        put_at(&mut self.seen, at as usize, bytes)?;
        self.written.push((at, bytes.len() as u64))?;
        self.greatest = self.greatest.max(at + bytes.len() as u64);
        Ok(())
    }

    // All became durable.
    fn sync(&mut self) -> Result<(), Memory>
        ensures { OnOk result (self.new ≡ start self.old.seen) }
    {
        self.synced.clear();
        self.synced.extend_from_slice(&self.seen)?;
        self.written.clear();
        self.least = self.seen.len() as u64;
        self.greatest = self.least;
        Ok(())
    }

    // After one call more.
    fn step(&mut self, call: &Call) -> Result<(), Memory>
        ensures { OnOk result (self.new ≡ step self.old call.now) }
    {
        match call {
            Call::Nothing => Ok(()),
            Call::Write { at, bytes } => {
                if *at > self.seen.len() as u64 {
                    return Ok(());
                }
                self.write(*at, bytes.bytes())
            }
            Call::Cut { len } => {
                self.seen.truncate(*len as usize);
                self.least = self.least.min(*len);
                Ok(())
            }
            Call::Sync => self.sync(),
        }
    }

    // The state after these calls of a disk that began with that file, all of it synced.
    pub(crate) fn run(alloc: Global, first: &[u8], calls: &[Call]) -> Result<Replay, Memory>
        ensures { IfOk result (λ r. r ≡ run (start first.now) calls.now) }
    {
        let mut replay = Replay::new(alloc, first)?;
        for call in calls {
            replay.step(call)?;
        }
        Ok(replay)
    }

    // What stands at i in an image that is filled with that byte.
    fn byte_at(&self, i: u64, byte: u8) -> u8
        ensures { IsFilledAt self.now byte i result }
    {
        if i >= self.synced.len() as u64 {
            return byte;
        }
        if is_written(&self.written, i) {
            return byte;
        }
        self.synced[i as usize]
    }

    // The image of that length that is filled with that byte.
    fn filled(&self, alloc: Global, len: u64, byte: u8) -> Result<Vec<u8>, Memory>
        ensures { IfOk result (λ v. IsFilled self.now len byte v.items) }
    {
        let mut bytes = Vec::new(alloc);
        for i in 0..len {
            bytes.push(self.byte_at(i, byte))?;
        }
        Ok(bytes)
    }

    // One of the files that a crash now may leave.
    pub(crate) fn image(self, alloc: Global, choice: &Choice) -> Result<Vec<u8>, Memory>
        ensures { IfOk result (λ v. IsChosen choice.now self v.items) }
    {
        match choice {
            Choice::AsRead => Ok(self.seen),
            Choice::AsSynced => Ok(self.synced),
            Choice::FillLong(byte) => self.filled(alloc, self.greatest, *byte),
            Choice::FillShort(byte) => self.filled(alloc, self.least, *byte),
        }
    }
}
