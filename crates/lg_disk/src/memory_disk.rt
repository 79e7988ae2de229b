//! A disk in memory, which fails where it is told to.
ghost use Rattle.std.specs.Prelude.{◌≡◌, ◌⊎◌, ◌↔◌, ◌≤◌, ◌+◌, ◌-◌, ◌^◌, min, [], None, Some, length, take, drop, OnOk, OnErr, IfOk, IsSomeAnd, IsErr, IsTrue, true, false, if◌then◌else◌};
ghost use Rattle.lg_base.specs.Causes.{HasCause};
ghost use Rattle.lg_disk.specs.Disk.{Course, Holds, Only, Same, Shorter, Torn};
ghost use Rattle.lg_disk.specs.Memory.{first_half};
ghost use Rattle.lg_disk.specs.declared.call.Call.TheVariants.{Nothing, Write, Cut, Sync};

use crate::bytes::{change, copy_from};
use crate::call::{Call, Put};
use crate::choice::Choice;
use crate::disk::Disk;
use crate::replay::Replay;
use lg_base::{Failed, Failing, Faults, Memory};
use std::alloc::Global;
use std::marker::Model;

/// A disk in memory. It is honest, and keeps what it began with and a list of what each call changed.
///
/// A call fails exactly where it is listed, is stopped or finds no memory, and is counted as a fault then. A write that
/// is listed or stopped puts the first half of its bytes, rounded down; no other failing call changes anything. Calls
/// are those of `len`, `read_at`, `write_at`, `cut` and `sync`. A write that starts past the end changes nothing.
#[derive(Drop)]
pub struct MemoryDisk {
    alloc: Global,
    first: Vec<u8>,
    // What a read gives.
    bytes: Vec<u8>,
    calls: Vec<Call>,
    failing: Failing,
    stopped: Option<u32>,
    starved: Faults,
    faults: Faults,
}

impl Model for MemoryDisk {
    ghost use Rattle.lg_disk.specs.Memory.{Medium, IsKept};

    ghost Value = { Medium };

    ghost view = { λ m. record {
      first = m.first.items;
      calls = m.calls.items;
      failing = m.failing;
      stopped = m.stopped;
      starved = m.starved;
      faults = m.faults;
    } };

    ghost invariant = { λ m. IsKept m.first.items m.bytes.items m.calls.items };
}

// The bytes that a write puts: where it fails, the first half.
fn part_of(alloc: Global, bytes: &[u8], fails: bool) -> Result<Put, Memory>
    ensures { IfOk result (λ put. put ≡ (if fails then first_half bytes.now else bytes.now)) }
{
    let count = if fails { bytes.len() / 2 } else { bytes.len() };
    Ok(Put::new(bytes[..count].to_vec(alloc)?))
}

impl MemoryDisk {
    ghost use Rattle.lg_disk.specs.Memory.{state, file_of, IsHonest, IsNow, IsSince, moment, FailsExactly};
    ghost use Rattle.lg_disk.specs.Memory.{IsDue, counted, noted, faulted, wanted};
    ghost use Rattle.lg_disk.specs.Choices.{IsChosen};

    /// A disk with these bytes, all of them synced, that fails no call. Takes memory for a copy of the bytes.
    pub fn new(alloc: Global, bytes: Vec<u8>) -> Result<MemoryDisk, Memory>
        ensures bytes { IfOk result (λ m. (m.first ≡ bytes.items) × (m.calls ≡ [])) }
        ensures failing { IfOk result (λ m. (m.failing ≡ record { listed = []; calls = 0 }) × (m.stopped ≡ None)) }
        ensures no_fault { IfOk result (λ m. (m.starved ≡ 0) × (m.faults ≡ 0)) }
    {
        Ok(MemoryDisk {
            alloc,
            first: bytes.to_vec(alloc)?,
            bytes,
            calls: Vec::new(alloc),
            failing: Failing::new(Vec::new(alloc)),
            stopped: None,
            starved: Faults::none(),
            faults: Faults::none(),
        })
    }

    /// From now on the calls of these numbers fail, from 0, and no others do but those stopped. Takes no memory.
    pub fn fail(&mut self, calls: Vec<u32>)
        ensures { self.new ≡ record self.old { failing = record self.old.failing { listed = calls.items } } }
    {
        self.failing.list(calls);
    }

    /// From now on each call from number k on fails.
    pub fn stop_after(&mut self, k: u32)
        ensures { self.new ≡ record self.old { stopped = Some k } }
    {
        self.stopped = Some(k);
    }

    /// How many calls found no memory, up to 2^64 - 1. Each of them counts as a fault too.
    pub fn starved(&self) -> u64
        ensures { result ≡ self.now.starved }
    {
        self.starved.count()
    }

    /// What a read gives.
    pub fn bytes(&self) -> &[u8]
        ensures { result.now ≡ file_of self.now }
    {
        &self.bytes
    }

    /// One of the files that a crash now may leave. Takes memory for it and for replaying the list of calls.
    pub fn image(&self, choice: &Choice) -> Result<Vec<u8>, Memory>
        ensures image { IfOk result (λ v. IsNow self.now v.items) }
        ensures chosen { IfOk result (λ v. IsChosen choice.now (state self.now) v.items) }
    {
        Replay::run(self.alloc, &self.first, &self.calls)?.image(self.alloc, choice)
    }

    // Whether the next call and all after it are to fail.
    fn is_stopped(&self) -> bool
        ensures { IsTrue result ↔ IsSomeAnd self.now.stopped (λ k. k ≤ self.now.failing.calls) }
    {
        match self.stopped {
            Some(k) => u64::from(k) <= self.failing.calls(),
            None => false,
        }
    }

    // Whether this call is to fail. Counts it.
    fn fails_next(&mut self) -> bool
        ensures due { IsTrue result ↔ IsDue self.old }
        ensures counted { self.new ≡ counted self.old }
    {
        let is_stopped = self.is_stopped();
        self.failing.fails_next() || is_stopped
    }

    // Carries a change out and puts it on the list. Where memory runs out nothing has changed.
    fn carry(&mut self, call: Call) -> Result<(), Memory>
        ensures ok { OnOk result (self.new ≡ noted self.old call) }
        ensures err { OnErr result (self.new ≡ self.old) }
    {
        self.calls.reserve(1)?;
        change(&mut self.bytes, &call)?;
        self.calls.push_reserved(call);
        Ok(())
    }

    // Fails since memory ran out.
    fn starve(&mut self) -> Result<(), Failed>
        ensures err { IsErr result }
        ensures starved { self.new ≡ faulted (wanted self.old) }
        ensures cause { HasCause self.old.faults self.new.faults result }
    {
        self.starved.raise();
        self.faults.raise();
        Err(Failed)
    }

    // Carries out what a call changes that was counted, and fails where it is to.
    fn settle(&mut self, fails: bool, call: Call) -> Result<(), Failed>
        ensures ok { OnOk result ((fails ≡ false) × (self.new ≡ noted self.old call)) }
        ensures err { OnErr result (((fails ≡ true) × (self.new ≡ faulted (noted self.old call)))
            ⊎ (self.new ≡ faulted (wanted self.old))) }
        ensures cause { HasCause self.old.faults self.new.faults result }
    {
        if self.carry(call).is_err() {
            return self.starve();
        }
        if fails {
            self.faults.raise();
            return Err(Failed);
        }
        Ok(())
    }

    // A call that changes this where it goes well, and nothing where it fails.
    fn enter(&mut self, call: Call) -> Result<(), Failed>
        ensures exact { FailsExactly result call Nothing self.old self.new }
        ensures cause { HasCause self.old.faults self.new.faults result }
    {
        let fails = self.fails_next();
        let call = if fails { Call::Nothing } else { call };
        self.settle(fails, call)
    }

    // A call that changes nothing.
    fn look(&mut self) -> Result<(), Failed>
        ensures seen { file_of self.new ≡ file_of self.old }
        ensures course { Course IsHonest IsNow moment IsSince Same self.old self.new }
        ensures exact { FailsExactly result Nothing Nothing self.old self.new }
        ensures cause { HasCause self.old.faults self.new.faults result }
    {
        self.enter(Call::Nothing)
    }
}

impl Disk for MemoryDisk {
    ghost use Rattle.lg_disk.specs.Memory.{file_of, IsHonest, IsNow, IsSince, moment, FailsExactly};
    ghost use Rattle.lg_disk.specs.Memory.{reads_now, now_is_since, since_is_now};

    ghost honest = { λ m. IsHonest m };

    ghost seen = { λ m. file_of m };

    ghost images = { λ m c. IsNow m c };

    ghost moment = { λ m. moment m };

    ghost since = { λ m t c. IsSince m t c };

    ghost faults = { λ m. m.faults };

    ghost reads_image = { λ m honest. reads_now m };

    ghost counts_now = { λ m t c honest le now. now_is_since m t c le now };

    ghost only_now = { λ m c honest since. since_is_now m c since };

    fn len(&mut self) -> Result<u64, Failed>
        ensures length { IsHonest self.old → IfOk result (λ n. n ≡ length (file_of self.old)) }
        ensures seen { IsHonest self.old → file_of self.new ≡ file_of self.old }
        ensures course { Course IsHonest IsNow moment IsSince Same self.old self.new }
        ensures cause { HasCause self.old.faults self.new.faults result }
        ensures exact { FailsExactly result Nothing Nothing self.old self.new }
    {
        self.look()?;
        Ok(self.bytes.len() as u64)
    }

    fn read_at(&mut self, at: u64, buf: &mut [u8]) -> Result<usize, Failed>
        ensures fits { IfOk result (λ n. n ≤ length buf.old) }
        ensures read { IsHonest self.old → IfOk result (λ n. n ≡ min (length buf.old) (length (file_of self.old) - at)) }
        ensures bytes { IsHonest self.old → IfOk result (λ n. take n buf.new ≡ take n (drop at (file_of self.old))) }
        ensures seen { IsHonest self.old → file_of self.new ≡ file_of self.old }
        ensures course { Course IsHonest IsNow moment IsSince Same self.old self.new }
        ensures cause { HasCause self.old.faults self.new.faults result }
        ensures exact { FailsExactly result Nothing Nothing self.old self.new }
    {
        self.look()?;
        Ok(copy_from(&self.bytes, at, buf))
    }

    fn write_at(&mut self, at: u64, bytes: &[u8]) -> Result<(), Failed>
        requires { at + length bytes.now ≤ 2 ^ 40 }
        ensures written { IsHonest self.old → at ≤ length (file_of self.old) →
            OnOk result (Holds (file_of self.old) at bytes.now (file_of self.new)) }
        ensures course { Course IsHonest IsNow moment IsSince (Torn at (length bytes.now)) self.old self.new }
        ensures cause { HasCause self.old.faults self.new.faults result }
        ensures exact { FailsExactly result (Write at bytes.now) (Write at (first_half bytes.now)) self.old self.new }
    {
        let fails = self.fails_next();
        match part_of(self.alloc, bytes, fails) {
            Ok(bytes) => self.settle(fails, Call::Write { at, bytes }),
            Err(_) => self.starve(),
        }
    }

    fn cut(&mut self, len: u64) -> Result<(), Failed>
        ensures cut { IsHonest self.old → OnOk result (file_of self.new ≡ take len (file_of self.old)) }
        ensures course { Course IsHonest IsNow moment IsSince (Shorter len) self.old self.new }
        ensures cause { HasCause self.old.faults self.new.faults result }
        ensures exact { FailsExactly result (Cut len) Nothing self.old self.new }
    {
        self.enter(Call::Cut { len })
    }

    fn sync(&mut self) -> Result<(), Failed>
        ensures durable { IsHonest self.old → OnOk result (Only (file_of self.old) (IsNow self.new)) }
        ensures seen { IsHonest self.old → file_of self.new ≡ file_of self.old }
        ensures course { Course IsHonest IsNow moment IsSince Same self.old self.new }
        ensures cause { HasCause self.old.faults self.new.faults result }
        ensures exact { FailsExactly result Sync Nothing self.old self.new }
    {
        self.enter(Call::Sync)
    }

    fn fault_count(&self) -> u64 {
        self.faults.count()
    }
}

#[cfg(test)]
mod tests {
    use super::*;
    use std::test::Fail;

    // One of ten calls of a day with a file.
    fn make_call<D: Disk>(disk: &mut D, number: u32) -> Result<(), Failed> {
        match number {
            0 => disk.len().map(|_| ()),
            1 => disk.write_at(0, b"epoch 1\n"),
            3 => disk.write_at(8, b"epoch 2\n"),
            4 => disk.read_at(0, &mut [0; 8]).map(|_| ()),
            6 => disk.cut(8),
            8 => disk.write_at(8, b"epoch 3\n"),
            _ => disk.sync(),
        }
    }

    #[test]
    fn stops_after_each_of_ten_calls(rt: HostRuntime) -> Result<(), Fail> {
        let half = "epoch 1\nepoc";
        let two = "epoch 1\nepoch 2\n";
        let three = "epoch 1\nepoch 3\n";
        for (k, read, synced) in [
            (0, "epoc", ""),
            (1, "epoc", ""),
            (2, half, ""),
            (3, half, "epoch 1\n"),
            (4, two, "epoch 1\n"),
            (5, two, "epoch 1\n"),
            (6, two, two),
            (7, half, two),
            (8, half, "epoch 1\n"),
            (9, three, "epoch 1\n"),
            (10, three, three),
        ] {
            let mut disk = MemoryDisk::new(rt.alloc(), Vec::new(rt.alloc()))?;
            disk.stop_after(k);
            for number in 0..10 {
                let want = if number < k { Ok(()) } else { Err(Failed) };
                assert_eq!(rt; make_call(&mut disk, number), want, "call {number} of {k}");
            }
            assert_eq!(rt; disk.fault_count(), u64::from(10 - k));
            assert_eq!(rt; disk.starved(), 0);
            assert_eq!(rt; disk.bytes(), read.as_bytes(), "stopped after {k}");
            let image = disk.image(&Choice::AsSynced)?;
            assert_eq!(rt; image.as_slice(), synced.as_bytes(), "stopped after {k}");
        }
        Ok(())
    }

    #[test]
    fn gives_its_crash_images(rt: HostRuntime) -> Result<(), Fail> {
        let mut disk = MemoryDisk::new(rt.alloc(), b"abcdef".to_vec(rt.alloc())?)?;
        disk.fail([4u32, 6].to_vec(rt.alloc())?);
        for (call, read, synced, long, short) in [
            (0, "abXYef", "abcdef", "ab??ef", "ab??ef"),
            (1, "abXYef", "abXYef", "abXYef", "abXYef"),
            (2, "abXYefghi", "abXYef", "abXYef???", "abXYef"),
            (3, "abXY", "abXYef", "abXYef???", "abXY"),
            // A sync that fails, and a write of which a half is put.
            (4, "abXY", "abXYef", "abXYef???", "abXY"),
            (5, "a__Y", "abXYef", "a??Yef???", "a??Y"),
            (6, "a_zY", "abXYef", "a??Yef???", "a??Y"),
            (7, "a_zY", "a_zY", "a_zY", "a_zY"),
        ] {
            let told = match call {
                0 => disk.write_at(2, b"XY"),
                2 => disk.write_at(6, b"ghi"),
                3 => disk.cut(4),
                5 => disk.write_at(1, b"__"),
                6 => disk.write_at(2, b"zZZ"),
                _ => disk.sync(),
            };
            assert_eq!(rt; told.is_err(), call == 4 || call == 6);
            assert_eq!(rt; disk.bytes(), read.as_bytes());
            for (choice, want) in [
                (Choice::AsRead, read),
                (Choice::AsSynced, synced),
                (Choice::FillLong(b'?'), long),
                (Choice::FillShort(b'?'), short),
            ] {
                let image = disk.image(&choice)?;
                assert_eq!(rt;
                    image.as_slice(),
                    want.as_bytes(),
                    "{choice:?} after call {call}"
                );
            }
        }
        Ok(())
    }

    #[test]
    fn appends_thousands_of_records(rt: HostRuntime) -> Result<(), Fail> {
        let mut disk = MemoryDisk::new(rt.alloc(), Vec::new(rt.alloc()))?;
        for i in 0..3000 {
            disk.write_at(20 * i, b"0 column 1 of flow 2")?;
            disk.sync()?;
            disk.write_at(20 * i, b"1")?;
            disk.sync()?;
        }
        let mut buf = [0; 40];
        assert_eq!(rt; disk.len(), Ok(60_000));
        assert_eq!(rt; disk.read_at(59_980, &mut buf), Ok(20));
        assert_eq!(rt; &buf[..20], b"1 column 1 of flow 2".as_slice());
        assert_eq!(rt; disk.read_at(60_000, &mut buf), Ok(0));
        assert_eq!(rt; disk.fault_count(), 0);
        Ok(())
    }
}
