//! A disk over a real file.
ghost use Rattle.std.specs.Prelude.{◌≡◌, ◌≤◌, [], Ok, length, IfOk, OnErr, OnOk};
ghost use Rattle.lg_base.specs.Causes.{HasCause, one_more};

use crate::disk::Disk;
use lg_base::{Failed, Faults};
use std::fs::{OpenFile, OpenOptions};
use std::io;
use std::io::ErrorKind;
use std::marker::Model;
use std::os::unix::fs::FileExt;
use std::rt::Files;

/// A disk over the file of a name. It is opened at the first call and stays open. Where it isn't there it is empty, and
/// the first write makes it; its folder is then synced once, so that the name stays too.
///
/// It counts its faults: a call of the system that fails, and a read within the file that gets fewer bytes. It is not
/// honest and tells no bytes: that a real file behaves as the disk model says is a premise of the user, and not proved.
/// Contracts see the name and the count of faults.
#[derive(Drop)]
pub struct FileDisk<'a, F: Files> {
    files: &'a F,
    name: &'a str,
    file: Option<F::File>,
    // The file was made, and its folder was not synced since.
    is_new: bool,
    faults: Faults,
}

impl<'a, F: Files> Model for FileDisk<'a, F> {
    ghost use Rattle.lg_disk.specs.File.{FileState};

    ghost Value = { FileState };

    ghost view = { λ d. record { name = d.name.now; faults = d.faults } };
}

// Opens the file to read and write it. None: it isn't there, and was not to be made.
fn open_file<F: Files>(files: &F, name: &str, make: bool) -> io::Result<Option<F::File>> {
    let mut how = OpenOptions::new();
    how.read(true).write(true).create(make);
    match how.open(files, name) {
        Ok(file) => Ok(Some(file)),
        Err(error) if !make && error.kind() == ErrorKind::NotFound => Ok(None),
        Err(error) => Err(error),
    }
}

// Makes the names in the file's folder durable.
fn sync_folder<F: Files>(files: &F, name: &str) -> io::Result<()> {
    let folder = match name.rsplit_once('/') {
        None => ".",
        Some(("", _)) => "/",
        Some((folder, _)) => folder,
    };
    let mut how = OpenOptions::new();
    how.read(true);
    how.open(files, folder)?.sync_all()
}

// Reads from that place on until the buffer is full or the file ends.
fn read_from<F: FileExt + OpenFile>(file: &F, at: u64, buf: &mut [u8]) -> io::Result<usize>
    ensures { IfOk result (λ n. n ≤ length buf.old) }
{
    let count = match file.read_at(buf, at) {
        Ok(count) => count,
        Err(error) if error.kind() == ErrorKind::Interrupted => 0,
        Err(error) => return Err(error),
    };
    if count == buf.len() {
        return Ok(count);
    }
    let rest = file.metadata()?.len().saturating_sub(at);
    let want = rest.min(buf.len() as u64) as usize;
    if count < want {
        file.read_exact_at(&mut buf[count..want], at.saturating_add(count as u64))?;
        return Ok(want);
    }
    Ok(count)
}

// Makes the length the smaller of itself and that one.
fn cut_to<F: OpenFile>(file: &F, len: u64) -> io::Result<()> {
    if file.metadata()?.len() > len {
        file.set_len(len)?;
    }
    Ok(())
}

impl<'a, F: Files> FileDisk<'a, F>
where
    F::File: FileExt,
{
    /// A disk over the file of that name, with no fault yet. Opens nothing and takes no memory.
    pub fn at(files: &'a F, name: &'a str) -> FileDisk<'a, F>
        ensures { result ≡ record { name = name.now; faults = 0 } }
    {
        FileDisk {
            files,
            name,
            file: None,
            is_new: false,
            faults: Faults::none(),
        }
    }

    // Opens the file where it is there and isn't open.
    fn open(&mut self) -> io::Result<()>
        ensures { self.new ≡ self.old }
    {
        if self.file.is_none() {
            self.file = open_file(self.files, self.name, false)?;
        }
        Ok(())
    }

    // Opens the file, or makes it.
    fn make(&mut self) -> io::Result<()>
        ensures { self.new ≡ self.old }
    {
        self.open()?;
        if self.file.is_none() {
            self.file = open_file(self.files, self.name, true)?;
            self.is_new = true;
        }
        if self.is_new {
            sync_folder(self.files, self.name)?;
            self.is_new = false;
        }
        Ok(())
    }

    fn try_len(&mut self) -> io::Result<u64>
        ensures { self.new ≡ self.old }
    {
        self.open()?;
        match &self.file {
            None => Ok(0),
            Some(file) => Ok(file.metadata()?.len()),
        }
    }

    fn try_read(&mut self, at: u64, buf: &mut [u8]) -> io::Result<usize>
        ensures fits { IfOk result (λ n. n ≤ length buf.old) }
        ensures faults { self.new ≡ self.old }
    {
        // No file reaches there, and no call can read there.
        if at > i64::MAX as u64 {
            return Ok(0);
        }
        self.open()?;
        match &self.file {
            None => Ok(0),
            Some(file) => read_from(file, at, buf),
        }
    }

    fn try_write(&mut self, at: u64, bytes: &[u8]) -> io::Result<()>
        ensures { self.new ≡ self.old }
    {
        self.make()?;
        match &self.file {
            None => Err(io::Error::from(ErrorKind::NotFound)),
            Some(file) => file.write_all_at(bytes, at),
        }
    }

    fn try_cut(&mut self, len: u64) -> io::Result<()>
        ensures { self.new ≡ self.old }
    {
        self.open()?;
        match &self.file {
            None => Ok(()),
            Some(file) => cut_to(file, len),
        }
    }

    fn try_sync(&mut self) -> io::Result<()>
        ensures { self.new ≡ self.old }
    {
        self.open()?;
        match &self.file {
            None => Ok(()),
            Some(file) => file.sync_data(),
        }
    }

    // What the call answers, with its fault counted.
    fn told<T: Drop>(&mut self, outcome: io::Result<T>) -> Result<T, Failed>
        ensures same { IfOk result (λ x. outcome ≡ Ok x) }
        ensures no_fault { OnOk result (self.new ≡ self.old) }
        ensures fault { OnErr result (self.new ≡ record self.old { faults = one_more self.old.faults }) }
        ensures cause { HasCause self.old.faults self.new.faults result }
    {
        match outcome {
            Ok(x) => Ok(x),
            Err(_) => {
                self.faults.raise();
                Err(Failed)
            }
        }
    }
}

impl<'a, F: Files> Disk for FileDisk<'a, F>
where
    F::File: FileExt,
{
    ghost honest = { λ d. ⊥ };

    ghost seen = { λ d. [] };

    ghost images = { λ d c. ⊥ };

    ghost moment = { λ d. 0 };

    ghost since = { λ d t c. ⊥ };

    ghost faults = { λ d. d.faults };

    ghost reads_image = { λ d honest. absurd honest };

    ghost counts_now = { λ d t c honest le now. absurd honest };

    ghost only_now = { λ d c honest since. absurd honest };

    fn len(&mut self) -> Result<u64, Failed> {
        let outcome = self.try_len();
        self.told(outcome)
    }

    fn read_at(&mut self, at: u64, buf: &mut [u8]) -> Result<usize, Failed> {
        let outcome = self.try_read(at, buf);
        self.told(outcome)
    }

    fn write_at(&mut self, at: u64, bytes: &[u8]) -> Result<(), Failed> {
        let outcome = self.try_write(at, bytes);
        self.told(outcome)
    }

    fn cut(&mut self, len: u64) -> Result<(), Failed> {
        let outcome = self.try_cut(len);
        self.told(outcome)
    }

    fn sync(&mut self) -> Result<(), Failed> {
        let outcome = self.try_sync();
        self.told(outcome)
    }

    fn fault_count(&self) -> u64 {
        self.faults.count()
    }
}

#[cfg(test)]
mod tests {
    use super::*;
    use std::fs;
    use std::test::Fail;

    #[test]
    fn writes_syncs_cuts_and_reads_back(rt: HostRuntime) -> Result<(), Fail> {
        fs::create_dir(&rt, "disk")?;
        let name = "disk/guardian.book";
        let mut disk = FileDisk::at(&rt, name);
        let mut buf = [7; 8];
        assert_eq!(rt; disk.len(), Ok(0));
        assert_eq!(rt; disk.read_at(0, &mut buf), Ok(0));
        assert_eq!(rt; disk.cut(4), Ok(()));
        assert_eq!(rt; disk.sync(), Ok(()));
        assert!(rt; fs::metadata(&rt, name).is_err());

        assert_eq!(rt; disk.write_at(0, b"epoch 1"), Ok(()));
        assert_eq!(rt; disk.sync(), Ok(()));
        assert_eq!(rt; disk.write_at(6, b"2 and more"), Ok(()));
        assert_eq!(rt; disk.cut(9), Ok(()));
        assert_eq!(rt; disk.cut(12), Ok(()));
        assert_eq!(rt; disk.sync(), Ok(()));
        drop(disk);

        let mut again = FileDisk::at(&rt, name);
        assert_eq!(rt; again.len(), Ok(9));
        for (at, count, bytes) in [
            (0, 8, b"epoch 2 ".as_slice()),
            (6, 3, b"2 a"),
            (9, 0, b""),
            (1 << 40, 0, b""),
            (u64::MAX, 0, b""),
        ] {
            assert_eq!(rt; again.read_at(at, &mut buf), Ok(count), "from {at}");
            assert_eq!(rt; &buf[..count], bytes);
        }
        assert_eq!(rt; again.fault_count(), 0);
        Ok(())
    }

    #[test]
    fn counts_each_fault(rt: HostRuntime) -> Result<(), Fail> {
        fs::create_dir(&rt, "folder")?;
        let mut disk = FileDisk::at(&rt, "folder");
        assert_eq!(rt; disk.len(), Err(Failed));
        assert_eq!(rt; disk.read_at(0, &mut [0; 4]), Err(Failed));
        assert_eq!(rt; disk.write_at(0, b"1500"), Err(Failed));
        assert_eq!(rt; disk.cut(0), Err(Failed));
        assert_eq!(rt; disk.sync(), Err(Failed));
        assert_eq!(rt; disk.fault_count(), 5);
        Ok(())
    }
}
