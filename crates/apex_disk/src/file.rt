//! A device over a file. It tells nothing of its bytes: what a real file keeps is trusted, and no clause speaks of it.
ghost use Rattle.std.specs.Prelude.{◌≡◌, ◌≤◌, ◌^◌, ◌||◌, [], None, IfOk, IsTrue};
ghost use Rattle.apex_base.specs.Causes.{Rose};
ghost use Rattle.apex_disk.specs.declared.arm.Arm.TheVariants.{Off};
ghost use Rattle.apex_disk.specs.Arm.{armed, has_stopped};
ghost use Rattle.apex_disk.specs.File.{IsOpened, HeedsCut, CountsWrite, LosesAtFailure, none_told};
ghost use Rattle.apex_disk.specs.Meter.{next};

use crate::arm::Arm;
use crate::disk::{Device, Disk, Entry};
use apex_base::Failed;
use std::alloc::{AllocError, Global};
use std::fs::{File, OpenFile, OpenOptions};
use std::io;
use std::io::ErrorKind;
use std::marker::Model;
use std::os::unix::fs::FileExt;
use std::path::Path;
use std::rt::Files;

/// A file of a fixed length. Once a sync has failed, nobody knows which of the bytes written since the last one are on
/// the disk, and every later call fails.
#[derive(Drop)]
pub struct FileDisk<F = File> {
    file: F,
    len: u64,
    faults: u64,
    lost: bool,
    arm: Arm,
    log: Vec<Entry>,
}

impl<F> Model for FileDisk<F> {
    ghost use Rattle.std.specs.Prelude.{◌-◌, vec_len, vec_capacity};
    ghost use Rattle.apex_disk.specs.File.{FileState};

    ghost Value = { FileState };

    ghost view = { λ disk. record {
      len = disk.len;
      faults = disk.faults;
      lost = disk.lost;
      arm = disk.arm;
      log = disk.log.items;
      spare = vec_capacity disk.log - vec_len disk.log;
    } };
}

/// Why a file can't be opened as a disk.
#[derive(Clone, Copy, Debug, PartialEq, Eq)]
pub enum OpenWhy {
    Failed,
    NoMemory,
}

impl<F: FileExt + OpenFile + Drop> FileDisk<F> {
    /// A disk over the file at that path. A file that isn't there, or is empty, is made `len` zeros; any other keeps its
    /// own length.
    pub fn open<R: Files<File = F>>(
        rt: &R,
        alloc: Global,
        path: &str,
        len: u64,
    ) -> Result<Self, OpenWhy>
        ensures { IfOk result IsOpened }
    {
        match open_or_make(rt, path, len) {
            Ok((file, found)) => Ok(FileDisk::over(alloc, file, found)),
            Err(error) if error.kind() == ErrorKind::OutOfMemory => Err(OpenWhy::NoMemory),
            Err(_) => Err(OpenWhy::Failed),
        }
    }

    /// A disk over an open file of that length.
    pub fn over(alloc: Global, file: F, len: u64) -> Self
        ensures len { result.len ≡ len }
        ensures opened { IsOpened result }
    {
        FileDisk {
            file,
            len,
            faults: 0,
            lost: false,
            arm: Arm::Off,
            log: Vec::new(alloc),
        }
    }

    /// Each cut that was armed and each cycle, in order.
    pub fn log(&self) -> &[Entry]
        ensures { result.now ≡ self.now.log }
    {
        &self.log
    }

    /// Whether no call does anything, for good or until the power comes back.
    fn is_off(&self) -> bool
        ensures { result ≡ (self.now.lost || has_stopped self.now.arm) }
    {
        self.lost || self.arm.has_stopped()
    }

    /// Counts a fault.
    fn failed(&mut self) -> Failed
        ensures counted { self.new ≡ record self.old { faults = next self.old.faults } }
        ensures rose { Rose self.old.faults self.new.faults }
        ensures later { self.old.faults ≤ self.new.faults }
    {
        self.faults = self.faults.saturating_add(1);
        Failed
    }
}

fn open_or_make<R: Files>(rt: &R, path: &str, len: u64) -> io::Result<(R::File, u64)> {
    let mut how = OpenOptions::new();
    let file = how.read(true).write(true).create(true).open(rt, path)?;
    let found = file.metadata()?.len();
    if found > 0 {
        return Ok((file, found));
    }
    make(rt, &file, path, len)?;
    Ok((file, len))
}

/// Makes an empty file so many zeros long, and brings it to the disk, and its name in the folder too.
fn make<R: Files>(rt: &R, file: &R::File, path: &str, len: u64) -> io::Result<()> {
    file.set_len(len)?;
    file.sync_all()?;
    File::open(rt, folder_of(path))?.sync_all()
}

fn folder_of(path: &str) -> &str {
    match Path::new(path).parent() {
        Some(folder) if !folder.as_str().is_empty() => folder.as_str(),
        _ => ".",
    }
}

impl<F: FileExt + OpenFile + Drop> Disk for FileDisk<F> {
    ghost reads = { λ disk. None };

    ghost images = { λ disk c. ⊥ };

    ghost moment = { λ disk. 0 };

    ghost images_since = { λ disk t c. ⊥ };

    ghost faults = { λ disk. disk.faults };

    ghost gone = { λ disk. IsTrue disk.lost };

    ghost log = { λ disk. disk.log };

    ghost length_of = { λ disk. disk.len };

    ghost spare_calls = { λ disk. disk.spare };

    ghost spare_bytes = { λ disk. 2 ^ 64 };

    ghost read_does = { λ old new result. HeedsCut old new result };

    ghost write_does = { λ old new at bytes result. CountsWrite old new result };

    ghost sync_does = { λ old new result. LosesAtFailure old new result };

    ghost counts_now = { λ disk t c le now. now };

    ghost only_now = { λ disk c left. left };

    ghost images_long = { λ disk c left. absurd left };

    ghost reads_left = { λ disk file is. absurd (none_told file is) };

    fn len(&self) -> u64 {
        self.len
    }

    fn faults(&self) -> u64 {
        self.faults
    }

    fn reserve(&mut self, calls: u32, _bytes: u64) -> Result<(), AllocError> {
        self.log.reserve(calls as usize)?;
        Ok(())
    }

    fn read(&mut self, at: u64, into: &mut [u8]) -> Result<(), Failed> {
        if self.is_off() {
            return Err(self.failed());
        }
        match self.file.read_exact_at(into, at) {
            Ok(()) => Ok(()),
            Err(_) => Err(self.failed()),
        }
    }

    fn write(&mut self, at: u64, bytes: &[u8]) -> Result<(), Failed> {
        self.arm = self.arm.after_write();
        if self.is_off() {
            return Err(self.failed());
        }
        match self.file.write_all_at(bytes, at) {
            Ok(()) => Ok(()),
            Err(_) => Err(self.failed()),
        }
    }

    fn sync(&mut self) -> Result<(), Failed> {
        if self.is_off() {
            return Err(self.failed());
        }
        match self.file.sync_data() {
            Ok(()) => Ok(()),
            Err(_) => {
                self.lost = true;
                Err(self.failed())
            }
        }
    }
}

impl<F: FileExt + OpenFile + Drop> Device for FileDisk<F> {
    ghost arm_does = { λ old new writes pick. new.arm ≡ armed old.arm writes pick };

    ghost cycle_does = { λ old new. new.arm ≡ Off };

    fn arm(&mut self, writes: u32, pick: u32) -> Result<(), AllocError> {
        let spare = self.log.capacity() - self.log.len();
        self.log.reserve(spare.saturating_add(1))?;
        self.log.push_reserved(Entry::Armed { writes, pick });
        self.arm = self.arm.armed(writes, pick);
        Ok(())
    }

    fn cycle(&mut self) {
        self.log.push_reserved(Entry::Cycled { count: self.faults });
        self.arm = Arm::Off;
    }
}
