// A file as a disk. The trusted edge: nothing is told of what it holds or what a crash leaves.
ghost use Rattle.std.specs.Prelude.{◌≡◌, None, is_some};
ghost use Rattle.rw_io.specs.Causes.{HasCause};

use rw_io::{Disk, Failed};
use std::fs::{OpenFile, OpenOptions};
use std::io;
use std::io::{Read, Seek, SeekFrom, Write};
use std::rt::Files;

/// A file, once `attach` has named it.
#[derive(Drop)]
pub struct FileDisk<'a, R: Files> {
    files: &'a R,
    file: Option<R::File>,
    faults: u64,
}

impl<'a, R: Files> FileDisk<'a, R> {
    /// A disk with no file yet, and no fault so far.
    pub fn new(files: &'a R) -> Self
        ensures { result.faults ≡ 0 }
    {
        FileDisk {
            files,
            file: None,
            faults: 0,
        }
    }
}

// Opens a file, and makes one that is not there.
fn opened<R: Files>(files: &R, name: &str) -> io::Result<R::File> {
    OpenOptions::new()
        .read(true)
        .write(true)
        .create(true)
        .open(files, name)
}

fn read_from<F: Read + Seek>(file: &mut F, at: u64, into: &mut [u8]) -> io::Result<()> {
    file.seek(SeekFrom::Start(at))?;
    file.read_exact(into)
}

fn write_to<F: Write + Seek>(file: &mut F, at: u64, bytes: &[u8]) -> io::Result<()> {
    file.seek(SeekFrom::Start(at))?;
    file.write_all(bytes)
}

// Cuts a file that is longer.
fn cut_to<F: OpenFile>(file: &F, len: u64) -> io::Result<()> {
    if file.metadata()?.len() > len {
        file.set_len(len)?;
    }
    Ok(())
}

// Counts what failed.
fn count<T: Drop>(faults: &mut u64, done: io::Result<T>) -> Result<T, Failed>
    ensures { HasCause faults.old faults.new result }
{
    if let Ok(value) = done {
        return Ok(value);
    }
    *faults = faults.saturating_add(1);
    Err(Failed)
}

impl<'a, R: Files> Disk for FileDisk<'a, R> {
    ghost attached = { λ d. is_some d.file };

    ghost seen = { λ d. None };

    ghost may_leave = { λ d c. Unit {0} };

    ghost moment = { λ d. 0 };

    ghost left_since = { λ d t c. Unit {0} };

    ghost disk_faults = { λ d. d.faults };

    ghost counts_now = { λ d t c le now. tt };

    ghost only_now = { λ d c left. tt };

    ghost may_leave_seen = { λ d. tt };

    fn attach(&mut self, name: &str) -> Result<(), Failed> {
        match opened(self.files, name) {
            Ok(file) => {
                self.file = Some(file);
                Ok(())
            }
            Err(_) => {
                self.faults = self.faults.saturating_add(1);
                Err(Failed)
            }
        }
    }

    fn len(&mut self) -> Result<u64, Failed> {
        let done = match &self.file {
            Some(file) => file.metadata().map(|data| data.len()),
            None => Err(io::ErrorKind::NotFound.into()),
        };
        count(&mut self.faults, done)
    }

    fn read_at(&mut self, at: u64, into: &mut [u8]) -> Result<(), Failed> {
        let done = match &mut self.file {
            Some(file) => read_from(file, at, into),
            None => Err(io::ErrorKind::NotFound.into()),
        };
        count(&mut self.faults, done)
    }

    fn write_at(&mut self, at: u64, bytes: &[u8]) -> Result<(), Failed> {
        let done = match &mut self.file {
            Some(file) => write_to(file, at, bytes),
            None => Err(io::ErrorKind::NotFound.into()),
        };
        count(&mut self.faults, done)
    }

    fn cut(&mut self, len: u64) -> Result<(), Failed> {
        let done = match &self.file {
            Some(file) => cut_to(file, len),
            None => Err(io::ErrorKind::NotFound.into()),
        };
        count(&mut self.faults, done)
    }

    fn sync(&mut self) -> Result<(), Failed> {
        let done = match &self.file {
            Some(file) => file.sync_all(),
            None => Err(io::ErrorKind::NotFound.into()),
        };
        count(&mut self.faults, done)
    }
}
