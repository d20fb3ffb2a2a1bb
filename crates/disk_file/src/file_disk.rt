//! A disk over a file of the operating system.

ghost use Rattle.std.specs.Prelude.{◌≡◌, IfErr};
ghost use Rattle.std.specs.Path.{path_bytes};
ghost use Rattle.disk.specs.Calls.{CountsFailure};
ghost use Rattle.disk_file.specs.Folders as folders;

use disk::Disk;
use sqlval::{Fault, R};
use std::fs::{File, OpenOptions};
use std::io;
use std::os::unix::fs::FileExt;
use std::path::Path;
use std::rt::Files;

/// Greatest offset that the operating system takes.
const MAX_OFFSET: u64 = (1 << 63) - 1;

/// A file of the operating system. Its contract speaks of failures alone (`tells` is false).
#[derive(Drop)]
pub struct FileDisk {
    file: File,
    /// Number of failed calls.
    failures: u64,
    /// The file's length in bytes, where it is known.
    len: Option<u64>,
}

impl FileDisk {
    /// Opens a file for reading and writing, and creates it where it doesn't exist. The only refusal is `Io`.
    pub fn open<F: Files<File = File>>(files: &F, name: &str) -> R<FileDisk> {
        let opened = OpenOptions::new()
            .read(true)
            .write(true)
            .create(true)
            .open(files, name);
        match opened {
            Ok(file) => Ok(FileDisk {
                file,
                failures: 0,
                len: None,
            }),
            Err(_) => Err(Fault::Io),
        }
    }

    /// The length. The system is asked for it only where it isn't known.
    fn present_len(&mut self) -> io::Result<u64>
        ensures { self.new.failures ≡ self.old.failures }
    {
        if let Some(len) = self.len {
            return Ok(len);
        }
        let len = length(&self.file)?;
        self.len = Some(len);
        Ok(len)
    }

    /// Makes the length this one.
    fn set_len(&mut self, len: u64) -> io::Result<()>
        ensures { self.new.failures ≡ self.old.failures }
    {
        self.len = None;
        self.file.set_len(len)?;
        self.len = Some(len);
        Ok(())
    }

    /// Writes bytes from an offset on, which is at most the length. Where that fails the file gets the length back that it had, since the
    /// system may have written a part.
    fn write(&mut self, at: u64, bytes: &[u8]) -> io::Result<()>
        ensures { self.new.failures ≡ self.old.failures }
    {
        let len = self.present_len()?;
        if at > len {
            return Err(io::ErrorKind::InvalidInput.into());
        }
        let end = len.max(at.saturating_add(bytes.len() as u64));
        let written = self.file.write_all_at(bytes, at);
        if written.is_ok() {
            self.len = Some(end);
        } else if end > len {
            let _ = self.set_len(len);
        }
        written
    }

    /// Cuts the file to a length, which is at most the present one.
    fn cut_to(&mut self, len: u64) -> io::Result<()>
        ensures { self.new.failures ≡ self.old.failures }
    {
        if len > self.present_len()? {
            return Err(io::ErrorKind::InvalidInput.into());
        }
        self.set_len(len)
    }

    /// The answer of a call, which is counted if it failed.
    fn counted<T: Drop>(&mut self, answer: io::Result<T>) -> R<T>
        ensures refused { IfErr result (λ fault. fault ≡ Fault.Io) }
        ensures count { CountsFailure result self.old.failures self.new.failures }
    {
        match answer {
            Ok(value) => Ok(value),
            Err(_) => {
                self.failures = self.failures.saturating_add(1);
                Err(Fault::Io)
            }
        }
    }
}

/// The folder of a file.
fn folder_of(name: &str) -> Path<'_>
    ensures { path_bytes result ≡ folders.folder_of name.now }
{
    match Path::new(name).parent() {
        Some(folder) if !folder.as_str().is_empty() => folder,
        _ => Path::new("."),
    }
}

fn sync(folder: io::Result<File>) -> io::Result<()> {
    folder?.sync_all()
}

/// Syncs the folder of a file, so that a crash doesn't lose the names of files that were created in it. The only refusal is `Io`.
pub fn sync_folder<F: Files<File = File>>(files: &F, name: &str) -> R<()>
    ensures refused { IfErr result (λ fault. fault ≡ Fault.Io) }
{
    match sync(File::open(files, folder_of(name))) {
        Ok(()) => Ok(()),
        Err(_) => Err(Fault::Io),
    }
}

fn length(file: &File) -> io::Result<u64> {
    Ok(file.metadata()?.len())
}

/// The length of a file, in bytes; 0 where it doesn't exist. The only refusal is `Io`.
pub fn file_len<F: Files<File = File>>(files: &F, name: &str) -> R<u64>
    ensures refused { IfErr result (λ fault. fault ≡ Fault.Io) }
{
    match File::open(files, name) {
        Ok(file) => length(&file).map_err(|_| Fault::Io),
        Err(error) if error.kind() == io::ErrorKind::NotFound => Ok(0),
        Err(_) => Err(Fault::Io),
    }
}

fn read(file: &File, at: u64, buf: &mut [u8]) -> io::Result<()> {
    if at > MAX_OFFSET {
        return Err(io::ErrorKind::InvalidInput.into());
    }
    file.read_exact_at(buf, at)
}

impl Disk for FileDisk {
    ghost use Rattle.std.specs.Prelude.{[], false};
    ghost use Rattle.disk.specs.Replay.{fresh};

    ghost tells = { λ _. false };

    ghost file = { λ _. fresh [] };

    ghost failures = { λ disk. disk.failures };

    fn len(&mut self) -> R<u64> {
        let answer = length(&self.file);
        self.counted(answer)
    }

    fn read_at(&mut self, at: u64, buf: &mut [u8]) -> R<()> {
        let answer = read(&self.file, at, buf);
        self.counted(answer)
    }

    fn write_at(&mut self, at: u64, bytes: &[u8]) -> R<()> {
        let answer = self.write(at, bytes);
        self.counted(answer)
    }

    fn cut(&mut self, len: u64) -> R<()> {
        let answer = self.cut_to(len);
        self.counted(answer)
    }

    fn sync(&mut self) -> R<()> {
        let answer = self.file.sync_data();
        self.counted(answer)
    }
}
