//! A disk over one of the two files of a journal.

ghost use Rattle.std.specs.Prelude.{◌≡◌, ◌≤◌, IfErr, IfSome};
ghost use Rattle.disk.specs.Calls.{CountsFailure};

use crate::image::{File, Image};
use crate::journal::Journal;
use disk::Disk;
use sqlval::{Fault, R};

/// One of the two files of a journal. Its contract as a `Disk` speaks of failures alone (`tells` is false), since no clause can
/// say what several owners share: what each call makes of both contents and of the journal is said of `Image`.
#[derive(Drop)]
pub struct ImageDisk {
    journal: Journal,
    file: File,
    /// Number of failed calls.
    failures: u64,
}

/// A place in a content, if it is at most the length.
fn place(len: usize, at: u64) -> Option<usize>
    ensures { IfSome result (λ place. place ≤ len) }
{
    match usize::try_from(at) {
        Ok(at) if at <= len => Some(at),
        _ => None,
    }
}

/// Fills `buf` with the bytes from an offset on, if all are there. Answers whether they are.
fn read(content: &[u8], at: u64, buf: &mut [u8]) -> bool {
    let Some(from) = place(content.len(), at) else {
        return false;
    };
    match from.checked_add(buf.len()) {
        Some(end) if end <= content.len() => {
            buf.copy_from_slice(&content[from..end]);
            true
        }
        _ => false,
    }
}

/// Writes bytes, if their offset is at most the length and there is memory. Answers whether it did.
fn write(image: &mut Image, file: File, at: u64, bytes: &[u8]) -> bool {
    match place(image.content(file).len(), at) {
        Some(at) => image.write(file, at, bytes).is_ok(),
        None => false,
    }
}

/// Cuts a file, if the length is at most the present one and there is memory. Answers whether it did.
fn cut(image: &mut Image, file: File, len: u64) -> bool {
    match place(image.content(file).len(), len) {
        Some(len) => image.cut(file, len).is_ok(),
        None => false,
    }
}

impl ImageDisk {
    /// A disk over a file of a journal.
    pub fn new(journal: Journal, file: File) -> ImageDisk {
        ImageDisk {
            journal,
            file,
            failures: 0,
        }
    }

    /// The length, in bytes, unless the files are in use.
    fn length(&self) -> Option<u64> {
        match self.journal.image().try_borrow() {
            Ok(image) => Some(image.content(self.file).len() as u64),
            Err(_) => None,
        }
    }

    fn has_read(&self, at: u64, buf: &mut [u8]) -> bool {
        match self.journal.image().try_borrow() {
            Ok(image) => read(image.content(self.file), at, buf),
            Err(_) => false,
        }
    }

    fn has_written(&self, at: u64, bytes: &[u8]) -> bool {
        match self.journal.image().try_borrow_mut() {
            Ok(mut image) => write(&mut image, self.file, at, bytes),
            Err(_) => false,
        }
    }

    fn has_cut(&self, len: u64) -> bool {
        match self.journal.image().try_borrow_mut() {
            Ok(mut image) => cut(&mut image, self.file, len),
            Err(_) => false,
        }
    }

    fn has_synced(&self) -> bool {
        match self.journal.image().try_borrow_mut() {
            Ok(mut image) => image.sync(self.file).is_ok(),
            Err(_) => false,
        }
    }

    /// The answer of a call, which is counted if it failed.
    fn counted<T: Drop>(&mut self, answer: Option<T>) -> R<T>
        ensures refused { IfErr result (λ fault. fault ≡ Fault.Io) }
        ensures count { CountsFailure result self.old.failures self.new.failures }
    {
        match answer {
            Some(value) => Ok(value),
            None => {
                self.failures = self.failures.saturating_add(1);
                Err(Fault::Io)
            }
        }
    }
}

impl Disk for ImageDisk {
    ghost use Rattle.std.specs.Prelude.{[], false};
    ghost use Rattle.disk.specs.Replay.{fresh};

    ghost tells = { λ _. false };

    ghost file = { λ _. fresh [] };

    ghost failures = { λ disk. disk.failures };

    fn len(&mut self) -> R<u64> {
        let answer = self.length();
        self.counted(answer)
    }

    fn read_at(&mut self, at: u64, buf: &mut [u8]) -> R<()> {
        let answer = self.has_read(at, buf).then_some(());
        self.counted(answer)
    }

    fn write_at(&mut self, at: u64, bytes: &[u8]) -> R<()> {
        let answer = self.has_written(at, bytes).then_some(());
        self.counted(answer)
    }

    fn cut(&mut self, len: u64) -> R<()> {
        let answer = self.has_cut(len).then_some(());
        self.counted(answer)
    }

    fn sync(&mut self) -> R<()> {
        let answer = self.has_synced().then_some(());
        self.counted(answer)
    }
}
