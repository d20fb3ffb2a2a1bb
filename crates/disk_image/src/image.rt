//! The contents of two files, and the changes that made them.

ghost use Rattle.std.specs.Prelude.{◌≡◌, ◌≤◌, ◌==◌, ◌++◌, [], IfOk, OnOk, OnErr, IsTrue, IsFalse, length, take, drop};
ghost use Rattle.disk.specs.Calls.{overwritten};
ghost use Rattle.disk_image.specs.Journal.{Change, Contents, IsSame, LeadsFrom, Makes, change_bytes, file_content, contents_of, file_byte, noted_by};
ghost use Rattle.disk_image.specs.Journal.Change.{Write, Cut, Sync};
ghost use Rattle.disk_image.specs.declared.image.Image.{Image};

use std::alloc::{AllocError, Global};

/// Which of the two files.
#[derive(Clone, Copy, Debug, PartialEq, Eq)]
pub enum File {
    Database,
    Log,
}

impl File {
    /// The byte that stands for the file in a change.
    fn mark(self) -> u8
        ensures { result ≡ file_byte self }
    {
        match self {
            File::Database => b'D',
            File::Log => b'L',
        }
    }
}

/// The contents of both files, and the changes since the last `take`, as bytes.
#[derive(Drop)]
pub struct Image {
    alloc: Global,
    db: Vec<u8>,
    log: Vec<u8>,
    noted: Vec<u8>,
}

/// A change as bytes: its kind, its file, an offset or a length (8 bytes), the number of the bytes (8 bytes), and these.
fn coded(alloc: Global, kind: u8, file: File, at: u64, bytes: &[u8]) -> Result<Vec<u8>, AllocError>
    ensures { IfOk result (λ v. v.items ≡ change_bytes kind file at bytes.now) }
{
    let mut code = Vec::new(alloc);
    code.push(kind)?;
    code.push(file.mark())?;
    code.extend_from_slice(&at.to_be_bytes())?;
    code.extend_from_slice(&(bytes.len() as u64).to_be_bytes())?;
    code.extend_from_slice(bytes)?;
    Ok(code)
}

/// Puts bytes at a place that is at most the length.
fn put(content: &mut Vec<u8>, at: usize, bytes: &[u8]) -> Result<(), AllocError>
    requires { at ≤ length content.old.items }
    ensures done { OnOk result (content.new.items ≡ overwritten at bytes.now content.old.items) }
    ensures failed { OnErr result (content.new.items ≡ content.old.items) }
{
    let inside = bytes.len().min(content.len() - at);
    content.extend_from_slice(&bytes[inside..])?;
    content[at..at + inside].copy_from_slice(&bytes[..inside]);
    Ok(())
}

/// Notes a write and puts its bytes into the content: both, or neither where there is no memory.
fn overwrite(
    content: &mut Vec<u8>,
    noted: &mut Vec<u8>,
    code: &[u8],
    at: usize,
    bytes: &[u8],
) -> Result<(), AllocError>
    requires { at ≤ length content.old.items }
    ensures made { OnOk result (content.new.items ≡ overwritten at bytes.now content.old.items) }
    ensures noted { OnOk result (noted.new.items ≡ noted.old.items ++ code.now) }
    ensures kept { OnErr result (content.new.items ≡ content.old.items) }
    ensures same { OnErr result (noted.new.items ≡ noted.old.items) }
{
    let len = noted.len();
    noted.extend_from_slice(code)?;
    let put = put(content, at, bytes);
    if put.is_err() {
        noted.truncate(len);
    }
    put
}

impl Image {
    /// The files with these contents, and nothing noted.
    pub fn new(alloc: Global, db: Vec<u8>, log: Vec<u8>) -> Image
        ensures contents { contents_of result ≡ record { db = db.items; log = log.items } }
        ensures noted { noted_by result ≡ [] }
    {
        Image {
            alloc,
            db,
            log,
            noted: Vec::new(alloc),
        }
    }

    /// The content of a file.
    pub fn content(&self, file: File) -> &[u8]
        ensures { result.now ≡ file_content file (contents_of self.now) }
    {
        match file {
            File::Database => &self.db,
            File::Log => &self.log,
        }
    }

    /// Writes bytes at a place that is at most the file's length.
    pub fn write(&mut self, file: File, at: usize, bytes: &[u8]) -> Result<(), AllocError>
        requires { at ≤ length (file_content file (contents_of self.old)) }
        ensures made { OnOk result (Makes (Write file at bytes.now) self.old self.new) }
        ensures kept { OnErr result (IsSame self.old self.new) }
    {
        let code = coded(self.alloc, b'W', file, at as u64, bytes)?;
        match file {
            File::Database => overwrite(&mut self.db, &mut self.noted, &code, at, bytes),
            File::Log => overwrite(&mut self.log, &mut self.noted, &code, at, bytes),
        }
    }

    /// Cuts a file to a length, which is at most the present one.
    pub fn cut(&mut self, file: File, len: usize) -> Result<(), AllocError>
        ensures made { OnOk result (Makes (Cut file len) self.old self.new) }
        ensures kept { OnErr result (IsSame self.old self.new) }
    {
        let code = coded(self.alloc, b'C', file, len as u64, b"")?;
        self.noted.extend_from_slice(&code)?;
        match file {
            File::Database => self.db.truncate(len),
            File::Log => self.log.truncate(len),
        }
        Ok(())
    }

    /// Notes that a file is to be synced.
    pub fn sync(&mut self, file: File) -> Result<(), AllocError>
        ensures made { OnOk result (Makes (Sync file) self.old self.new) }
        ensures kept { OnErr result (IsSame self.old self.new) }
    {
        let code = coded(self.alloc, b'S', file, 0, b"")?;
        self.noted.extend_from_slice(&code)
    }

    /// The changes that are noted.
    pub fn noted(&self) -> &[u8]
        ensures { result.now ≡ noted_by self.now }
    {
        &self.noted
    }

    /// Copies the changes, if there is just room for them, and then has none. Answers whether it did.
    pub fn take(&mut self, out: &mut [u8]) -> bool
        ensures contents { contents_of self.new ≡ contents_of self.old }
        ensures taken { IsTrue result → (out.new ≡ noted_by self.old) × (noted_by self.new ≡ []) }
        ensures kept { IsFalse result → noted_by self.new ≡ noted_by self.old }
        ensures room { result ≡ (length out.old == length (noted_by self.old)) }
    {
        if out.len() != self.noted.len() {
            return false;
        }
        out.copy_from_slice(&self.noted);
        self.noted.clear();
        true
    }
}

/// A journal leads to the contents from those that stood where it began: an empty one does, and each change leads on.
pub fn each_change_leads_on()
    ensures begun { (image : Image) → noted_by image ≡ [] → LeadsFrom (contents_of image) image }
    ensures goes_on { (before : Contents) (change : Change) (old new : Image) → LeadsFrom before old
        → Makes change old new → LeadsFrom before new }
    ensures stays { (before : Contents) (old new : Image) → LeadsFrom before old → IsSame old new
        → LeadsFrom before new }
{}
