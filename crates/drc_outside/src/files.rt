//! Files that are opened by their names.

ghost use Rattle.std.specs.Prelude.{◌≡◌, ◌≤◌, ◌<◌, ◌+◌, ℕ, List, Option, None, IfSome, IfOk, OnOk, OnErr, is_err, length, take};
ghost use Rattle.drc_io.specs.FaultCounts.{Rose};
ghost use Rattle.drc_io.specs.Files.{ReadsFrom};
ghost use Rattle.drc_outside.specs.OutsideFaults.{counted};
ghost use Rattle.drc_outside.specs.FilePositions.{Fills, Passes, IsFileAt};

use drc_io::{Failed, Name, Shelf};
use std::alloc::Global;
use std::io::{ErrorKind, Read};
use std::marker::Model;
use std::rt::Files;
use std::{fs, io};

/// What opens files by their names.
pub trait Opens {
    /// A file that is open.
    type File: Read + Drop;

    /// The names with their bytes, where they are told. The first entry of a name counts.
    ghost files: { Self → Option (List (List ℕ × List ℕ)) };

    /// Opens the file of this name. It stands at its beginning.
    fn open(&self, name: &str) -> io::Result<Self::File>
        ensures { IfOk result (λ file.
            IsFileAt (files self.now) name.now 0 (Self.File.Read.remaining file)) };
}

/// The files of the system, which tells nothing of them.
#[derive(Drop)]
pub struct SystemFiles<'a, R> {
    rt: &'a R,
}

impl<'a, R> SystemFiles<'a, R> {
    pub fn new(rt: &'a R) -> SystemFiles<'a, R> {
        SystemFiles { rt }
    }
}

impl<'a, R: Files> Opens for SystemFiles<'a, R> {
    type File = R::File;

    ghost files = { λ _. None };

    fn open(&self, name: &str) -> io::Result<R::File> {
        fs::open(self.rt, name)
    }
}

/// An open file, with its name and the place behind what was read of it. A file whose name has no memory is not gone on with.
#[derive(Drop)]
struct Opened<F> {
    name: Option<Name>,
    file: F,
    at: u64,
}

/// Reads until the buffer is full or no byte is left.
fn fill<F: Read>(file: &mut F, buf: &mut [u8]) -> io::Result<usize>
    ensures { IfOk result (λ n. Fills F.remaining file.old file.new n buf.new) }
{
    let mut done = 0;
    for _ in 0..u64::MAX {
        if done == buf.len() {
            return Ok(done);
        }
        match file.read(&mut buf[done..]) {
            Ok(0) => return Ok(done),
            Ok(n) => done += n,
            Err(e) if e.kind() == ErrorKind::Interrupted => {}
            Err(e) => return Err(e),
        }
    }
    Err(io::Error::from(ErrorKind::Interrupted))
}

/// How many bytes are passed over at once.
const STEP: usize = 4096;

/// Passes over so many bytes, or over all that are left.
fn pass_over<F: Read>(file: &mut F, count: u64) -> io::Result<()>
    ensures { OnOk result (Passes (F.remaining file.old) (F.remaining file.new) count) }
{
    let mut piece = [0; STEP];
    let mut left = count;
    while left > 0 {
        let most = left.min(STEP as u64) as usize;
        let n = fill(file, &mut piece[..most])?;
        if n < most {
            return Ok(());
        }
        left -= n as u64;
    }
    Ok(())
}

/// The file that is kept, where it is the one to go on with.
fn going_on<F: Drop>(kept: Option<Opened<F>>, name: &str, at: u64) -> Option<Opened<F>>
    ensures same { IfSome result (λ opened. kept ≡ Some opened) }
    ensures named { IfSome result (λ opened. (opened.name ≡ Some name.now) × (opened.at ≡ at)) }
{
    let opened = kept?;
    match &opened.name {
        Some(kept) if at > 0 && opened.at == at && kept.bytes() == name.as_bytes() => {}
        _ => return None,
    }
    Some(opened)
}

/// Files as a shelf. Its one count of faults serves every name. Contracts see the files that are told, and the count.
#[derive(Drop)]
pub struct FileShelf<O: Opens> {
    alloc: Global,
    opens: O,
    kept: Option<Opened<O::File>>,
    faults: u64,
}

impl<O: Opens> Model for FileShelf<O> {
    ghost use Rattle.drc_outside.specs.FilePositions.{Told, IsKept};

    ghost Value = { Told };

    ghost view = { λ s. record { files = O.files s.opens; faults = s.faults } };

    ghost invariant = { λ s. IsKept (O.files s.opens) O.File.Read.remaining s.kept };
}

impl<O: Opens> FileShelf<O> {
    pub fn new(alloc: Global, opens: O) -> FileShelf<O>
        ensures { result ≡ record { files = O.files opens; faults = 0 } }
    {
        FileShelf {
            alloc,
            opens,
            kept: None,
            faults: 0,
        }
    }

    /// The file that is kept, where it is the one to go on with, or else the file of this name, opened again and read up to the place. It
    /// is kept no more.
    fn take_file(&mut self, name: &str, at: u64) -> io::Result<Opened<O::File>>
        ensures stands { IfOk result (λ opened.
            IsFileAt self.old.files name.now at (O.File.Read.remaining opened.file)) }
        ensures named { IfOk result (λ opened. IfSome opened.name (λ known. known ≡ name.now)) }
        ensures same { self.new ≡ self.old }
    {
        if let Some(opened) = going_on(self.kept.take(), name, at) {
            return Ok(opened);
        }
        let mut file = self.opens.open(name)?;
        pass_over(&mut file, at)?;
        let name = Name::from_slice(self.alloc, name.as_bytes()).ok();
        Ok(Opened { name, file, at })
    }

    /// Keeps a file for the reads that follow.
    fn keep(&mut self, opened: Opened<O::File>)
        requires { IfSome opened.name (λ name.
            IsFileAt self.old.files name opened.at (O.File.Read.remaining opened.file)) }
        ensures { self.new ≡ self.old }
    {
        drop(self.kept.replace(opened));
    }

    /// Reads from a place of a file on. The first bytes are read of a file that is opened for them.
    fn read_open(&mut self, name: &str, at: u64, buf: &mut [u8]) -> io::Result<usize>
        ensures bound { IfOk result (λ n. n ≤ length buf.old) }
        ensures bytes { IfOk result (λ n. ReadsFrom self.old.files name.now at n buf.new) }
        ensures same { self.new ≡ self.old }
    {
        let mut opened = self.take_file(name, at)?;
        let n = fill(&mut opened.file, buf)?;
        if let Some(behind) = at.checked_add(n as u64) {
            opened.at = behind;
            self.keep(opened);
        }
        Ok(n)
    }
}

impl<O: Opens> Shelf for FileShelf<O> {
    ghost files = { λ s. s.files };

    ghost faults = { λ s _. s.faults };

    /// A file stays open for the reads that follow, but for a fault. A read at another place opens it again. The count rises exactly where
    /// a read fails.
    fn read(&mut self, name: &str, at: u64, buf: &mut [u8]) -> Result<usize, Failed>
        ensures bound { IfOk result (λ n. n ≤ length buf.old) }
        ensures bytes { IfOk result (λ n. ReadsFrom self.old.files name.now at n buf.new) }
        ensures same { self.new.files ≡ self.old.files }
        ensures counts { (other : List ℕ) → self.old.faults ≤ self.new.faults }
        ensures cause { OnErr result (Rose self.old.faults self.new.faults) }
        ensures raised { self.new.faults ≡ counted self.old.faults (is_err result) }
    {
        match self.read_open(name, at, buf) {
            Ok(n) => Ok(n),
            Err(_) => {
                self.faults = self.faults.saturating_add(1);
                Err(Failed)
            }
        }
    }
}
