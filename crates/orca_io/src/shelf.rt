//! Files that are read whole.

ghost use Rattle.std.specs.Prelude.{◌≡◌, ◌≤◌, ◌↔◌, ◌++◌, ◌∷◌, Bool, ℕ, List, [], Option, None, Some, Contains, false, true};
ghost use Rattle.std.specs.Prelude.{IfOk, IfSome, IsErrOf, IsSome, vec_len, map, option_map, string_bytes};
ghost use Rattle.orca_io.specs.declared.shelf.ShelfFault.TheVariants.{NoMemory as Without};
ghost use Rattle.orca_io.specs.Causes.{counted};
ghost use Rattle.orca_io.specs.Files.{File, FitsContent, content_of, files_of};
ghost use Rattle.orca_io.specs.Reading.{FileRead, has_some, went};

use crate::read_log::ReadLog;
use std::alloc::{AllocError, AllocFailed, Global};
use std::io::{ErrorKind, Read};
use std::rt::Files;
use std::{fs, io};
use thiserror::Error;

/// Why a file could not be read.
#[derive(Clone, Copy, Debug, PartialEq, Eq, Error)]
pub enum ShelfFault {
    /// There is no file of this name.
    #[error("no such file")]
    Absent,
    /// The file has more bytes than were allowed.
    #[error("the file is too long")]
    TooLong,
    /// The file is there, and can't be read.
    #[error("the file cannot be read")]
    Failed,
    /// There was no memory for the bytes.
    #[error("out of memory")]
    NoMemory,
}

impl From<orca_base::NoMemory> for ShelfFault {
    ghost from_gives = { λ _ e. e ≡ Without };

    fn from(_: orca_base::NoMemory) -> ShelfFault {
        ShelfFault::NoMemory
    }
}

impl From<AllocError> for ShelfFault {
    ghost from_gives = { λ _ e. e ≡ Without };

    fn from(_: AllocError) -> ShelfFault {
        ShelfFault::NoMemory
    }
}

impl<T: Drop> From<AllocFailed<T>> for ShelfFault {
    ghost from_gives = { λ _ e. e ≡ Without };

    fn from(_: AllocFailed<T>) -> ShelfFault {
        ShelfFault::NoMemory
    }
}

/// Files that are read whole, by name.
pub trait Shelf {
    /// The files, where the shelf can tell them.
    ghost told: { Self → Option (List File) };

    /// How many reads have failed. It never falls, and stands still at the end of 64 bits.
    ghost faults: { Self → ℕ };

    /// What it was asked to read so far, in order of time, and how each read went.
    ghost reads: { Self → List FileRead };

    /// Whether its reads may fail. No call changes it.
    ghost may_fail: { Self → Bool };

    /// All of a file's bytes, if there are at most `limit`.
    ///
    /// Of two files of one name the first is read. The count of faults rises by one where the answer is `Failed`, and stays
    /// otherwise. The read is told with its answer behind those before it; the answer is `Failed` only where reads may fail.
    fn read_all(&mut self, alloc: Global, name: &str, limit: u32) -> Result<Vec<u8>, ShelfFault>
        ensures reads { IfSome (told self.old) (λ files. FitsContent (λ v. v.items) (content_of files name.now) limit result) }
        ensures same { told self.new ≡ told self.old }
        ensures later { faults self.old ≤ faults self.new }
        ensures failed { IsErrOf result ShelfFault.Failed → faults self.new ≡ counted (faults self.old) }
        ensures quiet { (IsErrOf result ShelfFault.Failed → ⊥) → faults self.new ≡ faults self.old }
        ensures noted { reads self.new ≡ reads self.old ++ (name.now, went (λ v. v.items) result) ∷ [] }
        ensures sure { IsErrOf result ShelfFault.Failed → may_fail self.old ≡ true }
        ensures may { may_fail self.new ≡ may_fail self.old }

        // A shelf that tells nothing keeps to the limit too.
        ensures within { IfOk result (λ v. vec_len v ≤ limit) };
}

/// Files in memory. The calls of `read_all` that have the given numbers fail, where there is a file of the name.
#[derive(Drop)]
pub struct MemoryShelf {
    files: Vec<(String, Vec<u8>)>,
    failing: Vec<u64>,
    calls: u64,
    faults: u64,
    log: ReadLog,
}

impl MemoryShelf {
    ghost use Rattle.orca_io.specs.Failing.{failing_reads, reads_so_far};

    /// These files, by name and bytes. `failing` has the numbers of the calls that fail, counted from 1.
    pub fn new(files: Vec<(String, Vec<u8>)>, failing: Vec<u64>) -> MemoryShelf
        ensures told { ⟦<MemoryShelf as Shelf>⟧.told result ≡ Some (files_of files.items) }
        ensures faults { ⟦<MemoryShelf as Shelf>⟧.faults result ≡ 0 }
        ensures reads { ⟦<MemoryShelf as Shelf>⟧.reads result ≡ [] }
        ensures failing { failing_reads result ≡ failing.items }
        ensures unread { reads_so_far result ≡ 0 }
    {
        MemoryShelf {
            files,
            failing,
            calls: 0,
            faults: 0,
            log: ReadLog::new(),
        }
    }
}

// The bytes of the first file of this name.
fn content<'a>(files: &'a [(String, Vec<u8>)], name: &str) -> Option<&'a [u8]>
    ensures { option_map (λ s. s.now) result ≡ content_of (files_of files.now) name.now }
{
    for file in files {
        if file.0.as_str() == name {
            return Some(file.1.as_slice());
        }
    }
    None
}

// A copy of a file's bytes, if there are at most `limit`.
fn copy_of(alloc: Global, bytes: &[u8], limit: u32) -> Result<Vec<u8>, ShelfFault>
    ensures fits { FitsContent (λ v. v.items) (Some bytes.now) limit result }
    ensures never { IsErrOf result ShelfFault.Failed → ⊥ }
{
    if bytes.len() > limit as usize {
        return Err(ShelfFault::TooLong);
    }
    Ok(Vec::from_slice(alloc, bytes)?)
}

// The count of faults behind a read with this answer.
fn faults_after(faults: u64, answer: &Result<Vec<u8>, ShelfFault>) -> u64
    ensures failed { IsErrOf answer.now ShelfFault.Failed → result ≡ counted faults }
    ensures quiet { (IsErrOf answer.now ShelfFault.Failed → ⊥) → result ≡ faults }
{
    match answer {
        Err(ShelfFault::Failed) => faults.saturating_add(1),
        _ => faults,
    }
}

// What is read of the first file of this name by a call, where the calls with these numbers fail.
fn answer_of(
    alloc: Global,
    files: &[(String, Vec<u8>)],
    failing: &[u64],
    call: u64,
    name: &str,
    limit: u32,
) -> Result<Vec<u8>, ShelfFault>
    ensures fits { FitsContent (λ v. v.items) (content_of (files_of files.now) name.now) limit result }
    ensures fails { IsErrOf result ShelfFault.Failed ↔ (Contains failing.now call × IsSome (content_of (files_of files.now) name.now)) }
    ensures some { IsErrOf result ShelfFault.Failed → has_some failing.now ≡ true }
{
    let Some(bytes) = content(files, name) else {
        return Err(ShelfFault::Absent);
    };
    if failing.contains(&call) {
        return Err(ShelfFault::Failed);
    }
    copy_of(alloc, bytes, limit)
}

// The same, where none fails.
fn sure_answer(
    alloc: Global,
    files: &[(String, Vec<u8>)],
    name: &str,
    limit: u32,
) -> Result<Vec<u8>, ShelfFault>
    ensures fits { FitsContent (λ v. v.items) (content_of (files_of files.now) name.now) limit result }
    ensures never { IsErrOf result ShelfFault.Failed → ⊥ }
{
    match content(files, name) {
        Some(bytes) => copy_of(alloc, bytes, limit),
        None => Err(ShelfFault::Absent),
    }
}

impl Shelf for MemoryShelf {
    ghost use Rattle.orca_io.specs.Failing.{HasFile, failed_reads, failing_reads, may_fail_reads, reads_so_far, told_files, told_reads};

    ghost told = { told_files };

    ghost faults = { failed_reads };

    ghost reads = { told_reads };

    ghost may_fail = { may_fail_reads };

    fn read_all(&mut self, alloc: Global, name: &str, limit: u32) -> Result<Vec<u8>, ShelfFault>
        ensures reads { IfSome (told_files self.old) (λ files. FitsContent (λ v. v.items) (content_of files name.now) limit result) }
        ensures same { told_files self.new ≡ told_files self.old }
        ensures later { failed_reads self.old ≤ failed_reads self.new }
        ensures failed { IsErrOf result ShelfFault.Failed → failed_reads self.new ≡ counted (failed_reads self.old) }
        ensures quiet { (IsErrOf result ShelfFault.Failed → ⊥) → failed_reads self.new ≡ failed_reads self.old }
        ensures noted { told_reads self.new ≡ told_reads self.old ++ (name.now, went (λ v. v.items) result) ∷ [] }
        ensures sure { IsErrOf result ShelfFault.Failed → may_fail_reads self.old ≡ true }
        ensures may { may_fail_reads self.new ≡ may_fail_reads self.old }
        ensures within { IfOk result (λ v. vec_len v ≤ limit) }

        // Exactly the calls with the given numbers fail, where the file is there.
        ensures fails { IsErrOf result ShelfFault.Failed ↔
            (Contains (failing_reads self.old) (reads_so_far self.new) × HasFile self.old name.now) }
        ensures counts { reads_so_far self.new ≡ counted (reads_so_far self.old) }
        ensures failing { failing_reads self.new ≡ failing_reads self.old }
    {
        self.calls = self.calls.saturating_add(1);
        let answer = answer_of(alloc, &self.files, &self.failing, self.calls, name, limit);
        self.faults = faults_after(self.faults, &answer);
        self.log.add(name, &answer);
        answer
    }
}

/// Files in memory, whose reads never fail.
#[derive(Drop)]
pub struct SureShelf {
    files: Vec<(String, Vec<u8>)>,
    log: ReadLog,
}

impl SureShelf {
    /// These files, by name and bytes.
    pub fn new(files: Vec<(String, Vec<u8>)>) -> SureShelf
        ensures told { ⟦<SureShelf as Shelf>⟧.told result ≡ Some (files_of files.items) }
        ensures reads { ⟦<SureShelf as Shelf>⟧.reads result ≡ [] }
        ensures sure { ⟦<SureShelf as Shelf>⟧.may_fail result ≡ false }
    {
        SureShelf {
            files,
            log: ReadLog::new(),
        }
    }
}

impl Shelf for SureShelf {
    ghost told = { λ s. Some (files_of s.files.items) };

    ghost faults = { λ _. 0 };

    ghost reads = { λ s. s.log.reads };

    ghost may_fail = { λ _. false };

    fn read_all(&mut self, alloc: Global, name: &str, limit: u32) -> Result<Vec<u8>, ShelfFault> {
        let answer = sure_answer(alloc, &self.files, name, limit);
        self.log.add(name, &answer);
        answer
    }
}

/// Real files. It tells nothing of what they have: it is an edge of what is proved.
///
/// A name that can't be found is `Absent`, and any other fault of a file, as of a folder in its place, is `Failed`. At most
/// one byte past the limit is taken.
#[derive(Drop)]
pub struct FileShelf<'a, R: Files> {
    rt: &'a R,
    faults: u64,
    log: ReadLog,
}

impl<'a, R: Files> FileShelf<'a, R> {
    /// The files of this runtime.
    pub fn new(rt: &'a R) -> FileShelf<'a, R>
        ensures faults { ⟦<FileShelf<'a, R> as Shelf>⟧.faults result ≡ 0 }
        ensures reads { ⟦<FileShelf<'a, R> as Shelf>⟧.reads result ≡ [] }
    {
        FileShelf {
            rt,
            faults: 0,
            log: ReadLog::new(),
        }
    }
}

impl<R: Files> Shelf for FileShelf<'_, R> {
    ghost told = { λ _. None };

    ghost faults = { λ s. s.faults };

    ghost reads = { λ s. s.log.reads };

    ghost may_fail = { λ _. true };

    fn read_all(&mut self, alloc: Global, name: &str, limit: u32) -> Result<Vec<u8>, ShelfFault> {
        let answer = file_bytes(self.rt, alloc, name, limit);
        self.faults = faults_after(self.faults, &answer);
        self.log.add(name, &answer);
        answer
    }
}

// A file's bytes, if there are at most `limit`.
fn file_bytes<R: Files>(
    rt: &R,
    alloc: Global,
    name: &str,
    limit: u32,
) -> Result<Vec<u8>, ShelfFault>
    ensures { IfOk result (λ v. vec_len v ≤ limit) }
{
    match read_file(rt, alloc, name, limit) {
        Ok(bytes) if bytes.len() > limit as usize => Err(ShelfFault::TooLong),
        Ok(bytes) => Ok(bytes),
        Err(e) => match e.kind() {
            ErrorKind::NotFound => Err(ShelfFault::Absent),
            ErrorKind::OutOfMemory => Err(ShelfFault::NoMemory),
            _ => Err(ShelfFault::Failed),
        },
    }
}

/// A file's bytes, cut behind the first that is past the limit.
fn read_file<R: Files>(rt: &R, alloc: Global, name: &str, limit: u32) -> io::Result<Vec<u8>> {
    let file = fs::open(rt, name)?;
    let mut bytes = Vec::new(alloc);
    file.take(u64::from(limit) + 1).read_to_end(&mut bytes)?;
    Ok(bytes)
}
