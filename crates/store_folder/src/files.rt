//! The files of the system.

ghost use Rattle.std.specs.Prelude.{◌≡◌, ◌≢◌, ◌≤◌, IfErr, IfOk, IfSome, Err, None, Ok, length};
ghost use Rattle.std.specs.IoError.{error_kind};

use crate::disk_files::DiskFiles;
use harp_store::StoreFault;
use std::alloc::Global;
use std::fs::{File, OpenFile, OpenOptions};
use std::io::{ErrorKind, Read, Write};
use std::rt::Files;
use std::{fs, io};

/// The fault that an error of files is.
pub fn fault_of(error: io::Error) -> StoreFault
    ensures failed { error_kind error ≢ ErrorKind.OutOfMemory → result ≡ StoreFault.Failed }
    ensures memory { error_kind error ≡ ErrorKind.OutOfMemory → result ≡ StoreFault.NoMemory }
{
    match error.kind() {
        ErrorKind::OutOfMemory => StoreFault::NoMemory,
        _ => StoreFault::Failed,
    }
}

/// What files gave, with the fault that an error is.
pub fn of_disk<T>(given: io::Result<T>) -> Result<T, StoreFault>
    ensures ok { IfOk given (λ value. result ≡ Ok value) }
    ensures failed { IfErr given (λ error. error_kind error ≢ ErrorKind.OutOfMemory
        → result ≡ Err StoreFault.Failed) }
    ensures memory { IfErr given (λ error. error_kind error ≡ ErrorKind.OutOfMemory
        → result ≡ Err StoreFault.NoMemory) }
{
    match given {
        Ok(value) => Ok(value),
        Err(error) => Err(fault_of(error)),
    }
}

// Whether there is a folder at a path.
fn is_folder<R: Files>(rt: &R, path: &str) -> bool {
    match fs::metadata(rt, path) {
        Ok(metadata) => metadata.is_dir(),
        Err(_) => false,
    }
}

// What was written in a folder is on the disk.
fn sync_folder<R: Files>(rt: &R, path: &str) -> io::Result<()> {
    File::open(rt, path)?.sync_all()
}

// Makes a folder where there is none, in the one above it.
fn make_one<R: Files>(rt: &R, above: &str, path: &str) -> io::Result<()> {
    match fs::create_dir(rt, path) {
        Ok(()) => sync_folder(rt, above),
        Err(_) if is_folder(rt, path) => Ok(()),
        Err(error) => Err(error),
    }
}

// Makes a folder and those above it, where there are none.
fn make_folder<R: Files>(rt: &R, path: &str) -> io::Result<()> {
    let mut above = if path.starts_with('/') { "/" } else { "." };
    for end in 1..path.len() {
        let Some((front, rest)) = path.split_at_checked(end) else {
            continue;
        };
        if rest.starts_with('/') {
            make_one(rt, above, front)?;
            above = front;
        }
    }
    make_one(rt, above, path)
}

// Opens a file, None where there is none.
fn opened<R: Files>(rt: &R, path: &str) -> Result<Option<R::File>, StoreFault> {
    match File::open(rt, path) {
        Ok(file) => Ok(Some(file)),
        Err(error) if error.kind() == ErrorKind::NotFound => Ok(None),
        Err(error) => Err(fault_of(error)),
    }
}

// The bytes of a file, None where there is none. One that is longer than the most is no file of a
// store.
fn read_file<R: Files>(
    rt: &R,
    alloc: Global,
    path: &str,
    most: usize,
) -> Result<Option<Vec<u8>>, StoreFault>
    ensures { IfOk result (λ found. IfSome found (λ bytes. length bytes.items ≤ most)) }
{
    let Some(mut file) = opened(rt, path)? else {
        return Ok(None);
    };
    let length = of_disk(file.metadata())?.len();
    if length > most as u64 {
        return Err(StoreFault::Failed);
    }
    let mut bytes = vec![in alloc; 0; length as usize]?;
    of_disk(file.read_exact(&mut bytes))?;
    Ok(Some(bytes))
}

// A file with these bytes takes the place of the one at a path, in one step and for sure: it is
// written at another path, synced and renamed.
fn replace_file<R: Files>(rt: &R, next: &str, path: &str, bytes: &[u8]) -> io::Result<()> {
    let mut file = File::create(rt, next)?;
    file.write_all(bytes)?;
    file.sync_all()?;
    fs::rename(rt, next, path)
}

// Puts bytes behind those of a file that is there, for sure.
fn append_file<R: Files>(rt: &R, path: &str, bytes: &[u8]) -> io::Result<()> {
    let mut file = OpenOptions::new().append(true).open(rt, path)?;
    file.write_all(bytes)?;
    file.sync_data()
}

// A folder that is opened, and that no other open file has locked.
fn locked<R: Files<File = File>>(rt: &R, path: &str) -> Result<File, StoreFault> {
    let folder = of_disk(File::open(rt, path))?;
    match folder.try_lock() {
        Ok(()) => Ok(folder),
        Err(_) => Err(StoreFault::Failed),
    }
}

// Removes a file, where there is one.
fn remove_file<R: Files>(rt: &R, path: &str) -> io::Result<()> {
    match fs::remove_file(rt, path) {
        Err(error) if error.kind() == ErrorKind::NotFound => Ok(()),
        done => done,
    }
}

// The names of what a folder has.
fn names<R: Files + AllocGlobal + Clone + Drop>(
    rt: &R,
    alloc: Global,
    path: &str,
) -> Result<Vec<String>, StoreFault> {
    let mut names = Vec::new(alloc);
    for entry in of_disk(fs::read_dir(rt, path))? {
        let entry = of_disk(entry)?;
        let name = String::from_str(alloc, entry.file_name())?;
        if names.push(name).is_err() {
            return Err(StoreFault::NoMemory);
        }
    }
    Ok(names)
}

/// The files of the system. They tell nothing; each error of a file is a failure, but for want of
/// memory. A folder is locked by a handle of it, so that nothing is written there, and the lock
/// goes with the process.
#[derive(Drop)]
pub struct SystemFiles<R> {
    rt: R,
    locked: Option<File>,
}

impl<R> SystemFiles<R> {
    /// The files that a runtime gives. No folder is locked.
    pub fn new(rt: R) -> SystemFiles<R>
        ensures runtime { result.rt ≡ rt }
        ensures locked { result.locked ≡ None }
    {
        SystemFiles { rt, locked: None }
    }
}

impl<R: Files<File = File> + AllocGlobal + Clone + Drop> DiskFiles for SystemFiles<R> {
    ghost told = { λ _. None };

    fn make_folder(&mut self, path: &str) -> Result<(), StoreFault> {
        of_disk(make_folder(&self.rt, path))
    }

    fn lock_folder(&mut self, path: &str) -> Result<(), StoreFault> {
        self.locked = None;
        self.locked = Some(locked(&self.rt, path)?);
        Ok(())
    }

    fn is_folder(&self, path: &str) -> bool {
        is_folder(&self.rt, path)
    }

    fn names(&self, alloc: Global, path: &str) -> Result<Vec<String>, StoreFault> {
        names(&self.rt, alloc, path)
    }

    fn read(&self, alloc: Global, path: &str, most: usize) -> Result<Option<Vec<u8>>, StoreFault> {
        read_file(&self.rt, alloc, path, most)
    }

    fn replace(&mut self, next: &str, path: &str, bytes: &[u8]) -> Result<(), StoreFault> {
        of_disk(replace_file(&self.rt, next, path, bytes))
    }

    fn append(&mut self, path: &str, bytes: &[u8]) -> Result<(), StoreFault> {
        of_disk(append_file(&self.rt, path, bytes))
    }

    fn remove(&mut self, path: &str) -> Result<(), StoreFault> {
        of_disk(remove_file(&self.rt, path))
    }

    fn sync_folder(&mut self, path: &str) -> Result<(), StoreFault> {
        of_disk(sync_folder(&self.rt, path))
    }
}
