//! The folders of the system, and the files in them by which people and servers speak.

ghost use Rattle.std.specs.Prelude.{◌≡◌, ◌≤◌, ◌<◌, [], None, Some, IfOk, OnOk, string_bytes, vec_len, vec_capacity};
ghost use Rattle.harpd.specs.Folders.{done_by, with_deed};
ghost use Rattle.harp_types.specs.Streams.{Rose};

use crate::deeds::{Deed, FolderDeed};
use crate::folders::Folders;
use harp_store::{Store, StoreFault};
use node_loop::Orders;
use std::alloc::{AllocError, Global};
use std::fs::{File, OpenFile};
use std::io::ErrorKind;
use std::rt::Files;
use std::{fs, io};

/// Why a call failed.
#[derive(Clone, Copy)]
pub enum Refusal {
    /// The folder has no mark, and wasn't made for a server.
    NotMade,
    /// The folder has no mark, but other files of a store.
    Unmarked,
    /// A server has run in the folder that is to be made.
    Used,
    /// The folder can't be made.
    Unmade,
    /// What told a server to stop can't be taken away.
    Left,
}

/// The folders of the system. One is made by a file `new`, and has a server's mark, the file `mark`,
/// once one has run there: a server writes it before any other file of its store, so a folder that
/// has such files and no mark has lost it. The file `stop` tells that server to stop.
#[derive(Drop)]
pub struct SystemFolders<R> {
    rt: R,
    done: Vec<FolderDeed>,
    faults: u64,
    refusal: Option<Refusal>,
}

impl<R: AllocGlobal> SystemFolders<R> {
    /// The folders that a runtime gives.
    pub fn new(rt: R) -> SystemFolders<R>
        ensures done { result.done.items ≡ [] }
        ensures faults { result.faults ≡ 0 }
        ensures refusal { result.refusal ≡ None }
    {
        let done = Vec::new(rt.alloc());
        SystemFolders {
            rt,
            done,
            faults: 0,
            refusal: None,
        }
    }
}

impl<R> SystemFolders<R> {
    /// Why the last call that failed did, if one did.
    pub fn refusal(&self) -> Option<Refusal>
        ensures { result ≡ self.now.refusal }
    {
        self.refusal
    }

    // Counts a call that failed.
    fn refuse(&mut self, refusal: Refusal) -> StoreFault
        ensures fault { result ≡ StoreFault.Failed }
        ensures told { self.new.refusal ≡ Some refusal }
        ensures done { self.new.done ≡ self.old.done }
        ensures rose { Rose self.old.faults self.new.faults }
        ensures count { self.old.faults ≤ self.new.faults }
    {
        self.faults = self.faults.saturating_add(1);
        self.refusal = Some(refusal);
        StoreFault::Failed
    }

    // What is to be done to a folder, to be kept once it is; there is room for it.
    fn plan(&mut self, alloc: Global, deed: Deed, folder: &str) -> Result<FolderDeed, AllocError>
        ensures plan { IfOk result (λ d. (d.deed ≡ deed) × (string_bytes d.folder ≡ folder.now)) }
        ensures room { OnOk result (vec_len self.new.done < vec_capacity self.new.done) }
        ensures done { self.new.done.items ≡ self.old.done.items }
        ensures faults { self.new.faults ≡ self.old.faults }
    {
        let folder = String::from_str(alloc, folder)?;
        self.done.reserve(1)?;
        Ok(FolderDeed { deed, folder })
    }

    // Keeps what was done.
    fn keep(&mut self, deed: FolderDeed)
        requires { vec_len self.old.done < vec_capacity self.old.done }
        ensures done { done_by self.new.done.items
            ≡ with_deed deed.deed (string_bytes deed.folder) (done_by self.old.done.items) }
        ensures faults { self.new.faults ≡ self.old.faults }
    {
        self.done.push_reserved(deed);
    }
}

// Whether something stands at a path.
fn stands<R: Files>(rt: &R, path: &str) -> bool {
    fs::metadata(rt, path).is_ok()
}

// Whether a folder has a file of this name.
fn has<R: Files>(rt: &R, alloc: Global, folder: &str, name: &str) -> Result<bool, AllocError> {
    let path = format!(in alloc; "{folder}/{name}")?;
    Ok(stands(rt, path.as_str()))
}

// What was written in a folder is on the disk.
fn sync_folder<R: Files>(rt: &R, path: &str) -> io::Result<()> {
    File::open(rt, path)?.sync_all()
}

// The folder above.
fn above(folder: &str) -> &str {
    match folder.rsplit_once('/') {
        Some(("", _)) => "/",
        Some((above, _)) => above,
        None => ".",
    }
}

// Whether a file of this name is one that a server's store keeps.
fn is_kept(name: &str) -> bool {
    name == "mark" || name == "meta" || name == "journal" || is_numbered(name)
}

// Whether a file of this name is one of a cell's, of which there are many.
fn is_numbered(name: &str) -> bool {
    name.starts_with("object-")
        || name.starts_with("slot-")
        || name.starts_with("block-")
        || name.starts_with("client-")
        || name.starts_with("saved-")
}

// Whether a server has run in a folder.
fn is_used<R: Files + AllocGlobal + Clone + Drop>(rt: &R, folder: &str) -> io::Result<bool> {
    for entry in fs::read_dir(rt, folder)? {
        if is_kept(entry?.file_name()) {
            return Ok(true);
        }
    }
    Ok(false)
}

// Why a server isn't started over a folder, if it isn't.
fn refusal_of<R: Files + AllocGlobal + Clone + Drop>(
    rt: &R,
    alloc: Global,
    folder: &str,
) -> Result<Option<Refusal>, AllocError> {
    if has(rt, alloc, folder, "mark")? {
        return Ok(None);
    }
    if !has(rt, alloc, folder, "new")? {
        return Ok(Some(Refusal::NotMade));
    }
    match is_used(rt, folder) {
        Ok(false) => Ok(None),
        Ok(true) | Err(_) => Ok(Some(Refusal::Unmarked)),
    }
}

// Makes a folder where there is none, but none above it.
fn make_folder<R: Files>(rt: &R, folder: &str) -> io::Result<()> {
    match fs::create_dir(rt, folder) {
        Ok(()) => sync_folder(rt, above(folder)),
        Err(error) if error.kind() == ErrorKind::AlreadyExists => Ok(()),
        Err(error) => Err(error),
    }
}

// Makes an empty file in a folder, for sure.
fn make_file<R: Files>(rt: &R, folder: &str, path: &str) -> io::Result<()> {
    File::create(rt, path)?.sync_all()?;
    sync_folder(rt, folder)
}

// Removes a file of a folder, where there is one, for sure.
fn remove_file<R: Files>(rt: &R, folder: &str, path: &str) -> io::Result<()> {
    match fs::remove_file(rt, path) {
        Ok(()) => sync_folder(rt, folder),
        Err(error) if error.kind() == ErrorKind::NotFound => Ok(()),
        Err(error) => Err(error),
    }
}

// Makes a folder for a server that never ran, and the file `new` in it. Why it doesn't, if it
// doesn't.
fn refusal_to_make<R: Files + AllocGlobal + Clone + Drop>(
    rt: &R,
    alloc: Global,
    folder: &str,
) -> Result<Option<Refusal>, AllocError> {
    let new = format!(in alloc; "{folder}/new")?;
    if make_folder(rt, folder).is_err() {
        return Ok(Some(Refusal::Unmade));
    }
    match is_used(rt, folder) {
        Ok(false) => {}
        Ok(true) => return Ok(Some(Refusal::Used)),
        Err(_) => return Ok(Some(Refusal::Unmade)),
    }
    match make_file(rt, folder, new.as_str()) {
        Ok(()) => Ok(None),
        Err(_) => Ok(Some(Refusal::Unmade)),
    }
}

// Takes away what told the server of a folder to stop. Whether it could.
fn takes_stop<R: Files>(rt: &R, alloc: Global, folder: &str) -> Result<bool, AllocError> {
    let stop = format!(in alloc; "{folder}/stop")?;
    Ok(remove_file(rt, folder, stop.as_str()).is_ok())
}

impl<R: Files<File = File> + AllocGlobal + Clone + Drop> Folders for SystemFolders<R> {
    ghost done = { λ f. done_by f.done.items };

    ghost faults = { λ f. f.faults };

    fn enter<D: Store>(
        &mut self,
        alloc: Global,
        folder: &str,
        disk: &mut D,
    ) -> Result<(), StoreFault> {
        let deed = self.plan(alloc, Deed::Entered, folder)?;
        if let Some(refusal) = refusal_of(&self.rt, alloc, folder)? {
            return Err(self.refuse(refusal));
        }
        match disk.attach(alloc, folder) {
            Ok(()) => {
                self.keep(deed);
                Ok(())
            }
            Err(fault) => Err(fault),
        }
    }

    fn make(&mut self, alloc: Global, folder: &str) -> Result<(), StoreFault> {
        let deed = self.plan(alloc, Deed::Made, folder)?;
        if let Some(refusal) = refusal_to_make(&self.rt, alloc, folder)? {
            return Err(self.refuse(refusal));
        }
        self.keep(deed);
        Ok(())
    }

    fn leave(&mut self, alloc: Global, folder: &str) -> Result<(), StoreFault> {
        let deed = self.plan(alloc, Deed::Left, folder)?;
        if !takes_stop(&self.rt, alloc, folder)? {
            return Err(self.refuse(Refusal::Left));
        }
        self.keep(deed);
        Ok(())
    }
}

/// The file that tells a server to stop, where it stands.
#[derive(Drop)]
pub struct StopFile<R> {
    rt: R,
    path: String,
}

impl<R> StopFile<R> {
    /// The file at a path.
    pub fn new(rt: R, path: String) -> StopFile<R>
        ensures { result.path ≡ path }
    {
        StopFile { rt, path }
    }
}

impl<R: Files> Orders for StopFile<R> {
    ghost told = { λ _. None };

    fn is_told(&mut self) -> bool {
        stands(&self.rt, self.path.as_str())
    }
}
