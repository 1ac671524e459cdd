//! What is wrong with a folder, for whoever is to mend it.

ghost use Rattle.std.specs.Prelude.{◌≡◌};
ghost use Rattle.store_folder.specs.Trouble.{said_of, shown_by};

use crate::disk_files::DiskFiles;
use crate::files::SystemFiles;
use crate::folder::read_mark;
use harp_store::{Mark, StoreFault};
use std::fs::{File, OpenFile};
use std::rt::Files;

/// What shows of a folder that a store couldn't use.
#[derive(Clone, Copy, PartialEq, Eq)]
pub enum Trouble {
    /// It isn't there, or is no folder.
    NoFolder,
    /// Another store has it.
    InUse,
    /// Its file `mark` can't be read, or holds no mark.
    BadMark,
    /// Nothing of that.
    Other,
}

impl Trouble {
    /// What is said of it, behind the folder's name.
    pub fn text(self) -> &'static str
        ensures { result.now ≡ said_of self }
    {
        match self {
            Trouble::NoFolder => " is no folder",
            Trouble::InUse => " is in use",
            Trouble::BadMark => "/mark can't be read",
            Trouble::Other => " can't be used",
        }
    }
}

/// What shows of a folder that is there and was free, by what its file `mark` gave.
fn trouble_by(mark: Result<Option<Mark>, StoreFault>) -> Trouble
    ensures { result ≡ shown_by mark }
{
    match mark {
        Ok(_) => Trouble::Other,
        Err(StoreFault::Failed) => Trouble::BadMark,
        Err(StoreFault::NoMemory) => Trouble::Other,
    }
}

/// What shows of a folder that a store couldn't use which has let it go since. It is looked at
/// anew, so it may have changed. No clause says what files give, so none says more than
/// `trouble_by`.
pub fn trouble_of<R: Files<File = File> + AllocGlobal + Clone + Drop>(
    rt: R,
    folder: &str,
) -> Trouble {
    let alloc = rt.alloc();
    let Ok(opened) = File::open(&rt, folder) else {
        return Trouble::NoFolder;
    };
    if opened.try_lock().is_err() {
        return Trouble::InUse;
    }
    let files = SystemFiles::new(rt);
    if !files.is_folder(folder) {
        return Trouble::NoFolder;
    }
    trouble_by(read_mark(&files, alloc, folder))
}
