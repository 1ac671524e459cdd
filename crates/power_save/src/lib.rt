//! Saved logs: the log of a server that loses power, in the cells of its store, and that log again
//! when it boots.
//!
//! # What is proved
//!
//! The log of a server that loses power, over any store.
//!
//! - `save` puts each record's bytes in its cell of the ring of 32,768, as a value SavedCred,
//!   syncs, and writes the mark with LB = AP and the numbers; where it fails, a first part of these
//!   calls is made, and the mark in memory is as before (`saves`). At the end all cells are synced
//!   and hold the log (`saved`); at each moment the store's mark has no saved log, or they do
//!   (`moments`). What the disk has then is the saved log of the group's machine: its numbers, and
//!   the entries of the records (`entries`).
//! - `load` gives the log that the mark's numbers and the cells name, with AP = LB (`log`,
//!   `records`); where the cells hold a log that the mark names, it gives just that log (`found`
//!   and `again` of `LoadsRecords`). A cell has a record where its value is SavedCred and its bytes
//!   are exactly the record's, or Saved and its bytes are exactly those of the old form, which is
//!   the superuser's. Records are read from the ring of the mark, 16,384 or 32,768; one whose bytes
//!   an earlier load met is shared (`SeenRecords`), and no clause depends on it. NotSaved comes
//!   only where the mark has no saved log, its numbers aren't base <= LB <= CP <= top, they span
//!   more records than a log holds, or a cell hasn't the record of its index (`unsaved`), and there
//!   no load succeeds (`whole`, `misfit`).
//! - Where the disk has a saved log of the group's machine (`entries`), what `load` gives is this
//!   log, by its entries, with LB and AP of the mark (`loaded` of `LoadsEntries`), and it gives it
//!   only where the machine's boot takes it (`taken`); NotSaved comes only where the machine's boot
//!   doesn't (`refused`).
//! - `crash_laws`: whatever a crash leaves of a disk with a whole saved log holds its records
//!   (`keep`), and has the machine's saved log still (`entries`).
//!
//!  All meet in `node`. No call of `view_form` takes memory.
#![tactic(auto)]

mod fault;
mod laws;
mod loading;
mod record;
mod saving;
mod seen;

pub use fault::SaveFault;
pub use laws::crash_laws;
pub use loading::load;
pub use record::{whole_old_record, whole_record};
pub use saving::save;
pub use seen::SeenRecords;
