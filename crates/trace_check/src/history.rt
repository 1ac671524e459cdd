//! The entered calls, without the tree.

ghost use Rattle.std.specs.Prelude.{◌≡◌, List, true, ◌↔◌, ◌<◌, ◌^◌, ◌++◌, ◌∷◌, [], length, IsTrue, IfOk, OnOk, MatchBool};
ghost use Rattle.harp_types.specs.Update.{is_update};
ghost use Rattle.file_tree.specs.Book.{Entry, IsBook, IsNextUpdate, IsRead, updates};
ghost use Rattle.trace_claims.specs.Trace.{Trace, entries, entry_of};
ghost use Rattle.trace_check.specs.History.{IsHistoryOf, HasReply};

use crate::marks::Marks;
use crate::same::same_reply;
use harp_types::{BookEntry, Reply, is_update};
use std::alloc::{AllocError, Global};
use trace_types::Line;

/// Whose update was entered, and its reply.
#[derive(Drop)]
pub struct Kept {
    client: u32,
    number: u64,
    reply: Reply,
}

/// What the entered calls say of the next one.
#[derive(Drop)]
pub struct History {
    /// How many calls are entered.
    entered: u64,
    /// The updates by their index, from 1.
    updates: Vec<Kept>,
    /// The stamp of the last update, 0 before the first.
    stamp: u64,
    /// The number of each client's last update.
    numbers: Marks,
}

impl History {
    /// No call is entered.
    pub fn new(alloc: Global) -> History
        ensures { IsHistoryOf result [] }
    {
        History {
            entered: 0,
            updates: Vec::new(alloc),
            stamp: 0,
            numbers: Marks::new(alloc),
        }
    }

    /// How many calls are entered.
    pub fn entered(&self) -> u64
        ensures { result ≡ self.now.entered }
    {
        self.entered
    }

    /// Whether an update comes next by its index, stamp and number.
    fn is_next_update(&self, entry: &BookEntry) -> bool
        ensures { (book : List Entry) → IsHistoryOf self.now book → IsBook book
            → is_update entry.now.call ≡ true
            → IsTrue result ↔ IsNextUpdate (updates book) (entry_of entry.now) }
    {
        if entry.index == 0 {
            return false;
        }
        if entry.stamp < self.stamp {
            return false;
        }
        if entry.index - 1 != self.updates.len() as u64 {
            return false;
        }
        match self.numbers.get((u64::from(entry.client), 0, 0, 0)) {
            Some(last) => last < entry.number,
            None => true,
        }
    }

    /// Whether an entry comes next, its reply apart.
    pub fn is_next(&self, entry: &BookEntry) -> bool
        ensures { (book : List Entry) → IsHistoryOf self.now book → IsBook book
            → IsTrue result ↔ MatchBool (is_update entry.now.call)
            (IsNextUpdate (updates book) (entry_of entry.now)) (IsRead (entry_of entry.now)) }
    {
        if is_update(&entry.call) {
            self.is_next_update(entry)
        } else {
            entry.index == 0 && entry.stamp == 0
        }
    }

    /// Enters a call.
    pub fn enter(&mut self, alloc: Global, entry: &BookEntry) -> Result<(), AllocError>
        ensures { (book : List Entry) → IsHistoryOf self.old book → length book < 2 ^ 40
            → OnOk result (IsHistoryOf self.new (book ++ entry_of entry.now ∷ [])) }
    {
        if is_update(&entry.call) {
            self.updates.push(Kept {
                client: entry.client,
                number: entry.number,
                reply: entry.reply.copy(alloc)?,
            })?;
            self.stamp = entry.stamp;
            self.numbers
                .set((u64::from(entry.client), 0, 0, 0), entry.number)?;
        }
        self.entered = self.entered.saturating_add(1);
        Ok(())
    }

    /// Takes up what a line tells.
    pub fn take(&mut self, alloc: Global, line: &Line) -> Result<(), AllocError>
        ensures { (before : Trace) → IsHistoryOf self.old (entries before)
            → length (entries before) < 2 ^ 40
            → OnOk result (IsHistoryOf self.new (entries (before ++ line.now ∷ []))) }
    {
        match line {
            Line::Entered { entry, .. } => self.enter(alloc, entry),
            _ => Ok(()),
        }
    }

    /// Whether an update with this client, number, index and reply is entered.
    pub fn has_reply(
        &self,
        alloc: Global,
        client: u32,
        number: u64,
        index: u64,
        reply: &Reply,
    ) -> Result<bool, AllocError>
        ensures { (book : List Entry) → IsHistoryOf self.now book → IsBook book
            → IfOk result (λ found. IsTrue found
            ↔ HasReply book client number index reply.now) }
    {
        if index == 0 {
            return Ok(false);
        }
        let Some(kept) = self.updates.get((index - 1) as usize) else {
            return Ok(false);
        };
        if kept.client != client {
            return Ok(false);
        }
        if kept.number != number {
            return Ok(false);
        }
        same_reply(alloc, &kept.reply, reply)
    }
}
