//! The book of the calls that were entered.

ghost use Rattle.std.specs.Prelude.{◌≡◌, ◌∷◌, ◌++◌, ◌+◌, ◌≤◌, [], length, map, nat_le, IfOk, OnOk};
ghost use Rattle.group_trace.specs.Lines.{entered_line, entered_lines};
ghost use Rattle.world_lines.specs.Book.{new_updates, with_reads, with_updates};
ghost use Rattle.world_lines.specs.Given.{read_in, reads_in};
ghost use Rattle.node_outputs.specs.Said.{entered};

use crate::room::make_room;
use harp_types::BookEntry;
use node_outputs::Answered;
use std::alloc::{AllocError, Global};
use std::marker::Model;
use trace_types::Line;

/// The calls that were entered, in their order: each entered update once, and each read that was
/// answered.
#[derive(Drop)]
pub struct Book {
    entries: Vec<BookEntry>,
    /// How many of them are updates.
    updates: u64,
}

impl Model for Book {
    ghost use Rattle.std.specs.Prelude.{◌≤◌, length, map};
    ghost use Rattle.node_outputs.specs.Said.{entered};
    ghost use Rattle.world_lines.specs.Book.{BookValue};

    ghost Value = { BookValue };

    ghost view = { λ b. record {
      entries = map entered b.entries.items;
      updates = b.updates;
    } };

    ghost invariant = { λ b. b.updates ≤ length b.entries.items };
}

impl Book {
    /// Nothing was entered.
    pub fn new(alloc: Global) -> Book
        ensures { result ≡ record { entries = []; updates = 0 } }
    {
        Book {
            entries: Vec::new(alloc),
            updates: 0,
        }
    }

    /// The calls in their order.
    pub fn entries(&self) -> &[BookEntry]
        ensures { map entered result.now ≡ self.now.entries }
    {
        self.entries.as_slice()
    }

    /// Enters the updates that aren't in the book, with their lines. They are taken out.
    pub(crate) fn enter_updates(
        &mut self,
        alloc: Global,
        updates: &mut Vec<BookEntry>,
        lines: &mut Vec<Line>,
    ) -> Result<(), AllocError>
        ensures book { OnOk result (self.new ≡ with_updates self.old
            (new_updates self.old.updates (map entered updates.old.items))) }
        ensures lines { OnOk result (lines.new.items ≡ lines.old.items
            ++ entered_lines (length self.old.entries)
            (new_updates self.old.updates (map entered updates.old.items))) }
        ensures left { OnOk result (updates.new.items ≡ []) }
    {
        if updates.is_empty() {
            return Ok(());
        }
        self.enter_each(alloc, updates, lines)
    }

    /// The same, whether there are any or none.
    fn enter_each(
        &mut self,
        alloc: Global,
        updates: &mut Vec<BookEntry>,
        lines: &mut Vec<Line>,
    ) -> Result<(), AllocError>
        ensures book { OnOk result (self.new ≡ with_updates self.old
            (new_updates self.old.updates (map entered updates.old.items))) }
        ensures lines { OnOk result (lines.new.items ≡ lines.old.items
            ++ entered_lines (length self.old.entries)
            (new_updates self.old.updates (map entered updates.old.items))) }
        ensures left { OnOk result (updates.new.items ≡ []) }
    {
        let _ = &self.updates;
        for update in updates.drain(..) {
            self.enter_update(alloc, update, lines)?;
        }
        Ok(())
    }

    /// Enters an update, where it isn't in the book.
    fn enter_update(
        &mut self,
        alloc: Global,
        update: BookEntry,
        lines: &mut Vec<Line>,
    ) -> Result<(), AllocError>
        ensures book { OnOk result (self.new ≡ with_updates self.old
            (new_updates self.old.updates (entered update ∷ []))) }
        ensures lines { OnOk result (lines.new.items ≡ lines.old.items
            ++ entered_lines (length self.old.entries)
            (new_updates self.old.updates (entered update ∷ []))) }
    {
        if self.has(update.index) {
            return Ok(());
        }
        self.enter(alloc, update, lines)?;
        self.count();
        Ok(())
    }

    /// Whether the update of an index is in the book.
    fn has(&self, index: u64) -> bool
        ensures value { result ≡ nat_le index self.now.updates }
        ensures within { self.now.updates ≤ length self.now.entries }
    {
        let _ = &self.entries;
        index <= self.updates
    }

    /// Counts an update that was entered.
    fn count(&mut self)
        requires { self.old.updates + 1 ≤ length self.old.entries }
        ensures { self.new ≡ record self.old { updates = self.old.updates + 1 } }
    {
        let _ = &self.entries;
        self.updates += 1;
    }

    /// Enters the reads that were answered, with their lines.
    pub(crate) fn enter_reads(
        &mut self,
        alloc: Global,
        answers: &[Answered],
        lines: &mut Vec<Line>,
    ) -> Result<(), AllocError>
        ensures book { OnOk result (self.new ≡ with_reads self.old (reads_in answers.now)) }
        ensures lines { OnOk result (lines.new.items ≡ lines.old.items
            ++ entered_lines (length self.old.entries) (reads_in answers.now)) }
    {
        let _ = &self.updates;
        for answer in answers {
            self.enter_read(alloc, answer, lines)?;
        }
        Ok(())
    }

    /// Enters the read of an answer, where it is one to a read.
    #[tactic(auto, unfolding(group_trace::specs::Lines::entered_lines))]
    fn enter_read(
        &mut self,
        alloc: Global,
        answer: &Answered,
        lines: &mut Vec<Line>,
    ) -> Result<(), AllocError>
        ensures book { OnOk result (self.new ≡ with_reads self.old (read_in answer.now)) }
        ensures lines { OnOk result (lines.new.items ≡ lines.old.items
            ++ entered_lines (length self.old.entries) (read_in answer.now)) }
    {
        let _ = &self.updates;
        match &answer.asked {
            None => Ok(()),
            Some(asked) => {
                let read = BookEntry {
                    index: 0,
                    client: answer.client,
                    number: answer.number,
                    cred: asked.cred,
                    stamp: 0,
                    call: asked.call.copy(alloc)?,
                    reply: answer.reply.copy(alloc)?,
                };
                self.enter(alloc, read, lines)
            }
        }
    }

    /// Enters a call, with its line, which has an equal one. It goes into its callers, since a call
    /// is large, and handing it on moves it.
    #[inline(always)]
    fn enter(
        &mut self,
        alloc: Global,
        entry: BookEntry,
        lines: &mut Vec<Line>,
    ) -> Result<(), AllocError>
        ensures book { OnOk result (self.new ≡ with_reads self.old (entered entry ∷ [])) }
        ensures lines { OnOk result (lines.new.items ≡ lines.old.items
            ++ entered_line (length self.old.entries + 1) (entered entry) ∷ []) }
    {
        let line = Line::Entered {
            place: self.entries.len() as u64 + 1,
            entry: entry.copy(alloc)?,
        };
        lines.push(line)?;
        make_room(&mut self.entries)?;
        self.entries.push(entry)?;
        Ok(())
    }
}
