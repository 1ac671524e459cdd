//! A group, an observer of it, and all that was shown.

ghost use Rattle.std.specs.Prelude.{◌≡◌, false};
ghost use Rattle.harp_types.specs.Update.{is_update};

use crate::fault::Fault;
use crate::observing::group::Group;
use crate::observing::spelled::put_shown;
use harp_types::{Call, Reply, is_update};
use observer::Observer;
use shown::Shown;
use std::alloc::{AllocError, Global};
use text_writer::{put_named, put_reply};

/// A group, an observer of it, and all that was shown, by number.
#[derive(Drop)]
pub struct Table {
    pub group: Group,
    pub observer: Observer,
    shown: Vec<Shown>,
}

/// A line where an observer's top changes.
fn put_top(out: &mut Vec<u8>, old: Option<u64>, new: Option<u64>) -> Result<(), AllocError> {
    match new {
        Some(top) => {
            if old == Some(top) {
                return Ok(());
            }
            put_named(out, b"observer", top)?;
            out.extend_from_slice(b"\n")
        }
        None => Ok(()),
    }
}

/// A reply, and after how many updates.
fn put_read(
    alloc: Global,
    out: &mut Vec<u8>,
    read: &Option<(u64, Reply)>,
) -> Result<(), AllocError> {
    match read {
        Some((top, reply)) => {
            put_named(out, b"peeked", *top)?;
            put_reply(alloc, out, reply)?;
            out.extend_from_slice(b"\n")
        }
        None => out.extend_from_slice(b"blind\n"),
    }
}

impl Table {
    /// A group of which no update is committed, and an observer without a copy.
    pub(crate) fn new(alloc: Global) -> Table {
        Table {
            group: Group::new(alloc),
            observer: Observer::new(alloc),
            shown: Vec::new(alloc),
        }
    }

    /// Shows what is wanted; whether it is there.
    pub(crate) fn want(&mut self, alloc: Global, out: &mut Vec<u8>) -> Result<bool, Fault> {
        let shown = match self.observer.want() {
            Some(want) => self.group.show(alloc, want)?,
            None => None,
        };
        match shown {
            Some(shown) => {
                self.keep(out, shown)?;
                Ok(true)
            }
            None => {
                out.extend_from_slice(b"unshown\n")?;
                Ok(false)
            }
        }
    }

    /// Writes what is shown, and keeps it.
    fn keep(&mut self, out: &mut Vec<u8>, shown: Shown) -> Result<(), AllocError> {
        put_shown(out, self.shown.len(), &shown)?;
        self.shown.push(shown)?;
        Ok(())
    }

    /// A copy of what was shown under a number.
    fn copied(&self, alloc: Global, number: usize) -> Result<Shown, Fault> {
        match self.shown.get(number) {
            Some(shown) => Ok(shown.copy(alloc)?),
            None => Err(Fault::Bounds),
        }
    }

    /// The observer takes what was shown under a number.
    pub(crate) fn take(
        &mut self,
        alloc: Global,
        out: &mut Vec<u8>,
        number: usize,
    ) -> Result<(), Fault> {
        let shown = self.copied(alloc, number)?;
        if !shown.is_low() {
            return Err(Fault::Bounds);
        }
        let top = self.observer.top();
        self.observer.take(alloc, shown)?;
        Ok(put_top(out, top, self.observer.top())?)
    }

    /// Shows what is wanted, and takes it; whether it is there.
    fn follow(&mut self, alloc: Global, out: &mut Vec<u8>) -> Result<bool, Fault> {
        let number = self.shown.len();
        if !self.want(alloc, out)? {
            return Ok(false);
        }
        self.take(alloc, out, number)?;
        Ok(true)
    }

    /// Shows and takes what is wanted, so many times, or until nothing is there.
    pub(crate) fn drain(
        &mut self,
        alloc: Global,
        out: &mut Vec<u8>,
        times: u32,
    ) -> Result<(), Fault> {
        for _ in 0..times {
            if !self.follow(alloc, out)? {
                return Ok(());
            }
        }
        Ok(())
    }

    /// What the observer answers to a read.
    fn answer(&mut self, alloc: Global, call: &Call) -> Result<Option<(u64, Reply)>, AllocError>
        requires { is_update call.now ≡ false }
    {
        self.observer.read(alloc, call)
    }

    /// What the observer answers to a read. An update is none.
    pub(crate) fn peek(
        &mut self,
        alloc: Global,
        out: &mut Vec<u8>,
        call: &Call,
    ) -> Result<(), Fault> {
        if is_update(call) {
            return Err(Fault::Bounds);
        }
        let read = self.answer(alloc, call)?;
        Ok(put_read(alloc, out, &read)?)
    }
}
