//! What a call of a server gives to others.

ghost use Rattle.std.specs.Prelude.{◌≡◌, ◌++◌, ◌∷◌, [], Some, OnOk};
ghost use Rattle.group_rules.specs.Names.{number_of_view, place_of};
ghost use Rattle.node_outputs.specs.Messages.{heard};
ghost use Rattle.node_outputs.specs.Records.{carried, records_sent};
ghost use Rattle.node_outputs.specs.Said.{entered, nothing, said};

use harp_types::{BookEntry, Call, Cause, Cred, Peer, Reply, ServerId, ViewNo};
use std::alloc::{AllocError, Global};
use tree_listing::Listing;
use wire::Message;

/// An answer to an ask.
#[derive(Drop)]
pub struct Answered {
    /// Who asked.
    pub peer: Peer,
    pub client: u32,
    /// The client's own number of the call.
    pub number: u64,
    /// The place of an update among the updates, from 1; of a read how many updates are committed.
    pub index: u64,
    pub reply: Reply,
    /// The call of a read, and who made it. An update stands in the book with its own.
    pub asked: Option<AskedRead>,
}

/// A read that was asked.
#[derive(Drop)]
pub struct AskedRead {
    pub cred: Cred,
    pub call: Call,
}

/// An ask that is refused.
#[derive(Clone, Copy, PartialEq, Eq)]
pub struct Refused {
    /// Who asked.
    pub peer: Peer,
    pub client: u32,
    /// The client's own number of the call.
    pub number: u64,
    pub cause: Cause,
}

/// A message to another server.
#[derive(Drop)]
pub struct Sent {
    pub to: ServerId,
    pub message: Message,
}

/// A view that was chosen, and the view that it starts from.
#[derive(Clone, Copy, PartialEq, Eq)]
pub struct Chosen {
    pub view: ViewNo,
    pub from: ViewNo,
}

/// Who asks, for which client, by which number, and with which credential.
#[derive(Clone, Copy)]
pub struct Asker {
    pub peer: Peer,
    pub client: u32,
    pub number: u64,
    pub cred: Cred,
}

/// What calls gave, each list in its order.
#[derive(Drop)]
pub struct Outputs {
    /// The updates that came within CP at an open leader, by their indices.
    pub committed: Vec<BookEntry>,
    pub answers: Vec<Answered>,
    pub refusals: Vec<Refused>,
    pub sends: Vec<Sent>,
    /// The view that was opened last.
    pub opened: Option<ViewNo>,
    /// The view that was chosen last.
    pub chosen: Option<Chosen>,
    /// The tree that was listed last.
    pub listing: Option<Listing>,
}

impl Outputs {
    /// No outputs.
    pub fn new(alloc: Global) -> Outputs
        ensures said { said result ≡ nothing }
        ensures records { records_sent result ≡ [] }
    {
        Outputs {
            committed: Vec::new(alloc),
            answers: Vec::new(alloc),
            refusals: Vec::new(alloc),
            sends: Vec::new(alloc),
            opened: None,
            chosen: None,
            listing: None,
        }
    }

    /// No outputs any more. The room that the lists took stays theirs.
    pub fn clear(&mut self)
        ensures said { said self.new ≡ nothing }
        ensures records { records_sent self.new ≡ [] }
    {
        self.committed.clear();
        self.answers.clear();
        self.refusals.clear();
        self.sends.clear();
        self.opened = None;
        self.chosen = None;
        self.listing = None;
    }

    /// A message is sent. It goes into its callers, since a message is large, and handing it on
    /// moves it.
    #[inline(always)]
    pub fn send(&mut self, to: ServerId, message: Message) -> Result<(), AllocError>
        ensures said { OnOk result (said self.new ≡ record (said self.old) {
          sends = (said self.old).sends ++ (place_of to, heard message) ∷ [];
        }) }
        ensures records { OnOk result (records_sent self.new
            ≡ records_sent self.old ++ carried message) }
    {
        self.sends.push(Sent { to, message })?;
        Ok(())
    }

    /// An ask is refused.
    pub fn refuse(&mut self, asker: Asker, cause: Cause) -> Result<(), AllocError>
        ensures said { OnOk result (said self.new ≡ record (said self.old) {
          refusals = (said self.old).refusals ++ (record {
            peer = asker.peer;
            client = asker.client;
            number = asker.number;
            cause = cause;
          }) ∷ [];
        }) }
        ensures records { records_sent self.new ≡ records_sent self.old }
    {
        let Asker {
            peer,
            client,
            number,
            ..
        } = asker;
        self.refusals.push(Refused {
            peer,
            client,
            number,
            cause,
        })?;
        Ok(())
    }

    /// An ask is answered. It goes into its callers, as `send`.
    #[inline(always)]
    pub fn answer(&mut self, answer: Answered) -> Result<(), AllocError>
        ensures said { OnOk result (said self.new ≡ record (said self.old) {
          answers = (said self.old).answers ++ answer ∷ [];
        }) }
        ensures records { records_sent self.new ≡ records_sent self.old }
    {
        self.answers.push(answer)?;
        Ok(())
    }

    /// An update is committed. It goes into its callers, as `send`.
    #[inline(always)]
    pub fn commit(&mut self, entry: BookEntry) -> Result<(), AllocError>
        ensures said { OnOk result (said self.new ≡ record (said self.old) {
          committed = (said self.old).committed ++ entered entry ∷ [];
        }) }
        ensures records { records_sent self.new ≡ records_sent self.old }
    {
        self.committed.push(entry)?;
        Ok(())
    }

    /// A view is opened.
    pub fn open(&mut self, view: ViewNo)
        ensures said { said self.new ≡ record (said self.old) {
          opened = Some (number_of_view view);
        } }
        ensures records { records_sent self.new ≡ records_sent self.old }
    {
        self.opened = Some(view);
    }

    /// A view is chosen, which starts from another one.
    pub fn choose(&mut self, view: ViewNo, from: ViewNo)
        ensures said { said self.new ≡ record (said self.old) {
          chosen = Some (number_of_view view, number_of_view from);
        } }
        ensures records { records_sent self.new ≡ records_sent self.old }
    {
        self.chosen = Some(Chosen { view, from });
    }

    /// The tree is listed.
    pub fn list(&mut self, listing: Listing)
        ensures said { said self.new ≡ record (said self.old) { listed = Some listing.cp } }
        ensures listing { self.new.listing ≡ Some listing }
        ensures records { records_sent self.new ≡ records_sent self.old }
    {
        self.listing = Some(listing);
    }
}
