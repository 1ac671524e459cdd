//! One server of a group: what it keeps in its states, and what it does with what happens to it.
//!
//! # What is proved
//!
//! One server as a server of the group's machine, over any store. Its public calls are `boot`,
//! `step_into`, `show`, `power`, `state_line` and `is_halted`. A step is of a tick, a suspicion, a
//! server's message, a client's ask, an apply, a flush or a listing; it fills outputs that are
//! lent, none as yet. A power failure takes the server with it.
//!
//! - `boot` is the machine's boot of the mark on the disk (`boots`, `lost`): the first mark on a
//!   disk that has none, else the mark with its longest promise raised, written only where it
//!   changes (`written`, `mark`). At each moment the disk has the old mark or the new one, and no
//!   cell changes (`moments`). The records of its log are just those of the saved log that the disk
//!   has, with their changes, where it holds a log then (`records`).
//! - `step_into` is the machine's whole step of what the server is given, from the test of misfits
//!   to the test of opening and the base's move at its end, and its outputs are just what the moves
//!   of the step say (`steps`, `machine`). By the same moves it is said which records its log has,
//!   with their changes, which ones it has pulled, and who waits for a commit (`whole`); and each
//!   record that it sends stands in its log, or is the one that it appends (`sent`). A settled data
//!   server lists the tree at CP, where it can be read, and another server lists nothing
//!   (`listing`). An apply makes the changes of its records on the disk, a flush syncs it and
//!   writes the mark with LB = AP, and what else is given at most writes the mark, once (`written`,
//!   `mark`); after an error the disk is as a first part of these calls leaves it (`part`). The
//!   cells that the server keeps in memory are those of its store (`cached`). A client's message in
//!   place of a server's changes nothing. Of a Fetch `steps` is said where the log is of the list,
//!   and where what is served is within the log; of an ask, where the tree can be read if it is
//!   read (`FillsInput`).
//! - `show` answers who keeps a copy of the tree, by what it wants (`shown`): a cell, at a settled
//!   data server, with just the value that the log's records up to CP make of it over the store;
//!   and records, at a server that holds a log, the committed ones from an index on, as many as a
//!   Give has space for, or that they are gone. Nothing is shown of a cell by another server, of
//!   records by one without a log, and of an index that is 0 or above CP; just then it is None. It
//!   leaves the store and all of the server as they were, but for which cells it keeps in memory,
//!   and halts it with an error (`leaves`).
//! - `power` leaves the machine's mark (`machine`), with the whole saved log where one is due,
//!   whose records are the server's (`saved`). After an error the disk is as a first part of the
//!   save's calls leaves it, and at each moment it has no saved log or the whole one (`moments`).
//!   It takes the server with it.
//! - Within: `invite`, `form`, `collect`, `give` and `formed` make just the moves of their rules,
//!   with the choice, pulling and accepting; `heed_event`, `heed_beat`, `heed_ack`, `heed_fetch`,
//!   `demote`, `try_open` and `tick` too. Each says which mark it leaves, and what may be on the
//!   disk after an error. Each message of servers has its test of misfits, which is the rules', and
//!   `take_message` makes the rule of each.
//! - Within, too: `ask`, `apply`, `flush` and `list` make just the moves of their rules. `ask`
//!   needs the tree only where it is read (`asked`); a server that doesn't lead refuses with the
//!   leader of its accepted view. `apply` and `flush` say exactly what they make of the disk
//!   (`done`), what an error leaves of that (`part`), and that the tree can still be read (`tree`);
//!   `list` lists the tree at CP (`listing`). `step_into` doesn't hand on that the tree can still
//!   be read.
//! - After any error of `step_into` or `show` the server is halted, and every later one is Halted
//!   and changes nothing; Halted comes exactly then (`halts`). StoreFailed comes only where the
//!   store's count of faults rose (`faults`). Not pinned: how wide the ring of a saved log in the
//!   mark is after a step; that want of memory isn't told of a fault of the disk, which only tests
//!   show.
#![tactic(auto)]

mod accepting;
mod applying;
mod asking;
mod boot;
mod collecting;
mod demoting;
mod fault;
mod flushing;
mod following;
mod forming;
mod hearing;
mod input;
mod inviting;
mod joining;
mod leading;
mod listing;
mod messages;
mod misfits;
mod misfits_active;
mod node;
mod parts;
mod places;
mod power;
mod pull;
mod pulling;
mod role;
mod serving;
mod showing;
mod state;
mod steps;
mod taking;
mod taking_views;
mod ticking;
mod wants;

pub use fault::NodeFault;
pub use input::Input;
pub use node::Node;
