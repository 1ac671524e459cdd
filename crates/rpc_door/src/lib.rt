//! A door for clients of NFS version 2 (RFC 1094): their calls by ONC RPC (RFC 1057) as a stream
//! of marked records, and the answers to them.
//!
//! # What is proved
//!
//! - `serve_rpc` answers the records of a source one after the other, each once, by what a `Group`
//!   replies to their calls. Its result says where it ended, and what was read, called and written
//!   by then (`ends`); a fault of what it stands on comes only where it was counted (`cause`).
//! - `read_rpc` gives what a record means. `write_rpc` appends the answer to a call (`appended`),
//!   and leaves what stood after want of memory (`kept`).
//! - What is read as a record is what can be sent as one (`marked_records`). A record is read as a
//!   call just where it is one in the words of the RFCs (`sent_calls`). What a client reads of a
//!   result is the reply (`read_results`).
//! - The readers and writers of RFC 1014 (`opaque_at`, `put_words` and the others) give and append
//!   what `Xdr` says, for the crates above, and `put_sent` an answer as it is sent.
#![tactic(auto)]

mod arguments;
mod fault;
mod group;
mod header;
mod held;
mod laws;
mod meaning;
mod records;
mod results;
mod serving;
mod xdr;

pub use fault::DoorFault;
pub use group::{Exchange, Group, GroupFault};
pub use laws::{marked_records, read_results, sent_calls};
pub use meaning::{RpcIn, read_rpc};
pub use results::{is_reply_to, put_answer, write_rpc};
pub use serving::{put_sent, serve_rpc};
pub use xdr::{opaque_at, past_opaque, put_handle, put_words};
