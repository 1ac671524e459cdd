//! The verdict on the text of a trace: whether it is that of a closed trace which is faithful and
//! acknowledged, and uses promises, or which line is the first that isn't so; and the line that
//! tells it.
//!
//! # What is proved
//!
//! `judge_text` says yes exactly where the text of a source is that of a closed trace of at most
//! 2^40 lines, each of at most 20,000 bytes, which is faithful and acknowledged and uses promises
//! (`yes`); then the source was read to its end (`read`). Else it names the first line that breaks
//! something, and what first, with no line before that breaks anything; or the first one at which
//! no trace is read, and why (`verdict`); no other verdict on the text is right (`only`).
//! `write_verdict` writes exactly the line that tells a verdict, or a front of it after a fault.
#![tactic(auto)]

mod judge;
mod line;
mod verdict;

pub use judge::judge_text;
pub use line::write_verdict;
pub use verdict::{Unread, Verdict};
