//! How a coordinator forms a view: the joins that it collects, and the choice of the storers, the
//! source and the start (Harp paper's view change, with this project's own rule on lost logs).
//!
//! # What is proved
//!
//! The choice of a view.
//!
//! - `choose` gives exactly the machine's choice of the joins, with the view that it starts from.
//!   `choices_are_right` says what that choice is in words, both ways. A plan is chosen exactly
//!   where it is one by the rule (`some`, `only`; `IsChoice`): both storers joined, and they are
//!   (0,1) where these two did; the source is held, has the greatest accepted view of all joins,
//!   lost and empty ones too, and of the held servers with that view the longest log, the lower
//!   number in a tie; start and CP are the source's; the horizon is the greatest of all joins; the
//!   base is the greatest of the source's and of those of the held data servers among the storers.
//!   None is chosen exactly where fewer than two joined, or no held server has that view (`none`,
//!   `only_none`).
//! - `Collector::join` gives the plan exactly at the first join after which there is one (`plan`),
//!   and takes no later join (`joins`).
//! - `heeds_leader` says just where a server acknowledges what a view's leader sends it: in its
//!   accepted view, where it follows since it accepted that, which a boot ends.
#![tactic(auto)]

mod choosing;
mod collector;
mod heeding;
mod join;
mod laws;
mod plan;
mod same;

pub use choosing::choose;
pub use collector::Collector;
pub use heeding::heeds_leader;
pub use join::JoinInfo;
pub use laws::choices_are_right;
pub use plan::Plan;
pub use same::{is_one, is_view, is_witness};
