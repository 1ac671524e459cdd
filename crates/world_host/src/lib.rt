//! One server of a played group: its node over its disk in memory, with stops, power failures,
//! crashes and boots.
//!
//! # What is proved
//!
//! One server of a played group: its node, there while the server is up, over its disk in memory.
//! What is said of it is said of each group whose server it is (`IsHost` of `world_rules`): the
//! node is the machine's server, with its records whole, the disk's mark is the machine's, a saved
//! log stands on the disk whole, and the disk is that of the run.
//!
//! - `new` is a server that booted on a new disk (`first`). `is_up` and `state_line` tell the
//!   machine's server; nothing is shown of one that is down.
//! - `take` is a whole step of the run (`takes`): its outputs are what the step's moves say, with
//!   records that the server had or appends, the listing is that of its tree at CP, and afterwards
//!   it is the server after the moves, over the run's disk. With a stop that comes in the step
//!   nothing is put out, and the server falls over what the stop's pick leaves of the calls that
//!   pass.
//! - `show` answers what is wanted of the server by its node over its disk (`shown`), and leaves it
//!   as it was, but for which cells its node keeps in memory (`still`).
//! - `power` saves the log where one is due, or is cut (`fails`); `crash` leaves what its pick
//!   keeps (`falls`); `boot` is the machine's boot from the mark and the saved log (`boots`). Each
//!   leaves the run's disk, exactly. What a step and a power failure rest on beside the server
//!   stands in each scene to which steps lead (`world_laws`).
#![tactic(auto)]

mod host;

pub use host::Host;
pub use world_rules::Stop;
