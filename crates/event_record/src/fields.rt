//! The reader and the writer of records as fields, and how many bytes records and their parts have,
//! for the codecs of the crates above.

pub use crate::reading::item_at;
pub use crate::size::{call_size, record_size, records_size, reply_size};
pub use crate::writing::{USUAL_RECORD, put_item};
