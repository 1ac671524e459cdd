//! The readers and writers of fields, for the codecs of the crates above. A reader takes a place in
//! the bytes, and gives the field and the place after it.

pub use crate::attr_fields::{kind_at, put_time, time_at};
pub use crate::call_reading::call_at;
pub use crate::call_writing::put_call;
pub use crate::field::{
    below_at, byte_at, bytes_at, put_bytes, put_u16, put_u32, put_u64, told, u16_at, u32_at, u64_at,
};
pub use crate::name_fields::{cred_at, put_cred, put_view, server_at, view_at};
pub use crate::reply_reading::reply_at;
pub use crate::reply_writing::put_reply;
