//! Limits of the service, and the numbers that stand for them, each in one place.

/// The highest number of a client.
pub const LAST_CLIENT: u32 = 4095;

/// The most bytes of a name or a text in a call, before the server's own limits.
pub const LONGEST_ARGUMENT: usize = 4096;

/// The most bytes that one call reads, writes or lists (MAXDATA, RFC 1094, section 2.3).
pub const LONGEST_TRANSFER: usize = 8192;

/// A field of SETATTR with this value is left as it is (RFC 1094, section 2.3.6).
pub const FIELD_LEFT: u32 = 4_294_967_295;

/// The most bytes of a name (MAXNAMLEN, RFC 1094, section 2.3).
pub const LONGEST_NAME: usize = 255;

/// The most bytes of the text of a symbolic link (MAXPATHLEN, RFC 1094, section 2.3).
pub const LONGEST_PATH: usize = 1024;

/// The most bytes of a file.
pub const LARGEST_FILE: u32 = 2_147_483_647;

/// The bytes of a block.
pub const BLOCK_SIZE: u32 = 4096;

/// The most blocks of all objects together.
pub const TREE_BLOCKS: u32 = 65_536;

/// The bytes that a directory has for each of its slots.
pub const SLOT_SIZE: u32 = 264;

/// The numbers of objects are below this one.
pub const OBJECT_NUMBERS: u32 = 4_294_967_295;

/// The most records that stand in a log.
pub const LOG_ROOM: usize = 32_768;

/// How many milliseconds promises last where no boot said otherwise.
pub const FIRST_PROMISE: u64 = 2000;

/// The most milliseconds between two servers' clocks.
pub const CLOCK_SKEW: u64 = 50;

/// The most bytes of a line of a schedule or a trace.
pub const LONGEST_LINE: usize = 20_000;

/// The most lines of a schedule.
pub const MOST_LINES: u64 = 50_000;
