//! The record at the front of bytes that came (RFC 1057, section 10).

ghost use Rattle.std.specs.Prelude.{◌≡◌, ◌≤◌, length, IfOk};
ghost use Rattle.door_seats.specs.Framing.{IsFront, IsPiece};

use crate::request::Request;
use std::alloc::{AllocError, Global};

/// The most bytes of a record.
const LONGEST: usize = 20_000;

/// The most fragments of a record.
const FRAGMENTS: u32 = 1000;

/// The bytes of a mark.
const MARK: usize = 4;

/// The highest bit of a mark, which the last fragment of a record has.
const LAST: u32 = 1 << 31;

/// What stands at the front of bytes.
#[derive(Drop)]
pub enum Front {
    /// A record, and how many bytes it takes.
    Whole { request: Request, taken: usize },
    /// The bytes end within a record.
    Short,
    /// It has too many bytes or fragments.
    Large,
}

/// What stands at the front of bytes, behind earlier fragments of a record.
#[derive(Clone, Copy)]
enum Piece {
    /// A fragment: whether it is its record's last one, and how many bytes it has behind its mark.
    Part { is_last: bool, size: usize },
    /// The bytes end within it.
    Ends,
    /// Its record has too many bytes with it.
    Long,
}

/// The fragment at the front of bytes, which may have so many.
fn piece_at(bytes: &[u8], room: usize) -> Piece
    ensures { IsPiece room bytes.now result }
{
    if bytes.len() < MARK {
        return Piece::Ends;
    }
    let mark = u32::from_be_bytes([bytes[0], bytes[1], bytes[2], bytes[3]]);
    let size = (mark % LAST) as usize;
    if size > room {
        return Piece::Long;
    }
    if bytes.len() - MARK < size {
        return Piece::Ends;
    }
    Piece::Part {
        is_last: mark >= LAST,
        size,
    }
}

/// What stands at the front of bytes.
pub fn front_of(alloc: Global, bytes: &[u8]) -> Result<Front, AllocError>
    ensures { IfOk result (λ f. IsFront bytes.now f) }
{
    let mut request = Vec::new(alloc);
    let mut taken = 0;
    for _ in 0..FRAGMENTS {
        let rest = &bytes[taken..];
        match piece_at(rest, LONGEST - request.len()) {
            Piece::Part { is_last, size } => {
                request.extend_from_slice(&rest[MARK..MARK + size])?;
                taken += MARK + size;
                if is_last {
                    let request = Request::new(request);
                    return Ok(Front::Whole { request, taken });
                }
            }
            Piece::Ends => return Ok(Front::Short),
            Piece::Long => return Ok(Front::Large),
        }
    }
    if bytes.len() - taken < MARK {
        Ok(Front::Short)
    } else {
        Ok(Front::Large)
    }
}
