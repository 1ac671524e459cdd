//! What a server keeps on its disk beside the cells.

ghost use Rattle.std.specs.Prelude.{◌≡◌, ◌⊎◌, ◌<◌, ◌≤◌, ◌^◌, ◌↔◌, ℕ, false, true, IsSome, IfSome, IsTrue, Option};
ghost use Rattle.harp_types.specs.View.{above};
ghost use Rattle.harp_store.specs.Mark.{IsLongest, IsRing, MarkFields, SavedNumbers, first_mark, first_role};

use harp_types::{LOG_ROOM, Role, ServerId, ViewNo};
use std::marker::Model;

/// How many cells the records of a saved log went round in before the log got longer.
pub const OLD_RING: u32 = 16_384;

/// How many cells the records of a saved log go round in.
pub const RING: u32 = LOG_ROOM as u32;

/// The least length of a promise, in milliseconds.
pub const SHORTEST_PROMISE: u32 = 500;

/// The greatest length of a promise, in milliseconds.
pub const LONGEST_PROMISE: u32 = 100_000;

/// The numbers of a saved log: the index before its first record, the commit point, the index of
/// its last record, each below 2^62, and how many cells its records go round in: 16,384 or 32,768.
#[derive(Clone, Copy, PartialEq, Eq)]
pub struct Saved {
    base: u64,
    cp: u64,
    top: u64,
    ring: u32,
}

impl Model for Saved {
    ghost use Rattle.std.specs.Prelude.{◌<◌, ◌^◌};
    ghost use Rattle.harp_store.specs.Mark.{IsRing, SavedNumbers};

    ghost Value = { SavedNumbers };

    ghost view = { λ s. record { base = s.base; cp = s.cp; top = s.top; ring = s.ring } };

    ghost invariant = { λ s. (s.base < 2 ^ 62) × (s.cp < 2 ^ 62) × (s.top < 2 ^ 62)
        × IsRing s.ring };

    ghost inverse = { λ s. record { base = s.base; cp = s.cp; top = s.top; ring = s.ring } };
}

impl Saved {
    /// These numbers, where the indices are below 2^62 and the ring is one of the two.
    pub fn of(base: u64, cp: u64, top: u64, ring: u32) -> Option<Saved>
        ensures found { IsSome result ↔ ((base < 2 ^ 62) × (cp < 2 ^ 62) × (top < 2 ^ 62)
            × IsRing ring) }
        ensures value { IfSome result (λ s. s
            ≡ record { base = base; cp = cp; top = top; ring = ring }) }
    {
        if base < 1 << 62 && cp < 1 << 62 && top < 1 << 62 && (ring == OLD_RING || ring == RING) {
            Some(Saved {
                base,
                cp,
                top,
                ring,
            })
        } else {
            None
        }
    }

    /// These numbers, which are known to be below 2^62, of a log that is saved now.
    pub fn new(base: u64, cp: u64, top: u64) -> Saved
        requires { (base < 2 ^ 62) × (cp < 2 ^ 62) × (top < 2 ^ 62) }
        ensures { result ≡ record { base = base; cp = cp; top = top; ring = 32768 } }
    {
        Saved {
            base,
            cp,
            top,
            ring: RING,
        }
    }

    /// The index before the first record.
    pub fn base(self) -> u64
        ensures value { result ≡ self.base }
        ensures bound { self.base < 2 ^ 62 }
    {
        self.base
    }

    /// The commit point.
    pub fn cp(self) -> u64
        ensures value { result ≡ self.cp }
        ensures bound { self.cp < 2 ^ 62 }
    {
        self.cp
    }

    /// The index of the last record.
    pub fn top(self) -> u64
        ensures value { result ≡ self.top }
        ensures bound { self.top < 2 ^ 62 }
    {
        self.top
    }

    /// How many cells the records go round in.
    pub fn ring(self) -> u32
        ensures value { result ≡ self.ring }
        ensures bound { IsRing self.ring }
    {
        self.ring
    }
}

/// The mark, which is written whole: the view that the server promised, the one that it accepted,
/// which isn't above it, the server's role there, the index up to which its disk has all updates,
/// below 2^62, the greatest length of a promise in milliseconds that the disk ever saw, 500 to
/// 100,000, where the mark isn't an old one, and the numbers of its saved log, where it has one.
#[derive(Clone, Copy, PartialEq, Eq)]
pub struct Mark {
    promised: ViewNo,
    accepted: ViewNo,
    role: Role,
    lb: u64,
    longest: Option<u32>,
    saved: Option<Saved>,
}

impl Model for Mark {
    ghost use Rattle.std.specs.Prelude.{◌<◌, ◌^◌, ◌≡◌, false};
    ghost use Rattle.harp_types.specs.View.{above};
    ghost use Rattle.harp_store.specs.Mark.{IsLongest, MarkFields};

    ghost Value = { MarkFields };

    ghost view = { λ m. record {
      promised = m.promised;
      accepted = m.accepted;
      role = m.role;
      lb =
          m.lb;
      longest = m.longest;
      saved = m.saved;
    } };

    ghost invariant = { λ m. (m.lb < 2 ^ 62) × (above m.accepted m.promised ≡ false)
        × IsLongest m.longest };

    ghost inverse = { λ m. record {
      promised = m.promised;
      accepted = m.accepted;
      role = m.role;
      lb = m.lb;
      longest = m.longest;
      saved = m.saved;
    } };
}

// Whether a mark may have this length of a promise.
fn is_longest(longest: Option<u32>) -> bool
    ensures { IsTrue result ↔ IsLongest longest }
{
    match longest {
        Some(length) => length >= SHORTEST_PROMISE && length <= LONGEST_PROMISE,
        None => true,
    }
}

// The role of a server on its new disk.
fn first_role(place: ServerId) -> Role
    ensures { result ≡ first_role place }
{
    match place {
        ServerId::Zero => Role::Leads(ServerId::One),
        ServerId::One => Role::Follows(ServerId::Zero),
        ServerId::Two => Role::Outside,
    }
}

impl Mark {
    /// A mark of these fields, where the accepted view isn't above the promised one, the index is
    /// below 2^62, and the length of a promise that is given is 500 to 100,000.
    pub fn of(
        promised: ViewNo,
        accepted: ViewNo,
        role: Role,
        lb: u64,
        longest: Option<u32>,
        saved: Option<Saved>,
    ) -> Option<Mark>
        ensures found { IsSome result ↔ ((lb < 2 ^ 62) × (above accepted promised ≡ false)
            × IsLongest longest) }
        ensures value { IfSome result
            (λ m. m ≡ record {
              promised = promised;
              accepted = accepted;
              role = role;
              lb = lb;
              longest = longest;
              saved = saved;
            }) }
    {
        if lb < 1 << 62 && !accepted.is_above(promised) && is_longest(longest) {
            Some(Mark {
                promised,
                accepted,
                role,
                lb,
                longest,
                saved,
            })
        } else {
            None
        }
    }

    /// A mark of these fields, which are known to fit.
    pub fn new(
        promised: ViewNo,
        accepted: ViewNo,
        role: Role,
        lb: u64,
        longest: Option<u32>,
        saved: Option<Saved>,
    ) -> Mark
        requires order { above accepted promised ≡ false }
        requires bound { lb < 2 ^ 62 }
        requires longest { IsLongest longest }
        ensures { result ≡ record {
          promised = promised;
          accepted = accepted;
          role = role;
          lb =
              lb;
          longest = longest;
          saved = saved;
        } }
    {
        Mark {
            promised,
            accepted,
            role,
            lb,
            longest,
            saved,
        }
    }

    /// The first mark of a server's disk: it promised and accepted the view 0.0, which never
    /// opens, and its saved log is the empty one. The length of a promise is 500 to 100,000.
    pub fn first(place: ServerId, longest: u32) -> Mark
        requires { (500 ≤ longest) × (longest ≤ 100000) }
        ensures { result ≡ first_mark place longest }
    {
        let view = ViewNo::of(0, ServerId::Zero).unwrap();
        Mark::new(
            view,
            view,
            first_role(place),
            0,
            Some(longest),
            Some(Saved::new(0, 0, 0)),
        )
    }

    /// The same mark with another promised view, which isn't below the accepted one.
    pub fn with_promised(self, promised: ViewNo) -> Mark
        requires { above self.accepted promised ≡ false }
        ensures { result ≡ record self { promised = promised } }
    {
        Mark { promised, ..self }
    }

    /// The same mark with the promised view accepted, and the server's role there.
    pub fn with_accepted(self, role: Role) -> Mark
        ensures { result ≡ record self { accepted = self.promised; role = role } }
    {
        Mark {
            accepted: self.promised,
            role,
            ..self
        }
    }

    /// The same mark with this index, up to which the disk has all updates.
    pub fn with_lb(self, lb: u64) -> Mark
        requires { lb < 2 ^ 62 }
        ensures { result ≡ record self { lb = lb } }
    {
        Mark { lb, ..self }
    }

    /// The same mark with this greatest length of a promise, 500 to 100,000.
    pub fn with_longest(self, longest: u32) -> Mark
        requires { (500 ≤ longest) × (longest ≤ 100000) }
        ensures { result ≡ record self { longest = Some longest } }
    {
        Mark {
            longest: Some(longest),
            ..self
        }
    }

    /// The same mark with the numbers of this saved log, or with none.
    pub fn with_saved(self, saved: Option<Saved>) -> Mark
        ensures { result ≡ record self { saved = saved } }
    {
        Mark { saved, ..self }
    }

    /// The view that the server promised.
    pub fn promised(self) -> ViewNo
        ensures value { result ≡ self.promised }
        ensures order { above self.accepted self.promised ≡ false }
    {
        self.promised
    }

    /// The view that the server accepted.
    pub fn accepted(self) -> ViewNo
        ensures { result ≡ self.accepted }
    {
        self.accepted
    }

    /// The server's role in the view that it accepted.
    pub fn role(self) -> Role
        ensures { result ≡ self.role }
    {
        self.role
    }

    /// The index up to which the disk has all updates.
    pub fn lb(self) -> u64
        ensures value { result ≡ self.lb }
        ensures bound { self.lb < 2 ^ 62 }
    {
        self.lb
    }

    /// The greatest length of a promise that the disk ever saw; None in an old mark.
    pub fn longest(self) -> Option<u32>
        ensures value { result ≡ self.longest }
        ensures bound { IsLongest self.longest }
    {
        self.longest
    }

    /// The numbers of the saved log, where there is one.
    pub fn saved(self) -> Option<Saved>
        ensures { result ≡ self.saved }
    {
        self.saved
    }
}
