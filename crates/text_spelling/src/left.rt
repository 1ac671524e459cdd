//! Fields of SETATTR that are left.

ghost use Rattle.std.specs.Prelude.{◌≡◌};
ghost use Rattle.text_spelling.specs.Text.{is_left_time};

use harp_types::Time;

/// The value that leaves a field of SETATTR.
pub const LEFT: u32 = 4294967295;

/// Whether both fields of a time are left.
pub fn is_left_time(t: &Time) -> bool
    ensures { result ≡ is_left_time t.now }
{
    t.seconds == LEFT && t.micros == LEFT
}
