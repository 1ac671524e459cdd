//! Room for what a world gathers.

ghost use Rattle.std.specs.Prelude.{◌≡◌};

use std::alloc::AllocError;

/// How many there is room for from the first one on: where room grows, all are moved each time.
const ROOM: usize = 512;

/// Makes room where there is nothing yet. What is there stays.
pub(crate) fn make_room<T>(items: &mut Vec<T>) -> Result<(), AllocError>
    ensures { items.new.items ≡ items.old.items }
{
    if items.is_empty() {
        items.reserve(ROOM)?;
    }
    Ok(())
}
