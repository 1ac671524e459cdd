//! What the steps of servers bring to the book.

ghost use Rattle.world_laws.specs.Books.{DeedsGrow, DeliveriesGrow};

/// In each step, of a deed or of a message that was sent, the book grows by the updates that came
/// within CP at an open leader and weren't entered before, and then by the reads that are answered.
pub fn books_grow()
    ensures deeds { DeedsGrow }
    ensures deliveries { DeliveriesGrow }
{}
