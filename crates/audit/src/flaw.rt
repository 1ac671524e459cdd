//! What is wrong in a stored tree.

/// What may be wrong, of the whole tree or of an object.
#[derive(Clone, Copy)]
pub enum Flaw {
    /// Object 1 isn't a directory.
    Root,
    /// The used blocks aren't those of the objects, or too many.
    Space,
    /// The attributes are those of no object.
    Form,
    /// A slot names no object, or the root, or has a name that no entry may have, or one of
    /// another slot.
    Slot,
    /// The links aren't those that are computed, no slot names the object, or several name a
    /// directory.
    Links,
    /// The parent isn't the directory with the slot.
    Parent,
    /// The parents don't lead to the root.
    Lost,
}

/// A flaw of the object of a number, or of the whole tree under number 0.
#[derive(Clone, Copy)]
pub struct Finding {
    pub number: u32,
    pub flaw: Flaw,
}
