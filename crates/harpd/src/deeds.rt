//! What was done to folders.

/// What is done to a folder.
#[derive(Clone, Copy)]
pub enum Deed {
    /// It is made for a server that never ran.
    Made,
    /// A server is started over it, and its disk is attached to it.
    Entered,
    /// What told its server to stop is taken away.
    Left,
}

/// What was done to the folder of this name.
#[derive(Drop)]
pub struct FolderDeed {
    pub deed: Deed,
    pub folder: String,
}
