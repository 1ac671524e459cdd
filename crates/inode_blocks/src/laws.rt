//! What holds of the bytes in the cells of every tree.

ghost use Rattle.inode_blocks.specs.Laws.{TreesHold, FilesStand, OthersAreExact, HolesAreZeros, ErasuresLead, TextsLead};

/// Cells that stand for a tree hold the bytes of each of its files and the text of each of its
/// links, and cells that hold a file's bytes stand for it; the blocks of other objects are exactly
/// those of the tree. An object without blocks holds zeros. An erasure from block 0 on leaves no
/// block, and the Put of a new link's text makes its blocks.
pub fn block_laws()
    ensures trees { TreesHold }
    ensures files { FilesStand }
    ensures holes { HolesAreZeros }
    ensures others { OthersAreExact }
    ensures erased { ErasuresLead }
    ensures texts { TextsLead }
{}
