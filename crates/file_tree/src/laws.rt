//! What holds of every tree and of every book.

ghost use Rattle.std.specs.Prelude.{◌≡◌, ◌<◌, ◌↔◌, ◌+◌, ◌++◌, ◌∷◌, [], ℕ, List, length, slice_index_or, true, false, Ok, Some};
ghost use Rattle.harp_types.specs.declared.call.Call.{Call};
ghost use Rattle.harp_types.specs.declared.cred.Cred.{Cred};
ghost use Rattle.harp_types.specs.declared.reply.Reply.TheVariants.{Refused};
ghost use Rattle.harp_types.specs.declared.reply.Status.{Status};
ghost use Rattle.harp_types.specs.Update.{is_update};
ghost use Rattle.file_tree.specs.Tree.{Tree, Slots, first_tree, place, entry, is_directory_at, parent_of};
ghost use Rattle.file_tree.specs.Tries.{directory, is_some};
ghost use Rattle.file_tree.specs.Calls.{outcome};
ghost use Rattle.file_tree.specs.Sound.{IsSound};
ghost use Rattle.file_tree.specs.Rows.{EndsOfAFile, Renames, DirectoryPages, NamesAndHandles, SessionOverAFailOver, Permissions, OrderOfPermissions};
ghost use Rattle.file_tree.specs.Book.{Entry, tree_next, tree_after, updates, MayFollow, IsBook, IsRead, IsBefore, ComesNext, last_next, last_of, stamp_next, last_stamp};

/// Trees: the first one is sound, and every call leaves a sound tree sound; a read and a refused
/// call leave it as it is. So the tree after any entries is sound. In a sound tree an entry names a
/// live object, and the parent of a directory is a directory.
pub fn tree_laws()
    ensures first_is_sound { IsSound first_tree }
    ensures outcomes_keep_sound { (tree : Tree) (cred : Cred) (call : Call) (stamp : ℕ)
        → IsSound tree → IsSound (outcome tree cred call stamp).1 }
    ensures reads_keep { (tree : Tree) (cred : Cred) (call : Call) (stamp : ℕ)
        → is_update call ≡ false → (outcome tree cred call stamp).1 ≡ tree }
    ensures refusals_keep { (tree : Tree) (cred : Cred) (call : Call) (stamp : ℕ) (status : Status)
        → (outcome tree cred call stamp).0 ≡ Refused status
        → (outcome tree cred call stamp).1 ≡ tree }
    ensures all_are_sound { (entries : List Entry) → IsSound (tree_after entries) }
    ensures entries_live { (tree : Tree) (dir : ℕ) (slots : Slots) (name : List ℕ) (x : ℕ × ℕ)
        → IsSound tree → directory tree dir ≡ Ok slots → entry slots name ≡ Some x
        → is_some (place tree x.1) ≡ true }
    ensures parents_are_directories { (tree : Tree) (number : ℕ)
        → IsSound tree → is_directory_at (place tree number) ≡ true
        → is_directory_at (place tree (parent_of tree number)) ≡ true }
{}

/// Books: how one grows by an entry, and what may follow, by the last update and its client's last
/// one.
pub fn book_laws()
    ensures appended { (entries : List Entry) (e : Entry)
        → IsBook (entries ++ e ∷ []) ↔ (IsBook entries × MayFollow entries e) }
    ensures tree_appended { (entries : List Entry) (e : Entry)
        → tree_after (entries ++ e ∷ []) ≡ tree_next (tree_after entries) e }
    ensures tree_of_updates { (entries : List Entry)
        → tree_after entries ≡ tree_after (updates entries) }
    ensures update_appended { (entries : List Entry) (e : Entry) → is_update e.call ≡ true
        → updates (entries ++ e ∷ []) ≡ updates entries ++ e ∷ [] }
    ensures read_appended { (entries : List Entry) (e : Entry) → is_update e.call ≡ false
        → updates (entries ++ e ∷ []) ≡ updates entries }
    ensures last_appended { (client : ℕ) (entries : List Entry) (e : Entry)
        → last_of client (entries ++ e ∷ []) ≡ last_next client (last_of client entries) e }
    ensures stamp_appended { (entries : List Entry) (e : Entry)
        → last_stamp (entries ++ e ∷ []) ≡ stamp_next (last_stamp entries) e }
    ensures update_follows { (entries : List Entry) (e : Entry) → IsBook entries
        → is_update e.call ≡ true → MayFollow entries e ↔ ComesNext entries e }
    ensures read_follows { (entries : List Entry) (e : Entry) → is_update e.call ≡ false
        → MayFollow entries e ↔ ((e.reply ≡ (outcome (tree_after entries) e.cred e.call e.stamp).0)
        × IsRead e) }
    ensures begins_with_books { (entries more : List Entry) → IsBook (entries ++ more)
        → IsBook entries }
    ensures in_order { (entries : List Entry) → IsBook entries → (i j : ℕ) (d : Entry) → i < j
        → j < length (updates entries)
        → IsBefore (slice_index_or (updates entries) i d) (slice_index_or (updates entries) j d) }
    ensures numbered { (entries : List Entry) → IsBook entries → (k : ℕ) (d : Entry)
        → k < length (updates entries)
        → (slice_index_or (updates entries) k d).index ≡ k + 1 }
{}

/// Worked sessions, with the reply to each call.
pub fn worked_rows()
    ensures ends_of_a_file { EndsOfAFile }
    ensures rename { Renames }
    ensures directory_pages { DirectoryPages }
    ensures names_and_handles { NamesAndHandles }
    ensures session_over_a_fail_over { SessionOverAFailOver }
    ensures permissions { Permissions }
    ensures order_of_permissions { OrderOfPermissions }
{}
