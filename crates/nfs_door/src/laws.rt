//! What the definitions mean.

ghost use Rattle.std.specs.Prelude.{◌≡◌, ◌<◌, ℕ, true, List, Some, slice_index};
ghost use Rattle.harp_types.specs.declared.cred.Cred.{Cred};
ghost use Rattle.harp_base.specs.Fields.{AllFit};
ghost use Rattle.rpc_door.specs.declared.group.Exchange.{Exchange};
ghost use Rattle.rpc_door.specs.Serving.{sent};
ghost use Rattle.nfs_door.specs.Credentials.{IsUnixAuth, UnixAuth, unix_auth};
ghost use Rattle.nfs_door.specs.Mounts.{handle_answer, mounts};
ghost use Rattle.nfs_door.specs.Paths.{IsName, is_absolute, names_in, path_of};
ghost use Rattle.nfs_door.specs.Steps.{LeadsTo};
ghost use Rattle.nfs_door.specs.Walks.{WalksTo};

/// The body of a credential is read as a Unix user's just where it is one.
pub fn read_credentials()
    ensures read { (bytes : List ℕ) (a : UnixAuth) → IsUnixAuth a bytes → unix_auth bytes ≡ Some a }
    ensures sent { (bytes : List ℕ) (a : UnixAuth) → ((i : ℕ) → slice_index bytes i < 256)
        → unix_auth bytes ≡ Some a → IsUnixAuth a bytes }
{}

/// The names of the path of names are those.
pub fn path_names()
    ensures { (names : List (List ℕ)) → AllFit IsName names → names_in (path_of names) ≡ names }
{}

/// Where the names of a path lead to a directory, its MNT is answered by that one's handle.
pub fn mounted_paths()
    ensures { (who : Cred) (xid : ℕ) (path : List ℕ) (made : List Exchange) (object : ℕ)
        → is_absolute path ≡ true → WalksTo who 1 (names_in path) made object
        → LeadsTo (mounts who xid path) made (sent (handle_answer xid object)) }
{}
