//! Credentials that need no words.

ghost use Rattle.std.specs.Prelude.{◌≡◌};
ghost use Rattle.text_spelling.specs.Text.{is_implied};

use harp_types::Cred;

/// Whether a call that tells no credential is made under this one: user 0 and group 0.
pub fn is_implied(cred: Cred) -> bool
    ensures { result ≡ is_implied cred }
{
    cred.uid == 0 && cred.gid == 0
}
