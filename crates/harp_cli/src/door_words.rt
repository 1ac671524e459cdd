//! The words that say for whom a door is, and who answers it.

ghost use Rattle.std.specs.Prelude.{◌≡◌, ℕ, ◌<◌, ◌^◌, ◌∷◌, [], MatchOption, codes, decimal};
ghost use Rattle.harp_cli.specs.declared.door_words.Doorway.{Doorway as Way};
ghost use Rattle.harp_cli.specs.declared.words.Command.{Command as Asked};
ghost use Rattle.harp_cli.specs.Words.{DoorWords, Named, PlayWords, texts};

use crate::loop_words::{FIRST_PORT, MOST_TURNS};
use crate::number::number_within;
use crate::words::Command;
use door_group::Caller;
use harp_types::Cred;
use node_link::LAST_PORT;

/// The greatest number of a client.
pub(crate) const LAST_CLIENT: u64 = 4095;

/// A door to three servers: who makes its calls, and where the servers are; place s has this port
/// plus s.
#[derive(Clone, Copy, PartialEq, Eq)]
pub struct Doorway {
    pub caller: Caller,
    pub port: u16,
}

/// The user and the group that these words spell.
fn cred_of(uid: &str, gid: &str) -> Option<Cred>
    ensures { MatchOption result
        ((u g : ℕ) → u < 2 ^ 32 → g < 2 ^ 32 → uid.now ≡ decimal u → gid.now ≡ decimal g → ⊥)
        (λ cred. (cred.uid < 2 ^ 32) × (cred.gid < 2 ^ 32) × (uid.now ≡ decimal cred.uid)
        × (gid.now ≡ decimal cred.gid)) }
{
    let uid = number_within(uid, 0, u64::from(u32::MAX))?;
    let gid = number_within(gid, 0, u64::from(u32::MAX))?;
    Some(Cred {
        uid: uid as u32,
        gid: gid as u32,
    })
}

/// For whom a door to servers in memory is, by these words.
fn played(kind: &str, uid: &str, gid: &str) -> Option<Cred>
    ensures { MatchOption result
        ((u g : ℕ) → PlayWords u g (kind.now ∷ uid.now ∷ gid.now ∷ []) → ⊥)
        (λ cred. PlayWords cred.uid cred.gid (kind.now ∷ uid.now ∷ gid.now ∷ [])) }
{
    if kind != "play" {
        return None;
    }
    cred_of(uid, gid)
}

/// A door to three servers, by these words.
fn served(
    uid: &str,
    gid: &str,
    client: &str,
    port: &str,
    folder: &str,
    turns: &str,
) -> Option<Doorway>
    ensures { MatchOption result
        ((door : Way) → DoorWords door
        (uid.now ∷ gid.now ∷ client.now ∷ port.now ∷ folder.now ∷ turns.now ∷ []) → ⊥)
        (λ door. DoorWords door
        (uid.now ∷ gid.now ∷ client.now ∷ port.now ∷ folder.now ∷ turns.now ∷ [])) }
{
    let cred = cred_of(uid, gid)?;
    let client = number_within(client, 0, LAST_CLIENT)?;
    let port = number_within(port, u64::from(FIRST_PORT), u64::from(LAST_PORT))?;
    let turns = number_within(turns, 1, MOST_TURNS)?;
    if folder.is_empty() {
        return None;
    }
    Some(Doorway {
        caller: Caller {
            cred,
            client: client as u32,
            turns,
        },
        port: port as u16,
    })
}

/// The door that the words behind `door` ask for.
pub fn door_of(words: &[String]) -> Option<Command>
    ensures { MatchOption result
        ((c : Asked) → Named (codes "door") (texts words.now) c → ⊥)
        (Named (codes "door") (texts words.now)) }
{
    match words {
        [kind, uid, gid] => {
            let cred = played(kind.as_str(), uid.as_str(), gid.as_str())?;
            Some(Command::DoorPlay {
                uid: cred.uid,
                gid: cred.gid,
            })
        }
        [uid, gid, client, port, folder, turns] => {
            let door = served(
                uid.as_str(),
                gid.as_str(),
                client.as_str(),
                port.as_str(),
                folder.as_str(),
                turns.as_str(),
            )?;
            Some(Command::Door { door })
        }
        _ => None,
    }
}
