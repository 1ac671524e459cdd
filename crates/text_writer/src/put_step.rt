//! Steps that are written.

ghost use Rattle.std.specs.Prelude.{◌≡◌, ◌++◌, ◌∷◌, [], codes, decimal, OnOk, Bool, map, if◌then◌else◌};
ghost use Rattle.harp_types.specs.Server.{number_of};
ghost use Rattle.text_spelling.specs.Text.{spaced, hex_text, call_text, cred_text, ask_head, pair_text, among_text};
ghost use Rattle.text_spelling.specs.Steps.{server_text, bits_text, pick_text, step_text};

use crate::{put_at, put_call, put_client, put_cred, put_decimal, put_name, put_named, put_number};
use harp_types::ServerId;
use std::alloc::{AllocError, Global};
use trace_types::{Pick, Step};

/// The servers between which packets are delivered, where they are told.
#[tactic(auto, unfolding(text_spelling::specs::Text::among_text))]
fn put_among(out: &mut Vec<u8>, among: Option<(ServerId, ServerId)>) -> Result<(), AllocError>
    ensures { OnOk result (out.new.items ≡ out.old.items ++ among_text among) }
{
    let Some((first, second)) = among else {
        return Ok(());
    };
    put_number(out, u64::from(first.number()))?;
    put_decimal(out, u64::from(second.number()))?;
    Ok(())
}

/// The digit 1 or 0 of a bit.
fn digit_of(bit: bool) -> u8
    ensures { result ≡ if bit then 49 else 48 }
{
    if bit { b'1' } else { b'0' }
}

/// The digit of each bit.
#[tactic(auto, unfolding(text_spelling::specs::Steps::bits_text))]
fn put_bits(out: &mut Vec<u8>, bits: &[bool]) -> Result<(), AllocError>
    ensures { OnOk result (out.new.items ≡ out.old.items ++ bits_text bits.now) }
{
    for bit in bits {
        out.push(digit_of(*bit))?;
    }
    Ok(())
}

/// A pick behind a space.
fn put_pick(out: &mut Vec<u8>, pick: &Pick) -> Result<(), AllocError>
    ensures { OnOk result (out.new.items ≡ out.old.items ++ spaced (pick_text pick.now)) }
{
    match pick {
        Pick::All => out.extend_from_slice(b" all"),
        Pick::None => out.extend_from_slice(b" none"),
        Pick::Bits(bits) => {
            out.push(b' ')?;
            put_bits(out, bits.as_slice())
        }
    }
}

/// A word, and behind it a server, a number of calls and a pick.
fn put_cut(
    out: &mut Vec<u8>,
    word: &[u8],
    server: ServerId,
    calls: u64,
    pick: &Pick,
) -> Result<(), AllocError>
    ensures { OnOk result (out.new.items ≡ out.old.items ++ word.now
        ++ server_text server ++ spaced (decimal calls) ++ spaced (pick_text pick.now)) }
{
    put_at(out, word, server)?;
    put_number(out, calls)?;
    put_pick(out, pick)
}

#[tactic(auto, unfolding(text_spelling::specs::Steps::step_text, text_spelling::specs::Text::ask_head))]
pub fn put_step(alloc: Global, out: &mut Vec<u8>, step: &Step) -> Result<(), AllocError>
    ensures { OnOk result (out.new.items ≡ out.old.items ++ step_text step.now) }
{
    match step {
        Step::Ask {
            server,
            client,
            number,
            cred,
            call,
        } => {
            put_client(out, b"ask".as_slice(), *server, *client, *number)?;
            put_cred(out, *cred)?;
            out.push(b' ')?;
            put_call(alloc, out, call)
        }
        Step::Deliver { packet } => put_named(out, b"deliver".as_slice(), *packet),
        Step::Pump { among } => {
            out.extend_from_slice(b"pump")?;
            put_among(out, *among)
        }
        Step::Tick { server } => put_at(out, b"tick".as_slice(), *server),
        Step::Suspect { server } => put_at(out, b"suspect".as_slice(), *server),
        Step::Apply { server, most } => {
            put_at(out, b"apply".as_slice(), *server)?;
            put_number(out, u64::from(*most))
        }
        Step::Flush { server } => put_at(out, b"flush".as_slice(), *server),
        Step::List { server } => put_at(out, b"list".as_slice(), *server),
        Step::Boot { server } => put_at(out, b"boot".as_slice(), *server),
        Step::Power { server } => {
            put_at(out, b"power".as_slice(), *server)?;
            out.extend_from_slice(b" all")
        }
        Step::PowerCut {
            server,
            calls,
            pick,
        } => put_cut(out, b"power".as_slice(), *server, *calls, pick),
        Step::Crash { server, pick } => {
            put_at(out, b"crash".as_slice(), *server)?;
            put_pick(out, pick)
        }
        Step::Stop {
            server,
            calls,
            pick,
        } => put_cut(out, b"stop".as_slice(), *server, *calls, pick),
        Step::Noise { server, bytes } => {
            put_at(out, b"noise".as_slice(), *server)?;
            put_name(alloc, out, bytes.as_slice())
        }
        Step::Clock { server, reading } => {
            put_at(out, b"clock".as_slice(), *server)?;
            put_number(out, *reading)
        }
        Step::Advance { millis } => put_named(out, b"advance".as_slice(), *millis),
        Step::Delta { millis } => put_named(out, b"delta".as_slice(), u64::from(*millis)),
    }
}
