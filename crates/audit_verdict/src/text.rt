//! The text of a verdict.

ghost use Rattle.std.specs.Prelude.{◌≡◌, ◌++◌, IfOk, OnOk};
ghost use Rattle.std.specs.List.{flat_map};
ghost use Rattle.audit_verdict.specs.Texts.{finding_text, flaw_word, lines_text, listing_text};
ghost use Rattle.audit_verdict.specs.Texts.{unsound_text, verdict_text};

use crate::verdict::Verdict;
use audit::{Finding, Flaw};
use harp_types::ServerId;
use std::alloc::{AllocError, Global};
use text_writer::{append_line, put_named, put_number};
use trace_types::Line;
use tree_listing::Listing;
use world_lines::lines_of_listing;

/// The word of a flaw.
fn flaw_word(flaw: Flaw) -> &'static [u8]
    ensures { result.now ≡ flaw_word flaw }
{
    match flaw {
        Flaw::Root => b"root",
        Flaw::Space => b"space",
        Flaw::Form => b"form",
        Flaw::Slot => b"slot",
        Flaw::Links => b"links",
        Flaw::Parent => b"parent",
        Flaw::Lost => b"lost",
    }
}

/// Appends the line of a finding.
#[tactic(auto, unfolding(crate::specs::Texts::finding_text))]
fn put_finding(out: &mut Vec<u8>, finding: Finding) -> Result<(), AllocError>
    ensures { OnOk result (out.new.items ≡ out.old.items ++ finding_text finding) }
{
    put_named(out, b"fault", u64::from(finding.number))?;
    out.push(b' ')?;
    out.extend_from_slice(flaw_word(finding.flaw))?;
    out.push(b'\n')?;
    Ok(())
}

/// Appends the line of each finding.
fn put_findings(out: &mut Vec<u8>, findings: &[Finding]) -> Result<(), AllocError>
    ensures { OnOk result (out.new.items ≡ out.old.items ++ flat_map finding_text findings.now) }
{
    for finding in findings {
        put_finding(out, *finding)?;
    }
    Ok(())
}

/// The text of what is wrong.
#[tactic(auto, unfolding(crate::specs::Texts::unsound_text))]
fn unsound_text(alloc: Global, findings: &[Finding]) -> Result<Vec<u8>, AllocError>
    ensures { IfOk result (λ text. text.items ≡ unsound_text findings.now) }
{
    let mut out = Vec::new(alloc);
    put_named(&mut out, b"unsound", findings.len() as u64)?;
    out.push(b'\n')?;
    put_findings(&mut out, findings)?;
    Ok(out)
}

/// Appends these lines, each with its line feed.
fn put_lines(alloc: Global, out: &mut Vec<u8>, lines: &[Line]) -> Result<(), AllocError>
    ensures { OnOk result (out.new.items ≡ out.old.items ++ lines_text lines.now) }
{
    for line in lines {
        append_line(alloc, line, out)?;
        out.push(b'\n')?;
    }
    Ok(())
}

/// The text of a tree: how many updates made it, how many objects it has, and its lines.
#[tactic(auto, unfolding(crate::specs::Texts::objects_text))]
fn sound_text(alloc: Global, listing: Listing) -> Result<Vec<u8>, AllocError>
    ensures { IfOk result (λ text. text.items ≡ listing_text listing) }
{
    let mut out = Vec::new(alloc);
    put_named(&mut out, b"sound", listing.cp)?;
    put_number(&mut out, listing.objects.as_slice().len() as u64)?;
    out.push(b'\n')?;
    let lines = lines_of_listing(alloc, ServerId::Zero, listing)?;
    // The first line says that a server lists.
    put_lines(alloc, &mut out, &lines.as_slice()[1..])?;
    Ok(out)
}

/// The text of a verdict.
pub(crate) fn text_of(alloc: Global, verdict: Verdict) -> Result<Vec<u8>, AllocError>
    ensures { IfOk result (λ text. text.items ≡ verdict_text verdict) }
{
    match verdict {
        Verdict::Unsaved => Vec::from_slice(alloc, b"unsaved\n"),
        Verdict::Unsound { findings } => unsound_text(alloc, findings.as_slice()),
        Verdict::Sound { listing } => sound_text(alloc, listing),
    }
}
