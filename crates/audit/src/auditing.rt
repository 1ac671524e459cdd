//! What is wrong in a picture.

ghost use Rattle.std.specs.Prelude.{◌≡◌, ℕ, ◌+◌, ◌≤◌, ◌↔◌, ◌++◌, [], ◌<◌, length, map, min, nat_lt};
ghost use Rattle.std.specs.Prelude.{slice_index_or, Option, None, IfOk, OnOk};
ghost use Rattle.std.specs.List.{AllZip, flat_map, list_any};
ghost use Rattle.file_tree.specs.Tree.{blocks_of};
ghost use Rattle.audit.specs.Entries.{AreByNumber, AreNamed, AreWays, IsNamed};
ghost use Rattle.audit.specs.Entries.{entries_in};
ghost use Rattle.audit.specs.declared.flaw.Flaw.TheVariants as flaw;
ghost use Rattle.audit.specs.Flaws.{blocks_in, finding_of, findings, first_flaw, has_no_root};
ghost use Rattle.audit.specs.Flaws.{has_wrong_space};
ghost use Rattle.audit.specs.Pictures.{IsShaped};
ghost use Rattle.audit.specs.Sound.{IsSoundPicture};
ghost use Rattle.audit.specs.Stretches.{AreCounted, AreOthers, ArePrepared, findings_in};
ghost use Rattle.audit.specs.Stretches.{findings_of_whole};

use crate::attributes::{attributes_in, is_directory};
use crate::entries::{Names, names_by, together};
use crate::flaw::{Finding, Flaw};
use crate::flaws::first_flaw;
use crate::objects::{above, at, twice};
use crate::picture::{Picture, Portrait};
use crate::stretches::{Stretch, middle_of, stretches_of};
use harp_types::{BLOCK_SIZE, TREE_BLOCKS};
use rayon::current_num_threads;
use rayon::prelude::*;
use std::alloc::{AllocError, Global};
use std::thread::{Threads, join};

// ---- the whole

fn has_no_root(objects: &[Portrait]) -> bool
    requires { AreByNumber objects.now }
    ensures { result ≡ has_no_root objects.now }
{
    match at(objects, 1) {
        Some(root) => !is_directory(attributes_in(&root.object).kind),
        None => true,
    }
}

fn blocks_of(size: u32) -> u32
    ensures { result ≡ blocks_of size }
{
    size / BLOCK_SIZE + u32::from(size % BLOCK_SIZE != 0)
}

/// The blocks of the objects, or one more than a tree may have.
fn blocks_in(objects: &[Portrait]) -> u32
    ensures { result ≡ min (blocks_in objects.now) 65537 }
{
    let mut blocks = 0;
    for object in objects {
        blocks = blocks_with(blocks, blocks_of(attributes_in(&object.object).size));
    }
    blocks
}

/// So many blocks and more, at most one more than a tree may have.
fn blocks_with(blocks: u32, more: u32) -> u32
    requires { blocks ≤ 65537 }
    ensures { result ≡ min (blocks + more) 65537 }
{
    if more > TREE_BLOCKS - blocks.min(TREE_BLOCKS) {
        TREE_BLOCKS + 1
    } else {
        blocks + more
    }
}

fn has_wrong_space(picture: &Picture) -> bool
    ensures { result ≡ has_wrong_space picture.now }
{
    if picture.used > TREE_BLOCKS {
        return true;
    }
    picture.used != blocks_in(picture.objects.as_slice())
}

// ---- ways up

/// The number one step up from each object.
fn first_ways(alloc: Global, objects: &[Portrait]) -> Result<Vec<u32>, AllocError>
    requires { AreByNumber objects.now }
    ensures { IfOk result (λ ways. AreWays 1 objects.now ways.items) }
{
    let mut ways = Vec::with_capacity(alloc, objects.len())?;
    for object in objects {
        ways.push(above(object))?;
    }
    Ok(ways)
}

/// Twice as many steps up from each object, or more: where a way was doubled before, those that
/// lead over its object go on from there.
fn double(objects: &[Portrait], ways: &mut Vec<u32>)
    requires order { AreByNumber objects.now }
    requires length { length ways.old.items ≡ length objects.now }
    ensures length { length ways.new.items ≡ length ways.old.items }
    ensures ways { (steps : ℕ) → AreWays steps objects.now ways.old.items
        → AreWays (steps + steps) objects.now ways.new.items }
{
    for at in 0..objects.len() {
        let further = twice(objects, ways.as_slice(), ways[at]);
        ways[at] = further;
    }
}

/// Whether a number is neither the root's nor none.
fn goes_on(way: u32) -> bool
    ensures { result ≡ nat_lt 1 way }
{
    way > 1
}

/// Whether further steps up lead anywhere else, from some object.
fn go_on(ways: &[u32]) -> bool
    ensures { result ≡ list_any (nat_lt 1) ways.now }
{
    ways.iter().any(|way| goes_on(*way))
}

/// As many steps up as there are objects, or more, from each.
fn ways_of(alloc: Global, objects: &[Portrait]) -> Result<Vec<u32>, AllocError>
    requires { AreByNumber objects.now }
    ensures { IfOk result (λ ways. AreWays (length objects.now) objects.now ways.items) }
{
    let mut ways = first_ways(alloc, objects)?;
    let mut steps: usize = 1;
    while steps < objects.len() {
        if !go_on(ways.as_slice()) {
            return Ok(ways);
        }
        double(objects, &mut ways);
        steps = steps.saturating_mul(2);
    }
    Ok(ways)
}

// ---- findings

/// What was found of the whole.
fn found_of_whole(alloc: Global, picture: &Picture) -> Result<Vec<Finding>, AllocError>
    requires { AreByNumber picture.now.objects }
    ensures { IfOk result (λ v. v.items ≡ findings_of_whole picture.now) }
{
    let mut found = Vec::new(alloc);
    if has_no_root(picture.objects.as_slice()) {
        found.push(Finding {
            number: 0,
            flaw: Flaw::Root,
        })?;
    }
    if has_wrong_space(picture) {
        found.push(Finding {
            number: 0,
            flaw: Flaw::Space,
        })?;
    }
    Ok(found)
}

/// Adds the first flaw of an object, if it has one.
fn add_finding(found: &mut Vec<Finding>, number: u32, flaw: &Option<Flaw>) -> Result<(), AllocError>
    ensures { OnOk result (found.new.items ≡ found.old.items ++ finding_of number flaw.now) }
{
    match flaw {
        None => Ok(()),
        Some(flaw) => Ok(found.push(Finding {
            number,
            flaw: *flaw,
        })?),
    }
}

/// What the audit of each object takes beside the objects: what the entries of two parts of them
/// say of each, and the number so many steps up from each as there are objects.
#[derive(Drop)]
struct Prepared {
    low: Vec<Names>,
    high: Vec<Names>,
    ways: Vec<u32>,
}

/// What all entries say of the object at a place.
fn names_at(objects: &[Portrait], prepared: &Prepared, at: usize) -> Names
    requires order { AreByNumber objects.now }
    requires prepared { ArePrepared objects.now prepared.now }
    requires place { at < length objects.now }
    ensures { (x : Portrait) → x ≡ slice_index_or objects.now at x
        → IsNamed objects.now x result }
{
    together(prepared.low[at], prepared.high[at])
}

/// The first flaw of the object at a place.
fn flaw_at(
    alloc: Global,
    objects: &[Portrait],
    prepared: &Prepared,
    at: usize,
) -> Result<Option<Flaw>, AllocError>
    requires order { AreByNumber objects.now }
    requires prepared { ArePrepared objects.now prepared.now }
    requires place { at < length objects.now }
    ensures { IfOk result (λ flaw. flaw
        ≡ slice_index_or (map (first_flaw objects.now) objects.now) at None) }
{
    let names = names_at(objects, prepared, at);
    first_flaw(alloc, objects, names, prepared.ways[at], &objects[at])
}

/// The findings of the objects of a stretch.
fn findings_in(
    alloc: Global,
    objects: &[Portrait],
    prepared: &Prepared,
    stretch: Stretch,
) -> Result<Vec<Finding>, AllocError>
    requires order { AreByNumber objects.now }
    requires prepared { ArePrepared objects.now prepared.now }
    ensures { IfOk result (λ v. v.items ≡ findings_in objects.now stretch) }
{
    let mut found = Vec::new(alloc);
    for at in stretch.from..stretch.to.min(objects.len()) {
        let flaw = flaw_at(alloc, objects, prepared, at)?;
        add_finding(&mut found, objects[at].number, &flaw)?;
    }
    Ok(found)
}

/// Adds the findings of several stretches.
fn add_findings(found: &mut Vec<Finding>, parts: &[Vec<Finding>]) -> Result<(), AllocError>
    ensures { OnOk result
        (found.new.items ≡ found.old.items ++ flat_map (λ part. part.items) parts.now) }
{
    for part in parts {
        found.extend_from_slice(part.as_slice())?;
    }
    Ok(())
}

/// What the audit of each object takes beside the objects.
fn prepared_one(alloc: Global, objects: &[Portrait]) -> Result<Prepared, AllocError>
    requires { AreByNumber objects.now }
    ensures { IfOk result (λ made. ArePrepared objects.now made) }
{
    let (some, others) = objects.split_at(objects.len() / 2);
    let low = names_by(alloc, objects, some)?;
    let high = names_by(alloc, objects, others)?;
    let ways = ways_of(alloc, objects)?;
    Ok(Prepared { low, high, ways })
}

/// The findings of a picture: those of the whole under number 0, and then the first flaw of each
/// object, by number. Nothing is found exactly in a sound picture.
pub fn audit_one(alloc: Global, picture: &Picture) -> Result<Vec<Finding>, AllocError>
    requires { IsShaped picture.now }
    ensures found { IfOk result (λ v. v.items ≡ findings picture.now) }
    ensures sound { IfOk result (λ v. v.items ≡ [] ↔ IsSoundPicture picture.now) }
{
    let objects = picture.objects.as_slice();
    let prepared = prepared_one(alloc, objects)?;
    let mut found = found_of_whole(alloc, picture)?;
    let all = Stretch {
        from: 0,
        to: objects.len(),
    };
    let more = findings_in(alloc, objects, &prepared, all)?;
    found.extend_from_slice(more.as_slice())?;
    Ok(found)
}

// ---- several threads

// One thread alone audits fewer objects than these: others cost it more than they spare.
const LEAST: usize = 4096;

/// What the entries of two parts of the objects say of each, counted by two threads, and the
/// stretches of the objects: the parts are cut where a stretch begins, so that each takes as long.
fn names_many<R: Threads + Sync>(
    rt: &R,
    alloc: Global,
    objects: &[Portrait],
) -> Result<(Vec<Names>, Vec<Names>, Vec<Stretch>), AllocError>
    requires { AreByNumber objects.now }
    ensures { IfOk result (λ made. AreCounted objects.now made.0.items made.1.items made.2.items) }
{
    let stretches = stretches_of(alloc, objects, current_num_threads(rt))?;
    let middle = middle_of(stretches.as_slice(), objects.len());
    let (some, others) = objects.split_at(middle);
    let (low, high) = join(
        rt,
        || -> Result<Vec<Names>, AllocError>
            requires { AreByNumber objects.now }
            ensures { IfOk result
                (λ v. AreNamed objects.entry.now (entries_in some.entry.now) v.items) }
        { names_by(alloc, objects, some) },
        || -> Result<Vec<Names>, AllocError>
            requires { AreByNumber objects.now }
            ensures { IfOk result
                (λ v. AreNamed objects.entry.now (entries_in others.entry.now) v.items) }
        { names_by(alloc, objects, others) },
    );
    let low = low?;
    let high = high?;
    Ok((low, high, stretches))
}

/// What is found of the whole, and the ways up, by two threads.
fn others_many<R: Threads + Sync>(
    rt: &R,
    alloc: Global,
    picture: &Picture,
) -> Result<(Vec<Finding>, Vec<u32>), AllocError>
    requires { AreByNumber picture.now.objects }
    ensures { IfOk result (λ made. AreOthers picture.now made.0.items made.1.items) }
{
    let objects = picture.objects.as_slice();
    let (found, ways) = join(
        rt,
        || -> Result<Vec<Finding>, AllocError>
            requires { AreByNumber picture.now.objects }
            ensures { IfOk result (λ v. v.items ≡ findings_of_whole picture.entry.now) }
        { found_of_whole(alloc, picture) },
        || -> Result<Vec<u32>, AllocError>
            requires { AreByNumber objects.now }
            ensures { IfOk result
                (λ v. AreWays (length objects.entry.now) objects.entry.now v.items) }
        { ways_of(alloc, objects) },
    );
    let found = found?;
    let ways = ways?;
    Ok((found, ways))
}

/// The findings of each stretch, looked for by several threads.
fn findings_many<R: Threads + Sync>(
    rt: &R,
    alloc: Global,
    objects: &[Portrait],
    prepared: &Prepared,
    stretches: &[Stretch],
) -> Result<Vec<Vec<Finding>>, AllocError>
    requires order { AreByNumber objects.now }
    requires prepared { ArePrepared objects.now prepared.now }
    ensures { IfOk result (λ v. AllZip (λ stretch part. part.items
        ≡ findings_in objects.now stretch) stretches.now v.items) }
{
    stretches
        .par_iter()
        .with_min_len(1)
        .map(
            |stretch: &Stretch| -> Result<Vec<Finding>, AllocError>
                requires order { AreByNumber objects.now }
                requires prepared { ArePrepared objects.now prepared.now }
                ensures { IfOk result
                    (λ v. v.items ≡ findings_in objects.entry.now stretch.now) }
            { findings_in(alloc, objects, prepared, *stretch) },
        )
        .collect::<Result<Vec<Vec<Finding>>, AllocError>>(rt, alloc)?
}

/// The same findings, looked for by several threads.
pub fn audit_many<R: Threads + Sync>(
    rt: &R,
    alloc: Global,
    picture: &Picture,
) -> Result<Vec<Finding>, AllocError>
    requires { IsShaped picture.now }
    ensures found { IfOk result (λ v. v.items ≡ findings picture.now) }
    ensures sound { IfOk result (λ v. v.items ≡ [] ↔ IsSoundPicture picture.now) }
{
    let objects = picture.objects.as_slice();
    if objects.len() < LEAST {
        return audit_one(alloc, picture);
    }
    let (made, names) = join(
        rt,
        || -> Result<(Vec<Finding>, Vec<u32>), AllocError>
            requires { AreByNumber picture.now.objects }
            ensures { IfOk result
                (λ made. AreOthers picture.entry.now made.0.items made.1.items) }
        { others_many(rt, alloc, picture) },
        || -> Result<(Vec<Names>, Vec<Names>, Vec<Stretch>), AllocError>
            requires { AreByNumber objects.now }
            ensures { IfOk result
                (λ made. AreCounted objects.entry.now made.0.items made.1.items made.2.items) }
        { names_many(rt, alloc, objects) },
    );
    let (mut found, ways) = made?;
    let (low, high, stretches) = names?;
    let prepared = Prepared { low, high, ways };
    let parts = findings_many(rt, alloc, objects, &prepared, stretches.as_slice())?;
    add_findings(&mut found, parts.as_slice())?;
    Ok(found)
}
