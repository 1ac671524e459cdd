//! The objects of a tree, with what is counted of them: a change of one object changes the counts by
//! what it has alone.

ghost use Rattle.std.specs.Prelude.{◌≡◌, ℕ, ◌-◌, ◌+◌, ◌<◌, ◌≤◌, ◌*◌, ◌↔◌, [], IfOk, IfSome, MatchOption, OnOk, OnErr, length, Option, None, slice_index_or, slice_set, replicate, true};
ghost use Rattle.harp_types.specs.Limits.{slot_size, tree_blocks};
ghost use Rattle.file_tree.specs.Within.{IsWithinLimits, SameBlocks};
ghost use Rattle.file_tree.specs.Tree.{place, entry, slots_of, slots_within, names_in, names_of, size_of, blocks_at, blocks_of, used_blocks, first_tree};
ghost use Rattle.file_tree.specs.Outcome.{change, is_regular_at, lost_entry, reslotted, rewritten, written, set_ctime, slot_changed, with_fields, with_object};
ghost use Rattle.plain_tree.specs.Counts.{AreCounts, HasRoomFor, IsEntered, bytes_of, one, share};

use crate::changes::{clear, reslot, set_ctime, set_slot, write_at};
use crate::computed::{blocks_in, blocks_of, entry, size_of, slots_at};
use crate::fields::set_at;
use file_tree::{Body, Object, Slot, Slots};
use harp_types::{Bytes, SLOT_SIZE, SetAttr, Time};
use std::alloc::{AllocError, Global};
use std::marker::Model;

/// The objects of a tree by number: contracts see their list.
#[derive(Drop)]
pub struct Objects {
    items: Vec<Option<Object>>,
    /// The blocks of all objects.
    used: u32,
    /// How many slots name each number.
    names: Vec<u32>,
}

impl Model for Objects {
    ghost use Rattle.std.specs.Prelude.{List, Option};
    ghost use Rattle.file_tree.specs.declared.object.Object.{Object};
    ghost use Rattle.plain_tree.specs.Counts.{AreCounts};

    ghost Value = { List (Option Object) };

    ghost view = { λ t. t.items.items };

    ghost invariant = { λ t. AreCounts t.items.items t.used t.names.items };
}

/// A number is named once more.
#[tactic(auto, using(crate::proofs::CountLaws::tables))]
fn count(names: &mut Vec<u32>, number: u32)
    requires within { number < length names.old.items }
    requires few { slice_index_or names.old.items number 0 ≤ 1048576 }
    ensures size { length names.new.items ≡ length names.old.items }
    ensures names { (k : ℕ) → slice_index_or names.new.items k 0
        ≡ slice_index_or names.old.items k 0 + one number k }
{
    let more = names[number as usize] + 1;
    names[number as usize] = more;
}

/// A number is named once less.
#[tactic(auto, using(crate::proofs::CountLaws::tables))]
fn uncount(names: &mut Vec<u32>, number: u32)
    ensures size { length names.new.items ≡ length names.old.items }
    ensures names { (k : ℕ) → slice_index_or names.new.items k 0
        ≡ slice_index_or names.old.items k 0 - one number k }
{
    if (number as usize) < names.len() {
        let less = names[number as usize].saturating_sub(1);
        names[number as usize] = less;
    }
}

/// What a slot names counts no more.
fn uncount_slot(names: &mut Vec<u32>, slot: &Option<Slot>)
    ensures size { length names.new.items ≡ length names.old.items }
    ensures names { (k : ℕ) → slice_index_or names.new.items k 0
        ≡ slice_index_or names.old.items k 0 - share k slot.now }
{
    if let Some(slot) = slot {
        uncount(names, slot.number);
    }
}

/// What slots name counts no more.
fn uncount_all(names: &mut Vec<u32>, slots: &[Option<Slot>])
    ensures size { length names.new.items ≡ length names.old.items }
    ensures names { (k : ℕ) → slice_index_or names.new.items k 0
        ≡ slice_index_or names.old.items k 0 - names_in k slots.now }
{
    for slot in slots {
        uncount_slot(names, slot);
    }
}

/// What a slot names counts.
fn count_slot(names: &mut Vec<u32>, slot: &Option<Slot>)
    requires within { IfSome slot.now (λ s. s.number < length names.old.items) }
    requires few { (k : ℕ) → slice_index_or names.old.items k 0 ≤ 1048576 }
    ensures size { length names.new.items ≡ length names.old.items }
    ensures names { (k : ℕ) → slice_index_or names.new.items k 0
        ≡ slice_index_or names.old.items k 0 + share k slot.now }
{
    if let Some(slot) = slot {
        count(names, slot.number);
    }
}

/// The counts where slots of a directory get another one in one place.
fn exchange(names: &mut Vec<u32>, slots: &[Option<Slot>], i: usize, new: &Option<Slot>)
    requires held { (k : ℕ) → names_in k slots.now ≤ slice_index_or names.old.items k 0 }
    requires few { (k : ℕ) → slice_index_or names.old.items k 0 ≤ 1048576 }
    requires within { IfSome new.now (λ s. s.number < length names.old.items) }
    ensures size { length names.new.items ≡ length names.old.items }
    ensures names { (k : ℕ) → slice_index_or names.new.items k 0 + names_in k slots.now
        ≡ slice_index_or names.old.items k 0 + names_in k (slice_set slots.now i new.now) }
{
    if i < slots.len() {
        uncount_slot(names, &slots[i]);
        count_slot(names, new);
    }
}

/// The blocks in use where an object gets others.
fn exchanged(used: u32, before: u32, after: u32) -> u32
    requires within { before ≤ used }
    requires room { used + after ≤ tree_blocks + before }
    ensures { result + before ≡ used + after }
{
    used - before + after
}

/// The blocks in use where an object gets bytes, or none.
fn used_with(used: u32, tree: &[Option<Object>], handle: u32, bytes: &Option<Bytes>) -> u32
    requires tree { used_blocks tree.now ≤ tree_blocks }
    requires used { used ≡ used_blocks tree.now }
    requires room { IfSome bytes.now (λ b.
        used_blocks tree.now + blocks_of (length b) ≤ tree_blocks + blocks_at
        (place tree.now handle)) }
    ensures { MatchOption bytes.now (result ≡ used) (λ b.
        result + blocks_at (place tree.now handle) ≡ used + blocks_of (length b)) }
{
    match bytes {
        None => used,
        Some(bytes) => {
            let before = blocks_in(tree, handle);
            exchanged(used, before, blocks_of(bytes.len() as u32))
        }
    }
}

/// Nothing names one of the first two numbers.
fn no_names(alloc: Global) -> Result<Vec<u32>, AllocError>
    ensures { IfOk result (λ names. names.items ≡ replicate 2 0) }
{
    vec![in alloc; 0u32; 2]
}

impl Objects {
    /// The objects of the first tree: the root alone, a directory of mode 755 octal without slots.
    pub fn new(alloc: Global) -> Result<Objects, AllocError>
        ensures { IfOk result (λ tree. tree ≡ first_tree) }
    {
        let zero = Time {
            seconds: 0,
            micros: 0,
        };
        let mut items = Vec::new(alloc);
        items.push(None)?;
        items.push(Some(Object {
            mode: 493,
            uid: 0,
            gid: 0,
            atime: zero,
            mtime: zero,
            ctime: zero,
            body: Body::Directory {
                slots: Slots::of(Vec::new(alloc)),
            },
        }))?;
        let names = no_names(alloc)?;
        Ok(Objects {
            items,
            used: 0,
            names,
        })
    }

    /// The objects in order.
    pub fn as_slice(&self) -> &[Option<Object>]
        ensures { result.now ≡ self.now }
    {
        self.items.as_slice()
    }

    /// How many numbers there are.
    pub fn len(&self) -> usize
        ensures { result ≡ length self.now }
    {
        self.items.len()
    }

    /// The blocks of all objects.
    pub fn used_blocks(&self) -> u32
        ensures { result ≡ used_blocks self.now }
    {
        self.used
    }

    /// How many slots name an object.
    pub fn names_of(&self, number: u32) -> u32
        ensures { result ≡ names_of self.now number }
    {
        match self.names.get(number as usize) {
            Some(names) => *names,
            None => 0,
        }
    }

    /// The slot and the number of the entry of a directory with a name.
    pub fn entry(&self, dir: u32, name: &[u8]) -> Option<(usize, u32)>
        ensures value { result ≡ entry (slots_of (place self.now dir)) name.now }
        ensures within { IfSome result (λ x. x.1 < length self.now) }
    {
        match entry(slots_at(self.items.as_slice(), dir), name) {
            Some(x) => Some(x),
            None => None,
        }
    }

    /// Sets the ctime of an object.
    pub fn set_ctime(&mut self, number: u32, now: Time)
        requires tree { IsWithinLimits self.old }
        ensures value { self.new ≡ change self.old number (set_ctime now) }
        ensures kept { IsWithinLimits self.new }
    {
        set_ctime(&mut self.items, number, now);
    }

    /// A directory with one slot set.
    pub fn set_slot(&mut self, dir: u32, i: usize, slot: Option<Slot>, now: Time)
        requires tree { IsWithinLimits self.old }
        requires within { IfSome slot (λ s. s.number < length self.old) }
        ensures value { self.new ≡ change self.old dir (slot_changed now i slot) }
        ensures same { SameBlocks self.old self.new }
        ensures kept { IsWithinLimits self.new }
    {
        exchange(
            &mut self.names,
            slots_at(self.items.as_slice(), dir),
            i,
            &slot,
        );
        set_slot(&mut self.items, dir, i, slot, now);
    }

    /// A directory with other slots, which name a number once more.
    pub fn reslot(&mut self, dir: u32, slots: Slots, number: u32, now: Time)
        requires tree { IsWithinLimits self.old }
        requires within { number < length self.old }
        requires entered { IsEntered self.old dir slots number }
        requires room { used_blocks self.old + blocks_of (slot_size * length slots)
            ≤ tree_blocks + blocks_at (place self.old dir) }
        ensures value { self.new ≡ change self.old dir (reslotted now slots) }
        ensures kept { IsWithinLimits self.new }
    {
        let before = blocks_in(self.items.as_slice(), dir);
        let after = blocks_of((SLOT_SIZE as usize * slots.len()) as u32);
        self.used = exchanged(self.used, before, after);
        count(&mut self.names, number);
        reslot(&mut self.items, dir, slots, now);
    }

    /// No object has the number.
    #[tactic(auto, using(file_tree::proofs::Kept::pasts))]
    fn remove(&mut self, number: u32)
        requires tree { IsWithinLimits self.old }
        ensures value { self.new ≡ slice_set self.old number None }
        ensures kept { IsWithinLimits self.new }
    {
        if (number as usize) < self.items.len() {
            uncount_all(&mut self.names, slots_at(self.items.as_slice(), number));
            self.used -= blocks_in(self.items.as_slice(), number);
            clear(&mut self.items, number);
        }
    }

    /// An object that lost an entry: it is gone where that was its last.
    #[tactic(auto, unfolding(file_tree::specs::Outcome::lost_entry))]
    pub fn lost_entry(&mut self, number: u32, now: Time)
        requires tree { IsWithinLimits self.old }
        ensures value { self.new ≡ lost_entry self.old number now }
        ensures kept { IsWithinLimits self.new }
    {
        if self.names_of(number) == 0 {
            self.remove(number);
        } else {
            self.set_ctime(number, now);
        }
    }

    /// A new object, and the directory with its entry.
    pub fn add_object(
        &mut self,
        dir: u32,
        slots: Slots,
        object: Object,
        now: Time,
    ) -> Result<(), AllocError>
        requires tree { IsWithinLimits self.old }
        requires room { HasRoomFor self.old dir slots (size_of object.body) }
        requires entered { IsEntered self.old dir slots (length self.old) }
        requires empty { slots_within object.body ≡ [] }
        ensures ok { OnOk result (self.new ≡ with_object self.old dir slots object now) }
        ensures err { OnErr result (self.new ≡ self.old) }
        ensures kept { IsWithinLimits self.new }
    {
        let before = blocks_in(self.items.as_slice(), dir);
        let after = blocks_of((SLOT_SIZE as usize * slots.len()) as u32);
        let size = blocks_of(size_of(&object.body));
        self.names.reserve(1)?;
        self.items.push(Some(object))?;
        self.names.push_reserved(1);
        self.used = exchanged(self.used + size, before, after);
        reslot(&mut self.items, dir, slots, now);
        Ok(())
    }

    /// A file with bytes placed at an offset, and then of a size. Where memory runs out it is as
    /// before.
    pub fn write(
        &mut self,
        alloc: Global,
        handle: u32,
        offset: u32,
        bytes: &[u8],
        size: u32,
        now: Time,
    ) -> Result<(), AllocError>
        requires tree { IsWithinLimits self.old }
        requires file { is_regular_at (place self.old handle) ≡ true }
        requires size { size ≡ length (written (bytes_of (place self.old handle)) offset bytes.now) }
        requires room { used_blocks self.old + blocks_of size
            ≤ tree_blocks + blocks_at (place self.old handle) }
        ensures ok { OnOk result (self.new ≡ change self.old handle
            (rewritten now (written (bytes_of (place self.old handle)) offset bytes.now))) }
        ensures err { OnErr result (self.new ≡ self.old) }
        ensures kept { IsWithinLimits self.new }
    {
        let before = blocks_in(self.items.as_slice(), handle);
        let used = exchanged(self.used, before, blocks_of(size));
        write_at(alloc, &mut self.items, handle, offset as usize, bytes, now)?;
        self.used = used;
        Ok(())
    }

    /// The given fields of an object, and the bytes of a file.
    pub fn set_fields(&mut self, handle: u32, a: &SetAttr, bytes: Option<Bytes>, now: Time)
        requires tree { IsWithinLimits self.old }
        requires file { IfSome bytes (λ b. is_regular_at (place self.old handle) ≡ true) }
        requires room { IfSome bytes (λ b.
            used_blocks self.old + blocks_of (length b) ≤ tree_blocks + blocks_at
            (place self.old handle)) }
        ensures value { self.new ≡ change self.old handle (with_fields a.now bytes now) }
        ensures kept { IsWithinLimits self.new }
    {
        self.used = used_with(self.used, self.items.as_slice(), handle, &bytes);
        set_at(&mut self.items, handle, a, bytes, now);
    }
}
