//! A server of a played group.

ghost use Rattle.std.specs.Prelude.{◌≡◌, ◌<◌, ◌^◌, List, [], None, Some, IfOk, OnOk, false, is_some, true, if◌then◌else◌};
ghost use Rattle.event_record.specs.declared.record.RecordFields.{RecordFields};
ghost use Rattle.file_tree.specs.Book.{Entry};
ghost use Rattle.fuzzy_cells.specs.Disk.{Disk};
ghost use Rattle.group_trace.specs.DiskRun.{empty_stores};
ghost use Rattle.group_rules.specs.Names.{place_of};
ghost use Rattle.group_rules.specs.State.{Server};
ghost use Rattle.group_rules.specs.Step.{first_group};
ghost use Rattle.group_trace.specs.Shown.{shown_of};
ghost use Rattle.harp_store.specs.Memory.{crashed_by};
ghost use Rattle.node.specs.Stock.{Stock};
ghost use Rattle.node_outputs.specs.Said.{nothing, said};
ghost use Rattle.world_rules.specs.Host.{IsHost, IsRunning, disk_of, listed, no_stock, with_node, without_node};
ghost use Rattle.world_rules.specs.Steps.{HostBoots, HostFails, HostFalls, HostTakes};
ghost use Rattle.world_host.specs.Starts.{HostStarts};
ghost use Rattle.harp_store.specs.Values.{stands, stored};

mod showing;

use harp_store::{Pick, SoundStore, StoppingStore};
use harp_types::{ServerId, StateLine};
use node::{Input, Node, NodeFault};
use node_outputs::Outputs;
use power_save::SeenRecords;
use promise::Delta;
use std::alloc::{AllocError, Global};
use std::marker::Model;
use std::mem;
use world_rules::Stop;

/// One server of a played group: its node, which is there while the server is up, over its disk in
/// memory. Its contracts see it as a server of the group's rules over a disk of a run. After want
/// of memory it may be anything.
#[derive(Drop)]
pub struct Host {
    me: ServerId,
    /// Boxed: a step takes it out and puts it back, and so moves a pointer.
    node: Option<Box<Node>>,
    disk: SoundStore,
    /// The records that its boots read: each boot after a crash meets most of them again.
    seen: SeenRecords,
    /// What a trace shows of the node, if it is there: it is wanted before each step and after it.
    shown: Option<StateLine>,
}

impl Model for Host {
    ghost use Rattle.world_rules.specs.Host.{HostValue, IsRunning, listed};
    ghost use Rattle.world_host.specs.Shows.{IsShown};
    ghost use Rattle.group_rules.specs.Names.{place_of};
    ghost use Rattle.std.specs.Prelude.{◌≡◌, [], IfSome, option_map};
    ghost use Rattle.harp_store.specs.Values.{stored};

    ghost Value = { HostValue };

    ghost view = { λ h. record {
      me = place_of h.me;
      node = option_map (λ b. b.value) h.node;
      disk = listed h.disk;
    } };

    // No earlier moment of its disk is told any more, and its node can go on, and is shown so.
    ghost invariant = { λ h. ((stored h.disk).past ≡ [])
        × IfSome (option_map (λ b. b.value) h.node) (IsRunning (stored h.disk).now)
        × IfSome (option_map (λ b. b.value) h.node) (IsShown h.shown) };
}

impl Host {
    /// A server that has booted on a new disk, its clock at 0, with promises of the first length.
    pub fn new(alloc: Global, me: ServerId) -> Result<Host, AllocError>
        ensures me { IfOk result (λ h. h.me ≡ place_of me) }
        ensures first { IfOk result (λ h. IsHost (first_group.server (place_of me)) no_stock []
            (empty_stores (place_of me)) h) }
    {
        let mut host = Host {
            me,
            node: None,
            disk: SoundStore::new(alloc),
            seen: SeenRecords::new(alloc),
            shown: None,
        };
        host.start(alloc, 0, Delta::first())?;
        Ok(host)
    }

    /// Whether the server is up.
    pub fn is_up(&self) -> bool
        ensures { (s : Server Entry) (k : Stock) (saved : List RecordFields) (r : Disk)
            → IsHost s k saved r self.now → result ≡ s.up }
    {
        self.node.is_some()
    }

    /// What a trace shows of the server: nothing while it is down.
    pub fn state_line(&self) -> Option<StateLine>
        ensures { (s : Server Entry) (k : Stock) (saved : List RecordFields) (r : Disk)
            → IsHost s k saved r self.now → result ≡ shown_of s }
    {
        match &self.node {
            Some(_) => self.shown,
            None => None,
        }
    }

    /// A step of the server, which is up, at this reading of its clock. Its outputs come where none
    /// are yet, and the result tells whether it gave them. Where a stop comes, nothing is given:
    /// the server falls, and its disk is what the stop's pick leaves. It goes into its callers: an
    /// input is large, and each call that hands it on moves it.
    #[inline(always)]
    pub fn take(
        &mut self,
        alloc: Global,
        input: Input,
        now: u64,
        stop: Option<Stop>,
        outs: &mut Outputs,
    ) -> Result<bool, AllocError>
        requires now { now < 2 ^ 62 }
        requires none { said outs.old ≡ nothing }
        ensures me { self.new.me ≡ self.old.me }
        ensures takes { IfOk result (λ gives. HostTakes self.old self.new input now stop
            (if gives then Some outs.new else None)) }
    {
        match stop {
            None => self.run(alloc, input, now, outs),
            Some(stop) => self.run_until(alloc, input, now, &stop, outs),
        }
    }

    /// The same without a stop.
    fn run(
        &mut self,
        alloc: Global,
        input: Input,
        now: u64,
        outs: &mut Outputs,
    ) -> Result<bool, AllocError>
        requires now { now < 2 ^ 62 }
        requires none { said outs.old ≡ nothing }
        ensures me { self.new.me ≡ self.old.me }
        ensures takes { IfOk result (λ gives. HostTakes self.old self.new input now None
            (if gives then Some outs.new else None)) }
    {
        let Some(mut node) = self.node.take() else {
            return Ok(false);
        };
        let stepped = node.step_into::<SoundStore>(alloc, input, now, &mut self.disk, outs);
        self.disk.settle();
        match stepped {
            Ok(()) => {
                self.keep(node);
                Ok(true)
            }
            Err(NodeFault::NoMemory) => Err(AllocError),
            Err(NodeFault::StoreFailed) => unreachable!(),
            Err(NodeFault::Halted) => unreachable!(),
        }
    }

    /// The same over its disk with a stop.
    fn run_until(
        &mut self,
        alloc: Global,
        input: Input,
        now: u64,
        stop: &Stop,
        outs: &mut Outputs,
    ) -> Result<bool, AllocError>
        requires now { now < 2 ^ 62 }
        requires none { said outs.old ≡ nothing }
        ensures me { self.new.me ≡ self.old.me }
        ensures takes { IfOk result (λ gives. HostTakes self.old self.new input now
            (Some stop.now) (if gives then Some outs.new else None)) }
    {
        let Some(mut node) = self.node.take() else {
            return Ok(false);
        };
        let mut disk = self.stop_disk(alloc, stop.calls);
        let stepped = node.step_into::<StoppingStore>(alloc, input, now, &mut disk, outs);
        let stopped = self.put_back(disk, &stop.pick);
        if stopped {
            return Ok(false);
        }
        match stepped {
            Ok(()) => {
                self.keep(node);
                Ok(true)
            }
            Err(NodeFault::NoMemory) => Err(AllocError),
            Err(NodeFault::StoreFailed) => unreachable!(),
            Err(NodeFault::Halted) => unreachable!(),
        }
    }

    /// Goes on with this node.
    fn keep(&mut self, node: Box<Node>)
        requires { IsRunning (disk_of self.old) node.value }
        ensures { self.new ≡ with_node self.old node.value }
    {
        self.shown = Some(node.state_line());
        self.node = Some(node);
    }

    /// Falls: its disk alone stays.
    fn fall(&mut self)
        ensures { self.new ≡ without_node self.old }
    {
        self.node = None;
    }

    /// Goes on with this disk.
    fn put_disk(&mut self, disk: SoundStore)
        requires down { self.old.node ≡ None }
        requires past { (stored disk).past ≡ [] }
        ensures { self.new ≡ record self.old { disk = listed disk } }
    {
        self.disk = disk;
    }

    /// Goes on with its disk, and tells whether the stop came: then that is what the pick leaves.
    fn put_back(&mut self, disk: StoppingStore, pick: &Pick) -> bool
        requires { self.old.node ≡ None }
        ensures me { self.new.me ≡ self.old.me }
        ensures node { self.new.node ≡ None }
        ensures came { result ≡ is_some disk.stopped }
        ensures stopped { result ≡ true
            → disk_of self.new ≡ crashed_by pick.now (stands disk).now }
        ensures lifted { result ≡ false → disk_of self.new ≡ (stands disk).now }
    {
        if disk.is_stopped() {
            self.put_disk(disk.crash(pick));
            return true;
        }
        self.put_disk(disk.lift());
        false
    }

    /// Takes its disk, with a stop: so many calls that change it pass.
    fn stop_disk(&mut self, alloc: Global, calls: u64) -> StoppingStore
        requires { self.old.node ≡ None }
        ensures me { self.new.me ≡ self.old.me }
        ensures node { self.new.node ≡ None }
        ensures left { result.left ≡ calls }
        ensures stopped { result.stopped ≡ None }
        ensures past { (stands result).past ≡ [] }
        ensures stands { (stands result).now ≡ disk_of self.old }
    {
        mem::replace(&mut self.disk, SoundStore::new(alloc)).stop_after(calls)
    }

    /// A power failure of the server, which is up: it saves its log where it has one unsaved, and
    /// falls. Where a stop comes, its disk is what the stop's pick leaves.
    pub fn power(&mut self, alloc: Global, stop: Option<Stop>) -> Result<(), AllocError>
        ensures me { self.new.me ≡ self.old.me }
        ensures fails { OnOk result (HostFails self.old self.new stop) }
    {
        let Some(node) = self.node.take() else {
            return Ok(());
        };
        let node = Box::into_inner(node);
        match stop {
            None => self.save(alloc, node),
            Some(stop) => self.save_until(alloc, node, &stop),
        }
    }

    /// The node that it had saves its log.
    fn save(&mut self, alloc: Global, node: Node) -> Result<(), AllocError>
        requires runs { IsRunning (disk_of self.old) node }
        requires down { self.old.node ≡ None }
        ensures me { self.new.me ≡ self.old.me }
        ensures fails { OnOk result (HostFails (with_node self.old node) self.new None) }
    {
        let saved = node.power::<SoundStore>(alloc, &mut self.disk);
        self.disk.settle();
        match saved {
            Ok(()) => Ok(()),
            Err(NodeFault::NoMemory) => Err(AllocError),
            Err(NodeFault::StoreFailed) => unreachable!(),
            Err(NodeFault::Halted) => unreachable!(),
        }
    }

    /// The node that it had saves its log, over its disk with a stop.
    fn save_until(&mut self, alloc: Global, node: Node, stop: &Stop) -> Result<(), AllocError>
        requires runs { IsRunning (disk_of self.old) node }
        requires down { self.old.node ≡ None }
        ensures me { self.new.me ≡ self.old.me }
        ensures fails { OnOk result (HostFails (with_node self.old node) self.new
            (Some stop.now)) }
    {
        let mut disk = self.stop_disk(alloc, stop.calls);
        let saved = node.power::<StoppingStore>(alloc, &mut disk);
        let stopped = self.put_back(disk, &stop.pick);
        if stopped {
            return Ok(());
        }
        match saved {
            Ok(()) => Ok(()),
            Err(NodeFault::NoMemory) => Err(AllocError),
            Err(NodeFault::StoreFailed) => unreachable!(),
            Err(NodeFault::Halted) => unreachable!(),
        }
    }

    /// A crash of the server: of what its disk hasn't synced the pick tells what stays.
    pub fn crash(&mut self, pick: &Pick)
        ensures me { self.new.me ≡ self.old.me }
        ensures falls { HostFalls self.old self.new pick.now }
    {
        self.fall();
        self.disk.crash(pick);
    }

    /// A boot of the server, which is down, from its disk, at this reading of its clock, with
    /// promises that last for `delta`.
    pub fn boot(&mut self, alloc: Global, now: u64, delta: Delta) -> Result<(), AllocError>
        requires { now < 2 ^ 62 }
        ensures me { self.new.me ≡ self.old.me }
        ensures boots { OnOk result (HostBoots self.old self.new now delta) }
    {
        self.start(alloc, now, delta)
    }

    /// The same from any disk, which may be a new one.
    fn start(&mut self, alloc: Global, now: u64, delta: Delta) -> Result<(), AllocError>
        requires { now < 2 ^ 62 }
        ensures me { self.new.me ≡ self.old.me }
        ensures starts { OnOk result (HostStarts self.old self.new now delta) }
    {
        self.fall();
        let booted = Node::boot::<SoundStore>(
            alloc,
            self.me,
            now,
            delta,
            &mut self.disk,
            &mut self.seen,
        );
        self.disk.settle();
        match booted {
            Ok(node) => {
                self.keep(Box::new(alloc, node)?);
                Ok(())
            }
            Err(NodeFault::NoMemory) => Err(AllocError),
            Err(NodeFault::StoreFailed) => unreachable!(),
            Err(NodeFault::Halted) => unreachable!(),
        }
    }
}
