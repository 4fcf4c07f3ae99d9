ghost use Rattle.std.specs.Prelude.{◌≡◌, ◌++◌, [], List, IfOk, OnOk, OnErr, option_copied, true, false};
ghost use Rattle.block_records.specs.Numbers.{entry_at};
ghost use Rattle.cluster_trace.specs.Trace as trace;
ghost use Rattle.cluster_trace.specs.Provenance.{AllRight};
ghost use Rattle.cluster_trace.specs.Typed.{AreTyped};
ghost use Rattle.cluster_trace.specs.declared.event.Event.{Event};
ghost use Rattle.cluster_trace.specs.declared.event.Event.TheVariants as event;
ghost use Rattle.cluster_laws.specs.Laws.{RecordsOf};
ghost use Rattle.cluster_core.specs.World.{state_after, with_event, run_past, run_outcomes};

pub use crate::cluster::NameCore;
use crate::cluster::{Cluster, is_from_outside};
use cluster_parts::kept::{KeptEvents, keep_asked};
use cluster_trace::data_call::DataCall;
use cluster_trace::event::Event;
use cluster_trace::outcome::Outcome;
use datanode::datanode::DataNode;
use hdfs_types::key::Key;
use hdfs_types::op::Request;
use hdfs_values::moment::Moment;
use history::config::Config;
use node_ids::node_id::NodeId;
use std::alloc::{AllocError, Global};
use std::collections::VecDeque;
use std::marker::Model;

/// A cluster in one process: a NameNode, DataNodes, and the messages between them. It is what its events lead to from its opening,
/// whatever messages are lost, repeated or delivered out of order.
pub struct World {
    ids: Vec<NodeId>,
    cluster: Cluster,
    // the oldest first
    events: Vec<KeptEvents>,
    alloc: Global,
}

impl Model for World {
    ghost use Rattle.cluster_core.specs.Past.{World};

    ghost Value = { World };

    ghost use Rattle.cluster_core.specs.World.{past_of, IsReached};

    ghost view = { past_of };

    ghost invariant = { IsReached };
}

// Written out: so it is one call wherever a world is let go, where a derived one is a step for each part of it.
impl Drop for World {
    fn drop(self) {
        let World {
            ids,
            cluster,
            events,
            alloc: _,
        } = self;
        drop(ids);
        drop(cluster);
        drop(events);
    }
}

impl World {
    /// A cluster in which nothing has happened: a NameNode that opens with this configuration and this key, and DataNodes with these ids,
    /// without replicas and without keys. An id that is named twice is one DataNode. Costs the ids.
    ///
    /// # Errors
    /// Out of memory.
    pub fn new(
        alloc: Global,
        config: Config,
        key: Key,
        nodes: &[NodeId],
    ) -> Result<World, AllocError>
        ensures { IfOk result (λ world. world ≡ record { opening = record { name = record { config = config; key = key }; nodes = nodes.now }; events = [] }) }
    {
        let ids = Vec::from_slice(alloc, nodes)?;
        Ok(World {
            ids,
            cluster: Cluster::open(alloc, config, key, nodes)?,
            events: Vec::new(alloc),
            alloc,
        })
    }

    /// The NameNode as it is now. Takes no memory.
    pub fn core(&self) -> &NameCore
        ensures { result.now ≡ record { opening = self.now.opening.name; entries = (state_after self.now).entries } }
    {
        self.cluster.core()
    }

    /// The DataNode with an id as it is now. Costs a look-up, and takes no memory.
    pub fn node(&self, id: NodeId) -> Option<&DataNode>
        ensures { option_copied result ≡ entry_at id (state_after self.now).nodes }
    {
        self.cluster.node(id)
    }

    /// A law of this world, which a call tells the prover; it does nothing, and returns nothing. Every request to the NameNode was answered
    /// by the written rules on the entries before it, and every call of a DataNode that presented a token and was served, presented a token
    /// that the NameNode had granted for it, or a forged one; as long as none presented a forged one, each record in the log of each
    /// DataNode rests on a grant; and all values fit their types, so that the laws about clusters hold of these events.
    pub fn is_right(&self)
        ensures right { AllRight self.now.opening self.now.events }
        ensures rest { RecordsOf self.now.opening self.now.events }
        ensures typed { AreTyped self.now.opening self.now.events }
    {
        // a read of a field tells the prover that the world keeps its invariant: its events lead from its opening to its state, and all
        // values fit their types
        let _events = &self.events;
    }

    // A request that only a message brings.
    fn refuse(&mut self, request: Request) -> Result<Outcome, AllocError>
        requires { trace.is_from_outside request.op ≡ false }
        ensures world { OnOk result (self.new ≡ with_event self.old (event.Name request)) }
        ensures outcome { IfOk result (λ outcome. outcome ≡ trace.event_outcome (state_after self.old) (event.Name request)) }
        ensures err { OnErr result (self.new ≡ self.old) }
    {
        if self.events.reserve(1).is_err() {
            drop(request);
            return Err(AllocError);
        }
        let kept = Box::new(self.alloc, request)?;
        let Ok(outcome) = self.cluster.refuse(&kept) else {
            drop(kept);
            return Err(AllocError);
        };
        self.events.push_reserved(KeptEvents::Refused(kept));
        Ok(outcome)
    }

    // A request from outside, which the history keeps.
    fn ask(&mut self, request: Request) -> Result<Outcome, AllocError>
        requires { trace.is_from_outside request.op ≡ true }
        ensures world { OnOk result (self.new ≡ with_event self.old (event.Name request)) }
        ensures outcome { IfOk result (λ outcome. outcome ≡ trace.event_outcome (state_after self.old) (event.Name request)) }
        ensures err { OnErr result (self.new ≡ self.old) }
    {
        if self.events.reserve(1).is_err() {
            drop(request);
            return Err(AllocError);
        }
        let entries = self.cluster.core().place();
        let outcome = self.cluster.name(request)?;
        keep_asked(&mut self.events, entries);
        Ok(outcome)
    }

    fn deliver(&mut self, number: u64, now: Moment) -> Result<Outcome, AllocError>
        ensures world { OnOk result (self.new ≡ with_event self.old (event.Deliver number now)) }
        ensures outcome { IfOk result (λ outcome. outcome ≡ trace.event_outcome (state_after self.old) (event.Deliver number now)) }
        ensures err { OnErr result (self.new ≡ self.old) }
    {
        self.events.reserve(1)?;
        let outcome = self.cluster.deliver(number, now)?;
        self.events
            .push_reserved(KeptEvents::Delivered(number, now));
        Ok(outcome)
    }

    fn call(&mut self, node: NodeId, now: Moment, call: DataCall) -> Result<Outcome, AllocError>
        ensures world { OnOk result (self.new ≡ with_event self.old (event.Data node now call)) }
        ensures outcome { IfOk result (λ outcome. outcome ≡ trace.event_outcome (state_after self.old) (event.Data node now call)) }
        ensures err { OnErr result (self.new ≡ self.old) }
    {
        if self.events.reserve(1).is_err() {
            drop(call);
            return Err(AllocError);
        }
        let Ok(outcome) = self.cluster.data(node, now, &call) else {
            drop(call);
            return Err(AllocError);
        };
        self.events
            .push_reserved(KeptEvents::Called(node, now, call));
        Ok(outcome)
    }

    fn happen(&mut self, event: Event) -> Result<Outcome, AllocError>
        ensures world { OnOk result (self.new ≡ with_event self.old event) }
        ensures outcome { IfOk result (λ outcome. outcome ≡ trace.event_outcome (state_after self.old) event) }
        ensures err { OnErr result (self.new ≡ self.old) }
    {
        match event {
            Event::Name(request) => {
                if is_from_outside(&request.op) {
                    self.ask(request)
                } else {
                    self.refuse(request)
                }
            }
            Event::Deliver(number, now) => self.deliver(number, now),
            Event::Data(node, now, call) => self.call(node, now, call),
        }
    }

    /// Steps an event, and keeps it. A request makes the next entry of the NameNode's history, which keeps it and which `core().last()`
    /// lends with its verdict; where it was refused as `NoMessage`, `NoNode` or `NotFromOutside` nothing else has changed, and no clock.
    /// Costs what the addressee's call costs, and to find a message a step for each time that the number of events that sent some can be
    /// halved.
    ///
    /// # Errors
    /// Out of memory. Nothing has changed then, and the event isn't kept.
    pub fn step(&mut self, event: Event) -> Result<Outcome, AllocError>
        ensures world { OnOk result (self.new ≡ with_event self.old event) }
        ensures outcome { IfOk result (λ outcome. outcome ≡ trace.event_outcome (state_after self.old) event) }
        ensures right { OnOk result (AllRight self.new.opening self.new.events) }
        ensures rest { OnOk result (RecordsOf self.new.opening self.new.events) }
        ensures typed { OnOk result (AreTyped self.new.opening self.new.events) }
        ensures err { OnErr result (self.new ≡ self.old) }
    {
        let outcome = self.happen(event);
        self.is_right();
        outcome
    }
}

/// A world, and what came of the events that were stepped.
pub struct Trace {
    /// As the events leave it.
    pub world: World,
    /// The oldest first.
    pub outcomes: Vec<Outcome>,
}

impl Drop for Trace {
    fn drop(self) {
        let Trace { world, outcomes } = self;
        drop(world);
        drop(outcomes);
    }
}

// Steps events in their order, up to the first for which there is no memory, and notes what came of those before it.
fn run_each(world: &mut World, events: &mut VecDeque<Event>, outcomes: &mut Vec<Outcome>)
    ensures outcomes { (rest : List Event) × (outcomes.new.items ++ run_outcomes world.new rest ≡ outcomes.old.items ++ run_outcomes world.old events.old.items)
        × (run_past world.new rest ≡ run_past world.old events.old.items) }
{
    while let Some(event) = events.pop_front() {
        if outcomes.reserve(1).is_err() {
            drop(event);
            break;
        }
        let Ok(outcome) = world.step(event) else {
            break;
        };
        outcomes.push_reserved(outcome);
    }
}

/// Steps events in their order, up to the first for which there is no memory, and keeps what came of those before it. Costs what the steps of
/// these events do.
pub fn run(alloc: Global, world: World, events: VecDeque<Event>) -> Trace
    ensures outcomes { (rest : List Event) × (result.outcomes.items ++ run_outcomes result.world rest ≡ run_outcomes world events.items)
        × (run_past result.world rest ≡ run_past world events.items) }
    ensures right { AllRight result.world.opening result.world.events }
    ensures rest { RecordsOf result.world.opening result.world.events }
    ensures typed { AreTyped result.world.opening result.world.events }
{
    let mut world = world;
    let mut events = events;
    let mut outcomes = Vec::new(alloc);
    run_each(&mut world, &mut events, &mut outcomes);
    world.is_right();
    Trace { world, outcomes }
}
