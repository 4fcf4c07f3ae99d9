ghost use Rattle.std.specs.Prelude.{◌≡◌, ◌<◌, ◌^◌, length, slice_get, IfOk, IfSome, OnOk, OnErr, option_copied, false};
ghost use Rattle.block_records.specs.Numbers.{entry_at};
ghost use Rattle.cluster_trace.specs.Trace as spec;
ghost use Rattle.cluster_trace.specs.Trace.{start, request_named, node_called, leader_called, message_delivered, message_at, left_by, happens, outcome_of};
ghost use Rattle.cluster_trace.specs.declared.event.Event.TheVariants as event;
ghost use Rattle.cluster_trace.specs.Provenance.{call_brought, call_of};
ghost use Rattle.cluster_trace.specs.Typed.{GrantsFit, PresentsBytes, CallFits};

use cluster_parts::carried::{Carried, carry_out};
use cluster_parts::found::{entry_count, find};
use cluster_parts::leaders::Leaders;
use cluster_parts::nodes::Nodes;
use cluster_parts::noted::{note_answer, note_led, note_nothing};
use cluster_parts::ranges::{read_call, read_rows};
use cluster_parts::sent::{Sent, Source};
use cluster_trace::data_call::{Asked, DataCall};
use cluster_trace::outcome::{ClusterRefusal, EventAnswer, Outcome};
use datanode::datanode::DataNode;
use hdfs_types::key::Key;
use hdfs_types::op::{Op, Request};
use hdfs_values::moment::Moment;
use history::config::Config;
pub use name_core::namenode::NameCore;
use node_calls::call::{NodeCall, PlanCall};
use node_ids::node_id::NodeId;
use std::alloc::{AllocError, Global};
use std::marker::Model;

// How many messages the last entry sends.
fn last_count(core: &NameCore) -> u64
    ensures count { IfSome (slice_get core.now.entries 0) (λ entry. result ≡ length (spec.entry_messages entry)) }
    ensures small { result < 2 ^ 63 }
{
    match core.last() {
        Some(entry) => entry_count(entry),
        None => 0,
    }
}

/// Whether a request may come without a message. Takes no memory.
pub fn is_from_outside(op: &Op) -> bool
    ensures { result ≡ spec.is_from_outside op.now }
{
    !matches!(op, Op::Reported(_) | Op::CommitRecovery(_))
}

/// A NameNode, DataNodes with the recoveries that they lead, and the messages that were sent. A call is one event, and leaves what the
/// definition says of the event; which events there were isn't kept here.
pub struct Cluster {
    core: NameCore,
    nodes: Nodes,
    leaders: Leaders,
    sent: Sent,
    // how many batches of messages began up to the one that was delivered last: where the next is looked for first
    near: usize,
    alloc: Global,
}

// Written out, so that it is proved here alone, and not anew in each crate that owns a cluster.
impl Drop for Cluster {
    fn drop(self) {
        let Cluster {
            core,
            nodes,
            leaders,
            sent,
            near: _,
            alloc: _,
        } = self;
        drop(core);
        drop(nodes);
        drop(leaders);
        drop(sent);
    }
}

impl Model for Cluster {
    ghost use Rattle.cluster_trace.specs.Trace.{Cluster};

    ghost Value = { Cluster };

    ghost use Rattle.cluster_core.specs.Cluster.{cluster_of, IsLaid};

    ghost view = { cluster_of };

    ghost invariant = { IsLaid };
}

impl Cluster {
    /// A cluster in which nothing has happened: a NameNode that opens with this configuration and this key, and DataNodes with these ids,
    /// without replicas and without keys. An id that is named twice is one DataNode.
    ///
    /// # Errors
    /// Out of memory.
    pub fn open(
        alloc: Global,
        config: Config,
        key: Key,
        ids: &[NodeId],
    ) -> Result<Cluster, AllocError>
        ensures { IfOk result (λ own. own ≡ start (record { name = record { config = config; key = key }; nodes = ids.now })) }
    {
        let nodes = Nodes::of(alloc, ids, config.replica_limit())?;
        let leaders = Leaders::of(alloc, ids)?;
        Ok(Cluster {
            core: NameCore::open(alloc, config, key)?,
            nodes,
            leaders,
            sent: Sent::new(alloc),
            near: 0,
            alloc,
        })
    }

    /// The NameNode as it is now. Takes no memory.
    pub fn core(&self) -> &NameCore
        ensures { result.now ≡ record { opening = self.now.opening; entries = self.now.entries } }
    {
        &self.core
    }

    /// The DataNode with an id as it is now. Costs a look-up, and takes no memory.
    pub fn node(&self, id: NodeId) -> Option<&DataNode>
        ensures { option_copied result ≡ entry_at id self.now.nodes }
    {
        self.nodes.get(id)
    }

    /// A request to the NameNode, whoever it comes from. It makes the next entry of the history, which keeps it and which `core().last()`
    /// lends with its verdict. Costs what the request costs the NameNode, and a step for each token that it is granted.
    ///
    /// # Errors
    /// Out of memory. Nothing has changed then, and there is no entry.
    pub fn name(&mut self, request: Request) -> Result<Outcome, AllocError>
        ensures ok { OnOk result (self.new ≡ left_by self.old (request_named self.old request)) }
        ensures outcome { IfOk result (λ outcome. outcome ≡ outcome_of self.old (request_named self.old request)) }
        ensures fits { OnOk result (GrantsFit self.old → GrantsFit self.new) }
        ensures err { OnErr result (self.new ≡ self.old) }
    {
        let index = self.core.place();
        let granted = self.core.ledger().len();
        if self.sent.make_room().is_err() {
            drop(request);
            return Err(AllocError);
        }
        self.core.append(0, index, request)?;
        read_rows(self.core.ledger().as_slice(), granted);
        let count = last_count(&self.core);
        let first = self.sent.add(Source::Entry(index as usize), count);
        Ok(Outcome {
            answer: EventAnswer::Named(self.core.place()),
            first,
            count,
        })
    }

    /// A call of a DataNode.
    ///
    /// # Errors
    /// Out of memory. Nothing has changed then.
    fn call(&mut self, node: NodeId, now: Moment, call: &NodeCall) -> Result<Outcome, AllocError>
        ensures ok { OnOk result (self.new ≡ left_by self.old (node_called self.old node now call.now)) }
        ensures outcome { IfOk result (λ outcome. outcome ≡ outcome_of self.old (node_called self.old node now call.now)) }
        ensures bytes { OnOk result (PresentsBytes call.now) }
        ensures err { OnErr result (self.new ≡ self.old) }
    {
        self.sent.make_room()?;
        read_call(call);
        let answered = self.nodes.call(node, now, call)?;
        Ok(note_answer(&mut self.sent, answered))
    }

    /// A call of a DataNode about the recoveries that it leads.
    ///
    /// # Errors
    /// Out of memory. Nothing has changed then.
    fn lead(&mut self, node: NodeId, call: &PlanCall) -> Result<Outcome, AllocError>
        ensures ok { OnOk result (self.new ≡ left_by self.old (leader_called self.old node call.now)) }
        ensures outcome { IfOk result (λ outcome. outcome ≡ outcome_of self.old (leader_called self.old node call.now)) }
        ensures err { OnErr result (self.new ≡ self.old) }
    {
        self.sent.make_room()?;
        let answered = self.leaders.lead(node, call)?;
        Ok(note_led(&mut self.sent, answered))
    }

    /// A call of a DataNode from outside; refused as `NoNode` where there is no such DataNode, and then nothing changes. Costs a look-up, and
    /// what the call costs the DataNode.
    ///
    /// # Errors
    /// Out of memory. Nothing has changed then.
    pub fn data(
        &mut self,
        node: NodeId,
        now: Moment,
        call: &DataCall,
    ) -> Result<Outcome, AllocError>
        ensures ok { OnOk result (self.new ≡ happens self.old (event.Data node now call.now)) }
        ensures outcome { IfOk result (λ outcome. outcome ≡ spec.event_outcome self.old (event.Data node now call.now)) }
        ensures bytes { OnOk result (CallFits (call_of self.old (event.Data node now call.now))) }
        ensures err { OnErr result (self.new ≡ self.old) }
    {
        match call.as_asked() {
            Asked::Replica(asked) => self.call(node, now, asked),
            Asked::Plan(asked) => self.lead(node, &asked),
        }
    }

    /// The delivery of the message with a number, which stays where it is; refused as `NoMessage` where there is none, and as `NoNode` where its
    /// DataNode isn't there, and then nothing changes. Costs what the addressee's call costs, and to find the message a step for each time
    /// that the number of events that sent some can be halved.
    ///
    /// # Errors
    /// Out of memory. Nothing has changed then.
    pub fn deliver(&mut self, number: u64, now: Moment) -> Result<Outcome, AllocError>
        ensures ok { OnOk result (self.new ≡ left_by self.old (message_delivered self.old now (message_at number self.old.messages))) }
        ensures outcome { IfOk result (λ outcome. outcome ≡ outcome_of self.old (message_delivered self.old now (message_at number self.old.messages))) }
        ensures fits { OnOk result (GrantsFit self.old → GrantsFit self.new) }
        ensures bytes { OnOk result (CallFits (call_brought now (message_at number self.old.messages))) }
        ensures err { OnErr result (self.new ≡ self.old) }
    {
        self.sent.make_room()?;
        let found = find(&self.sent, self.core.history(), number, &mut self.near);
        let carried = carry_out(
            self.alloc,
            &mut self.nodes,
            &mut self.leaders,
            now,
            found.as_ref(),
        )?;
        match carried {
            Carried::Nowhere => Ok(note_nothing(&self.sent, ClusterRefusal::NoMessage)),
            Carried::Called(answered) => Ok(note_answer(&mut self.sent, answered)),
            Carried::Led(answered) => Ok(note_led(&mut self.sent, answered)),
            Carried::Told(request) => self.name(request),
        }
    }

    /// A request that only a message brings comes without one: it is refused as `NotFromOutside`, and nothing changes. Costs room for an
    /// event's messages, and no more.
    ///
    /// # Errors
    /// Out of memory. Nothing has changed then.
    pub fn refuse(&mut self, request: &Request) -> Result<Outcome, AllocError>
        requires { spec.is_from_outside request.now.op ≡ false }
        ensures ok { OnOk result (self.new ≡ happens self.old (event.Name request.now)) }
        ensures outcome { IfOk result (λ outcome. outcome ≡ spec.event_outcome self.old (event.Name request.now)) }
        ensures err { OnErr result (self.new ≡ self.old) }
    {
        self.sent.make_room()?;
        Ok(note_nothing(&self.sent, ClusterRefusal::NotFromOutside))
    }
}
