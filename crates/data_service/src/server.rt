ghost use Rattle.std.specs.Prelude.{◌≡◌, ◌<◌, ℕ, Err, length, IfErr, IfOk, OnErr};
ghost use Rattle.data_service.specs.Logged.{AllLogged, IsLogged, receipts_of};
ghost use Rattle.data_service.specs.Seats.{IsAnswered, Keeps, new_seats};
ghost use Rattle.data_service.specs.declared.check.LogFault.TheVariants.{Unlogged};

use crate::check::{LogFault, check_seats};
use crate::seat::{Seat, call_locked};
use datanode::answered::Answered;
use datanode::datanode::DataNode;
use hdfs_values::moment::Moment;
use node_calls::call::NodeCall;
use std::alloc::{AllocError, Global};
use std::marker::Model;
use std::sync::{Mutex, Wait};

/// A DataNode that threads share, behind a lock that one caller has at a time: each call moves the node's clock on.
pub struct DataServer {
    alloc: Global,
    // how many records the node's log had when the server opened
    log_start: usize,
    node: Mutex<DataNode>,
}

impl Drop for DataServer {
    fn drop(self) {
        let DataServer {
            alloc: _,
            log_start: _,
            node,
        } = self;
        drop(node);
    }
}

impl Model for DataServer {
    ghost use Rattle.data_service.specs.Logged.{DataServer};

    ghost Value = { DataServer };

    ghost view = { λ server. record { log_start = server.log_start } };
}

/// What a server hands back that couldn't be opened for want of memory: the node as it was.
pub struct OpenFault {
    pub node: DataNode,
}

impl Drop for OpenFault {
    fn drop(self) {
        let OpenFault { node } = self;
        drop(node);
    }
}

// So many seats.
fn seats_for(alloc: Global, count: usize) -> Result<Vec<Seat>, AllocError>
    ensures { IfOk result (λ seats. seats.items ≡ new_seats count) }
{
    let mut seats = Vec::with_capacity(alloc, count)?;
    for _number in 0..count {
        seats.push(Seat::new(alloc))?;
    }
    Ok(seats)
}

/// What a server hands back that closes with this node, whose log had so many records when it opened: the node, where those behind them are what
/// the seats kept, each at its number and once. Costs the records and the receipts.
///
/// # Errors
/// `Unlogged` with a number of which that isn't so; or out of memory. The node and the seats are gone then.
pub fn close_locked(
    alloc: Global,
    log_start: usize,
    node: DataNode,
    seats: Vec<Seat>,
) -> Result<DataNode, LogFault>
    ensures ok { IfOk result (λ back. (back ≡ node) × AllLogged node.log log_start (receipts_of seats.items)) }
    ensures err { (number : ℕ) → result ≡ Err (Unlogged number) → IsLogged node.log log_start (receipts_of seats.items) number → ⊥ }
{
    let checked = check_seats(alloc, node.records(), log_start, seats);
    match checked {
        Ok(()) => Ok(node),
        Err(fault) => {
            drop(node);
            Err(fault)
        }
    }
}

impl DataServer {
    /// A server of this node, with so many seats, of which there is at least one.
    ///
    /// # Errors
    /// Out of memory. The node comes back then.
    pub fn open(
        alloc: Global,
        node: DataNode,
        count: usize,
    ) -> Result<(DataServer, Vec<Seat>), OpenFault>
        requires { 0 < count }
        ensures server { IfOk result (λ opened. opened.0.log_start ≡ length node.log) }
        ensures seats { IfOk result (λ opened. opened.1.items ≡ new_seats count) }
        ensures err { IfErr result (λ fault. fault.node ≡ node) }
    {
        let Ok(seats) = seats_for(alloc, count) else {
            return Err(OpenFault { node });
        };
        let server = DataServer {
            alloc,
            log_start: node.records().len(),
            node: Mutex::new(node),
        };
        Ok((server, seats))
    }

    /// Has the node do any call, from any thread, as `DataNode::call` does: the seat keeps what is noted down of it. Of a call that presents
    /// a token and is served that is one record, of the call's caller, block and access (of a copy that is sent, the node is the caller), and of
    /// the token, which is the caller's, for that block and that access, and expires behind the moment (HADOOP-4359). Waits for the lock, and
    /// costs then what the call costs.
    ///
    /// # Errors
    /// Out of memory. The seat is as it was then, and so is the node by `call_locked`.
    pub fn call(
        &self,
        rt: &impl Wait,
        seat: &mut Seat,
        moment: Moment,
        call: &NodeCall,
    ) -> Result<Answered, AllocError>
        ensures ok { IfOk result (λ answered. IsAnswered moment call.now answered seat.old seat.new) }
        ensures keeps { IfOk result (λ answered. Keeps moment call.now answered.result seat.old seat.new) }
        ensures err { OnErr result (seat.new ≡ seat.old) }
    {
        let mut node = self.node.lock(rt);
        call_locked(&mut *node, seat, moment, call)
    }

    /// Closes a server behind its last call, with its seats: checks its node's log against what they kept, as `close_locked`
    /// does. Costs the records and the receipts.
    ///
    /// # Errors
    /// `Unlogged` with a number of which that isn't so; or out of memory. The node and the seats are gone then.
    pub fn close(self, seats: Vec<Seat>) -> Result<DataNode, LogFault>
        ensures { IfOk result (λ node. AllLogged node.log self.log_start (receipts_of seats.items)) }
    {
        let DataServer {
            alloc,
            log_start,
            node,
        } = self;
        close_locked(alloc, log_start, node.into_inner(), seats)
    }
}
