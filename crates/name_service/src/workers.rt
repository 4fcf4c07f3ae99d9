ghost use Rattle.name_service.specs.Working.{Asked};

use crate::gate::Gate;
use crate::pass::{AskFault, Pass};
use crate::server::NameServer;
use hdfs_types::op::Request;
use std::sync::Wait;

/// Asks these requests one behind the other, up to the first fault, as who watches over leases does, who rolls keys, or a worker for heartbeats,
/// each in a thread and with a pass of his own. Waits for the lock with each, and costs what the requests cost.
///
/// # Errors
/// `Rewound` where the server's core has fewer entries than the pass has seen; else out of memory. The pass has kept the answers before it then.
pub fn background<G: Gate + Drop>(
    server: &NameServer<G>,
    rt: &impl Wait,
    pass: &mut Pass,
    requests: &[Request],
) -> Result<(), AskFault>
    ensures { Asked pass.old requests.now pass.new result }
{
    for request in requests {
        if let Err(fault) = server.keep(rt, pass, request) {
            return Err(fault);
        }
    }
    Ok(())
}
