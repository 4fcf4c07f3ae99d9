ghost use Rattle.std.specs.Prelude.{◌≡◌, ℕ, ◌≤◌, ◌<◌, Err, length, IfErr, IfOk, OnErr, OnOk};
ghost use Rattle.std.specs.Borrow.{sem};
ghost use Rattle.history_replay.specs.Agreement.{Agrees};
ghost use Rattle.audit_check.specs.declared.check.CheckFault.TheVariants.{Disagreement};
ghost use Rattle.audit_check.specs.Laws.{AllAgree};
ghost use Rattle.name_service.specs.Lent.{PassGains};
ghost use Rattle.name_service.specs.Passes.{GainsOne, IsSomeFault, new_passes};
ghost use Rattle.name_service.specs.Serving as spec;

use crate::gate::{Gate, Hold};
use crate::pass::{AskFault, Pass, keep_answer, keep_look};
use audit_check::check::{CheckFault, Opening, check};
use hdfs_types::op::{Request, is_look};
use history::entry::Answer;
use history_replay::receipts::Receipts;
use name_core::namenode::NameCore;
use std::alloc::{AllocError, Global};
use std::marker::Model;
use std::sync::{RwLock, Wait};

// So many passes, which have seen so many entries.
fn passes_from(alloc: Global, count: usize, seen: u64) -> Result<Vec<Pass>, AllocError>
    ensures { IfOk result (λ passes. passes.items ≡ new_passes count seen) }
{
    let mut passes = Vec::with_capacity(alloc, count)?;
    for number in 0..count {
        passes.push(Pass::new(alloc, number as u64, seen))?;
    }
    Ok(passes)
}

// What a core opened with, and the entries that it has.
fn opening_of(core: &NameCore) -> Result<Opening, AllocError>
    ensures { IfOk result (spec.IsOpeningOf core.now) }
{
    Ok(Opening {
        config: core.config(),
        first_key: core.first_key(),
        entries: core.copy_history()?,
    })
}

/// A core that threads share, behind a lock that any number of callers who look have at once, or one who changes something.
pub struct NameServer<G: Gate> {
    alloc: Global,
    opening: Opening,
    gate: G,
    core: RwLock<NameCore>,
}

impl<G: Gate + Drop> Drop for NameServer<G> {
    fn drop(self) {
        let NameServer {
            alloc: _,
            opening,
            gate,
            core,
        } = self;
        drop(opening);
        drop(gate);
        drop(core);
    }
}

impl<G: Gate> Model for NameServer<G> {
    ghost use Rattle.name_service.specs.Serving.{NameServer, BeganLegally};

    ghost Value = { NameServer };

    ghost view = { λ server. server.opening };

    ghost invariant = { λ server. BeganLegally server.opening };
}

/// What a server hands back that couldn't be opened for want of memory: the core and the gate, as they were.
pub struct OpenFault<G: Gate> {
    pub core: NameCore,
    pub gate: G,
}

impl<G: Gate + Drop> Drop for OpenFault<G> {
    fn drop(self) {
        let OpenFault { core, gate } = self;
        drop(core);
        drop(gate);
    }
}

/// What a server hands back that closes.
pub struct Report {
    /// How many entries were made since it opened.
    pub entries: u64,
    pub core: NameCore,
}

impl Drop for Report {
    fn drop(self) {
        let Report { entries: _, core } = self;
        drop(core);
    }
}

// What passes kept, in their order.
fn receipts_of(alloc: Global, passes: Vec<Pass>) -> Result<Vec<Receipts>, AllocError>
    ensures { IfOk result (λ kept. kept.items ≡ spec.receipts_of passes.items) }
{
    let mut kept = Vec::with_capacity(alloc, passes.len())?;
    for pass in passes {
        kept.push(pass.into_receipts())?;
    }
    Ok(kept)
}

// Checks the history of a core against what passes kept.
fn check_passes(
    alloc: Global,
    opening: &Opening,
    core: &NameCore,
    passes: Vec<Pass>,
) -> Result<(), CheckFault>
    ensures agrees { OnOk result (AllAgree (spec.claims_on opening.now core.now passes.items)) }
    ensures disagrees { (pass index : ℕ) → result ≡ Err (Disagreement pass index) → Agrees (spec.claims_on opening.now core.now passes.items) pass index → ⊥ }
{
    let kept = receipts_of(alloc, passes)?;
    let found = check(alloc, opening, core.history(), kept.as_slice());
    drop(kept);
    found
}

/// What a server hands back that closes with this core, which opened so: its history is checked against all answers that the passes kept, as
/// `audit_check::check` does. Costs what the requests of the history cost.
///
/// # Errors
/// `Disagreement` with a pair that doesn't agree, whose pass is told by its place among these passes; or out of memory. The core and the passes
/// are gone then.
pub fn close_locked(
    alloc: Global,
    opening: Opening,
    core: NameCore,
    passes: Vec<Pass>,
) -> Result<Report, CheckFault>
    requires { spec.BeganLegally opening }
    ensures ok { IfOk result (spec.Closes opening passes.items) }
    ensures core { IfOk result (λ report. report.core ≡ core) }
    ensures err { (pass index : ℕ) → result ≡ Err (Disagreement pass index) → Agrees (spec.claims_on opening core passes.items) pass index → ⊥ }
{
    let checked = check_passes(alloc, &opening, &core, passes);
    let begun = opening.entries.len() as u64;
    drop(opening);
    if let Err(fault) = checked {
        drop(core);
        return Err(fault);
    }
    Ok(Report {
        entries: core.place() - begun,
        core,
    })
}

impl<G: Gate + Drop> NameServer<G> {
    /// A server of this core, with so many passes, numbered from 0 on, which have seen the entries that the core has. Costs a copy of the
    /// entries.
    ///
    /// # Errors
    /// Out of memory. Core and gate come back then.
    pub fn open(
        alloc: Global,
        core: NameCore,
        gate: G,
        count: usize,
    ) -> Result<(NameServer<G>, Vec<Pass>), OpenFault<G>>
        requires { 0 < count }
        ensures server { IfOk result (λ opened. spec.IsOpeningOf core opened.0) }
        ensures passes { IfOk result (λ opened. opened.1.items ≡ new_passes count (length core.entries)) }
        ensures err { IfErr result (λ fault. (fault.core ≡ core) × (fault.gate ≡ gate)) }
    {
        let Ok(opening) = opening_of(&core) else {
            return Err(OpenFault { core, gate });
        };
        let Ok(passes) = passes_from(alloc, count, core.place()) else {
            drop(opening);
            return Err(OpenFault { core, gate });
        };
        let server = NameServer {
            alloc,
            opening,
            gate,
            core: RwLock::new(core),
        };
        Ok((server, passes))
    }

    /// Has a pass keep the answer to its next request: of one that looks beside others that look, of any other alone. Waits for the lock, and
    /// costs then what the request costs.
    ///
    /// # Errors
    /// `Rewound` where the server's core has fewer entries than the pass has seen; else out of memory. The pass is as it was then.
    pub fn keep(&self, rt: &impl Wait, pass: &mut Pass, request: &Request) -> Result<(), AskFault>
        ensures ok { OnOk result (GainsOne pass.old request.now pass.new) }
        ensures err { IfErr result (IsSomeFault pass.old.seen) }
        ensures err_pass { OnErr result (pass.new ≡ pass.old) }
    {
        if is_look(&request.op) {
            let core = self.core.read(rt);
            self.gate.inside(Hold::Read);
            keep_look(&*core, pass, request)
        } else {
            let mut core = self.core.write(rt);
            self.gate.inside(Hold::Write);
            keep_answer(&mut *core, pass, request)
        }
    }

    /// Closes a server behind its last call, with the passes that it opened with, in their order: checks its history against all answers that
    /// they kept, as `close_locked` does. Where each pair agrees, every receipt stands in one legal history, which begins with the entries from
    /// before, and each entry made since was told in one receipt. Costs what the requests of the history cost.
    ///
    /// # Errors
    /// `Disagreement` with a pair that doesn't agree, whose pass is told by its place among these passes; or out of memory. The core and the
    /// passes are gone then.
    pub fn close(self, passes: Vec<Pass>) -> Result<Report, CheckFault>
        ensures { IfOk result (spec.Closes self passes.items) }
    {
        let NameServer {
            alloc,
            opening,
            gate,
            core,
        } = self;
        drop(gate);
        close_locked(alloc, opening, core.into_inner(), passes)
    }
}

/// Asks a server, from any thread: the pass keeps the answer, which is lent. A request that only looks is answered beside others that look, any
/// other alone. Waits for the lock, and costs then what the request costs.
///
/// # Errors
/// `Rewound` where the server's core has fewer entries than the pass has seen; else out of memory. The pass is as it was then.
pub fn ask<'a, G: Gate + Drop>(
    pass: &'a mut Pass,
    server: &NameServer<G>,
    rt: &impl Wait,
    request: &Request,
) -> Result<&'a Answer, AskFault>
    ensures* pass { sem 𝓛 (PassGains pass.entry request.now result) }
    ensures request { IfOk result (λ answer. answer.now.request ≡ request.now) }
    ensures seen { IfOk result (λ answer. pass.old.seen ≤ answer.now.place) }
    ensures err { IfErr result (IsSomeFault pass.old.seen) }
{
    server.keep(rt, pass, request)?;
    let last = pass.receipts.len() - 1;
    Ok(&pass.receipts[last])
}
