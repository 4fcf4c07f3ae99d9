ghost use Rattle.std.specs.Prelude.{◌≡◌, ◌<◌, ◌≤◌, false, length, true, vec_len, vec_capacity, IfErr, IfOk, OnErr, OnOk};
ghost use Rattle.std.specs.Borrow.{sem};
ghost use Rattle.hdfs_types.specs.Request.{is_look};
ghost use Rattle.history.specs.LegalHistory.{IsLegal};
ghost use Rattle.name_core.specs.NameCore.{with_next_entry};
ghost use Rattle.name_service.specs.Lent.{PassAnswers, PassLooks};
ghost use Rattle.name_service.specs.Passes.{ChangeAnswered, LookAnswered, IsFaultAt, change_answer, look_answer, new_pass};

use hdfs_types::op::Request;
use history::entry::Answer;
use history_replay::receipts::Receipts;
use name_core::namenode::NameCore;
use std::alloc::Global;
use std::marker::Model;
use thiserror::Error;

/// Why a request wasn't answered.
#[derive(Clone, Copy, Debug, PartialEq, Eq, Error)]
pub enum AskFault {
    #[error("out of memory")]
    OutOfMemory,
    /// The NameNode has so many entries, and the pass was told of more: its history isn't the one on which the pass was answered before.
    #[error("the history has {found} entries, and was seen with {seen}")]
    Rewound { seen: u64, found: u64 },
}

/// A caller's session with a NameNode: the answers that it kept, in order, and the place that it has seen, which is that of the last answer,
/// or before the first the number of entries when the session began.
pub struct Pass {
    number: u64,
    seen: u64,
    pub(crate) receipts: Vec<Answer>,
}

impl Drop for Pass {
    fn drop(self) {
        let Pass {
            number: _,
            seen: _,
            receipts,
        } = self;
        drop(receipts);
    }
}

impl Model for Pass {
    ghost use Rattle.name_service.specs.Passes.{Pass};

    ghost Value = { Pass };

    ghost view = { λ pass. record { number = pass.number; seen = pass.seen; receipts = pass.receipts.items } };
}

impl Pass {
    // A session without answers.
    pub(crate) fn new(alloc: Global, number: u64, seen: u64) -> Pass
        ensures { result ≡ new_pass number seen }
    {
        Pass {
            number,
            seen,
            receipts: Vec::new(alloc),
        }
    }

    /// Which session of its server this is, counted from 0. Takes no memory.
    pub fn number(&self) -> u64
        ensures { result ≡ self.now.number }
    {
        self.number
    }

    /// The greatest place that it has seen. Takes no memory.
    pub fn seen(&self) -> u64
        ensures { result ≡ self.now.seen }
    {
        self.seen
    }

    /// The answers that it kept, the oldest first. Takes no memory.
    pub fn receipts(&self) -> &[Answer]
        ensures { result.now ≡ self.now.receipts }
    {
        self.receipts.as_slice()
    }

    // What a check is handed.
    pub(crate) fn into_receipts(self) -> Receipts
        ensures { result ≡ self.receipts }
    {
        let Pass {
            number: _,
            seen: _,
            receipts,
        } = self;
        Receipts::new(receipts)
    }
}

// Makes room for a receipt of a pass that has seen so many entries, where so many are found.
fn make_room(receipts: &mut Vec<Answer>, seen: u64, found: u64) -> Result<(), AskFault>
    ensures receipts { receipts.new.items ≡ receipts.old.items }
    ensures seen { OnOk result (seen ≤ found) }
    ensures room { OnOk result (vec_len receipts.new < vec_capacity receipts.new) }
    ensures err { IfErr result (IsFaultAt seen found) }
{
    if found < seen {
        return Err(AskFault::Rewound { seen, found });
    }
    if receipts.reserve(1).is_err() {
        return Err(AskFault::OutOfMemory);
    }
    Ok(())
}

// Keeps the core's answer to a request that may change something.
pub(crate) fn keep_answer(
    core: &mut NameCore,
    pass: &mut Pass,
    request: &Request,
) -> Result<(), AskFault>
    ensures ok { OnOk result (ChangeAnswered core.old pass.old request.now core.new pass.new) }
    ensures legal { OnOk result (IsLegal core.old.opening core.old.entries) }
    ensures err { IfErr result (IsFaultAt pass.old.seen (length core.old.entries)) }
    ensures err_core { OnErr result (core.new ≡ core.old) }
    ensures err_pass { OnErr result (pass.new ≡ pass.old) }
{
    make_room(&mut pass.receipts, pass.seen, core.place())?;
    let index = pass.receipts.len() as u64;
    let Ok(answer) = core.step(pass.number, index, request) else {
        return Err(AskFault::OutOfMemory);
    };
    pass.seen = answer.place;
    pass.receipts.push_reserved(answer);
    Ok(())
}

// Keeps the core's answer to a request that only looks.
pub(crate) fn keep_look(core: &NameCore, pass: &mut Pass, request: &Request) -> Result<(), AskFault>
    requires { is_look request.now.op ≡ true }
    ensures ok { OnOk result (LookAnswered core.now pass.old request.now pass.new) }
    ensures legal { OnOk result (IsLegal core.now.opening core.now.entries) }
    ensures err { IfErr result (IsFaultAt pass.old.seen (length core.now.entries)) }
    ensures err_pass { OnErr result (pass.new ≡ pass.old) }
{
    let found = core.place();
    make_room(&mut pass.receipts, pass.seen, found)?;
    let Ok(answer) = core.look(request) else {
        return Err(AskFault::OutOfMemory);
    };
    pass.seen = found;
    pass.receipts.push_reserved(answer);
    Ok(())
}

/// Has the core do a request that may change something, as `NameCore::step` does with the pass's number and the number of its receipts, keeps
/// the answer as the pass's next receipt, and lends it. Costs what the request costs.
///
/// # Errors
/// `Rewound` where the core has fewer entries than the pass has seen, which is told before anything else; else out of memory. Core and pass are
/// as they were then.
pub fn answer_locked<'a>(
    pass: &'a mut Pass,
    core: &mut NameCore,
    request: &Request,
) -> Result<&'a Answer, AskFault>
    requires { is_look request.now.op ≡ false }
    ensures* pass { sem 𝓛 (PassAnswers pass.entry core.old request.now core.new result) }
    ensures answer { IfOk result (λ answer. answer.now ≡ change_answer core.old pass.old request.now) }
    ensures core { OnOk result (core.new ≡ with_next_entry core.old pass.old.number (length pass.old.receipts) request.now) }
    ensures seen { OnOk result (pass.old.seen ≤ length core.old.entries) }
    ensures err { IfErr result (IsFaultAt pass.old.seen (length core.old.entries)) }
    ensures err_core { OnErr result (core.new ≡ core.old) }
{
    keep_answer(core, pass, request)?;
    let last = pass.receipts.len() - 1;
    Ok(&pass.receipts[last])
}

/// Has the core answer a request that only looks, as `NameCore::look` does, keeps the answer as the pass's next receipt, and lends it. Costs
/// what the request costs.
///
/// # Errors
/// `Rewound` where the core has fewer entries than the pass has seen, which is told before anything else; else out of memory. The pass is as it
/// was then.
pub fn look_locked<'a>(
    pass: &'a mut Pass,
    core: &NameCore,
    request: &Request,
) -> Result<&'a Answer, AskFault>
    requires { is_look request.now.op ≡ true }
    ensures* pass { sem 𝓛 (PassLooks pass.entry core.now request.now result) }
    ensures answer { IfOk result (λ answer. answer.now ≡ look_answer core.now request.now) }
    ensures seen { OnOk result (pass.old.seen ≤ length core.now.entries) }
    ensures err { IfErr result (IsFaultAt pass.old.seen (length core.now.entries)) }
{
    keep_look(core, pass, request)?;
    let last = pass.receipts.len() - 1;
    Ok(&pass.receipts[last])
}
