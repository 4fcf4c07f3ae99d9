ghost use Rattle.std.specs.Prelude.{◌≡◌, ◌++◌, map, IsTrue, IfOk, OnOk};
ghost use Rattle.permission_bits.specs.Modes.{is_modes, modes};
ghost use Rattle.block_tokens.specs.Ring.{update_of};
ghost use Rattle.flat_rows.specs.NodeOutcome.{recover_command, removal_of, copy_command, commands_of};
ghost use Rattle.history.specs.Grants.{ledger_row, granted_with};
ghost use Rattle.node_commands.specs.Granted.{tokens_of, recovery_row, copy_row};

use bitflags::Flags;
use block_answers::commands::{Commands, CopyOrder, Recover, Removal};
use block_changes::transfer::Transfer;
use block_map::instructions::Instructions;
use block_map::recovery::Recovery;
use block_records::mark::Mark;
use block_tokens::ring::KeyRing;
use grant_ledger::ledger::LedgerRow;
use hdfs_values::ids::BlockId;
use hdfs_values::moment::Moment;
use hdfs_values::who::Who;
use permission_bits::modes::Modes;
use std::alloc::{AllocError, Global};

/// The commands of a heartbeat, and the ledger's rows of the tokens in them.
#[derive(Drop)]
pub struct GrantedCommands {
    pub commands: Commands,
    pub rows: Vec<LedgerRow>,
}

/// The row of a token that a user is granted now for some modes of a block. Costs a code.
///
/// # Errors
/// Out of memory.
pub fn granted_row(
    alloc: Global,
    ring: &KeyRing,
    place: u64,
    now: Moment,
    principal: &Who,
    block: BlockId,
    granted: Modes,
) -> Result<LedgerRow, AllocError>
    requires { IsTrue (is_modes granted.0) }
    ensures { IfOk result (λ row. row ≡ ledger_row place ring.now now principal.now (record { block = block; modes = granted })) }
{
    let grant = ring.issue(alloc, now, principal, block, granted)?;
    Ok(LedgerRow { place, grant })
}

// To read and to write.
fn both() -> Modes
    ensures { result ≡ modes 3 }
{
    Modes::READ.union(Modes::WRITE)
}

// The commands to lead recoveries. Their grants stand behind the other rows.
fn recover_commands(
    alloc: Global,
    ring: &KeyRing,
    place: u64,
    now: Moment,
    principal: &Who,
    recoveries: &[Recovery],
    rows: &mut Vec<LedgerRow>,
) -> Result<Vec<Recover>, AllocError>
    ensures commands { IfOk result (λ commands. commands.items ≡ map (recover_command (tokens_of ring.now now) principal.now) recoveries.now) }
    ensures rows { OnOk result (rows.new.items ≡ rows.old.items ++ map (recovery_row place ring.now now principal.now) recoveries.now) }
{
    let mut commands = Vec::new(alloc);
    for recovery in recoveries {
        let row = granted_row(
            alloc,
            ring,
            place,
            now,
            principal,
            recovery.block,
            Modes::WRITE,
        )?;
        let command = Recover {
            block: recovery.block,
            stamp: recovery.stamp,
            nodes: recovery.nodes.clone()?,
            token: row.grant.token.clone()?,
        };
        commands.push(command)?;
        rows.push(row)?;
    }
    Ok(commands)
}

// The commands to copy replicas. Their grants stand behind the other rows.
fn copy_commands(
    alloc: Global,
    ring: &KeyRing,
    place: u64,
    now: Moment,
    principal: &Who,
    copies: &[Transfer],
    rows: &mut Vec<LedgerRow>,
) -> Result<Vec<CopyOrder>, AllocError>
    ensures commands { IfOk result (λ commands. commands.items ≡ map (copy_command (tokens_of ring.now now) principal.now) copies.now) }
    ensures rows { OnOk result (rows.new.items ≡ rows.old.items ++ map (copy_row place ring.now now principal.now) copies.now) }
{
    let mut commands = Vec::new(alloc);
    for copy in copies {
        let row = granted_row(alloc, ring, place, now, principal, copy.block, both())?;
        let command = CopyOrder {
            block: copy.block,
            stamp: copy.stamp,
            target: copy.target,
            token: row.grant.token.clone()?,
        };
        commands.push(command)?;
        rows.push(row)?;
    }
    Ok(commands)
}

// The commands to remove replicas.
fn removals(alloc: Global, marks: &[Mark]) -> Result<Vec<Removal>, AllocError>
    ensures { IfOk result (λ removals. removals.items ≡ map removal_of marks.now) }
{
    let mut removals = Vec::new(alloc);
    for mark in marks {
        removals.push(Removal {
            block: mark.block,
            stamp: mark.stamp,
        })?;
    }
    Ok(removals)
}

/// The commands of a heartbeat: the keys that serve now, and what the node is told, each with a token of its own where it needs one,
/// which the node's principal is granted now under the current key. And the ledger's rows of these tokens, in the order of the commands.
/// Costs the keys, and a code for each recovery and each copy.
///
/// # Errors
/// Out of memory.
pub fn granted_commands(
    alloc: Global,
    ring: &KeyRing,
    place: u64,
    now: Moment,
    principal: &Who,
    told: &Instructions,
) -> Result<GrantedCommands, AllocError>
    ensures commands { IfOk result (λ granted. granted.commands ≡ commands_of (update_of ring.now now) (tokens_of ring.now now) principal.now told.now.recoveries told.now.removals told.now.copies) }
    ensures rows { IfOk result (λ granted. granted.rows.items ≡ map (ledger_row place ring.now now principal.now) (granted_with granted.commands)) }
{
    let mut rows = Vec::new(alloc);
    let keys = ring.update(alloc, now)?;
    let recoveries = recover_commands(
        alloc,
        ring,
        place,
        now,
        principal,
        &told.recoveries,
        &mut rows,
    )?;
    let removals = removals(alloc, &told.removals)?;
    let copies = copy_commands(alloc, ring, place, now, principal, &told.copies, &mut rows)?;
    let commands = Commands::new(alloc, keys, recoveries, removals, copies)?;
    Ok(GrantedCommands { commands, rows })
}
