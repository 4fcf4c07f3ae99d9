ghost use Rattle.std.specs.Prelude.{◌≡◌, ◌++◌, ◌∷◌, [], ℕ, List, Option, None, IfOk, OnOk, OnErr};
ghost use Rattle.block_map.specs.BlockEffects.{refused_behind, given_behind, added_behind};
ghost use Rattle.flat_rows.specs.BlockOutcome.{added_reply, with_block_at};
ghost use Rattle.file_effects.specs.Effected.{IsExact};
ghost use Rattle.hdfs_types.specs.declared.reply.Reply.TheVariants as reply;
ghost use Rattle.lease_manager.specs.declared.writers.Writers.{Writers};
ghost use Rattle.node_commands.specs.Granted.{tokens_of};
ghost use Rattle.block_grants.specs.Granted.{writer_row};

use bitflags::Flags;
use block_answers::located::AddedBlock;
use block_changes::behind::NewBlock;
use block_map::blocks::Blocks;
use block_tokens::ring::KeyRing;
use file_effects::blocks::add_block;
use file_paths::path::Path;
use grant_ledger::ledger::{Ledger, LedgerRow};
use hdfs_types::file::LastBlock;
use hdfs_values::moment::Moment;
use hdfs_values::replication::Repl;
use hdfs_values::who::Who;
use inode_tree::tree::Tree;
use node_commands::commands::granted_row;
use permission_bits::modes::Modes;
use std::alloc::{AllocError, Global};

/// What a writer is told of a new block, once for the history and once for him.
#[derive(Drop)]
pub struct GivenBlock {
    /// For the history.
    pub added: AddedBlock,
    /// For the writer.
    pub copy: AddedBlock,
}

// What is made before anything changes.
#[derive(Drop)]
struct Prepared {
    given: GivenBlock,
    rows: Vec<LedgerRow>,
}

// What the caller is told of a block that is planned for him, with a token to write it, and the ledger's row of that.
fn prepare(
    alloc: Global,
    ring: &KeyRing,
    place: u64,
    now: Moment,
    caller: &Who,
    new: &NewBlock,
) -> Result<Prepared, AllocError>
    ensures added { IfOk result (λ made. reply.Added made.given.added ≡ added_reply (tokens_of ring.now now) caller.now new.now) }
    ensures copy { IfOk result (λ made. made.given.copy ≡ made.given.added) }
    ensures rows { IfOk result (λ made. made.rows.items ≡ writer_row place ring.now now caller.now new.now.block ∷ []) }
{
    let row = granted_row(alloc, ring, place, now, caller, new.block, Modes::WRITE)?;
    let targets = new.targets.clone()?;
    let token = row.grant.token.clone()?;
    let added = AddedBlock::new(alloc, new.block, new.stamp, targets, token)?;
    let copy = added.clone()?;
    let rows = vec![in alloc; row]?;
    Ok(Prepared {
        given: GivenBlock { added, copy },
        rows,
    })
}

/// Gives a writer the block that was planned for him: it stands at the end of his file, the length of the one before is committed where
/// he names one, and the token to write it stands in the ledger. Costs a code, the path, and what `Blocks::add_planned` costs.
///
/// # Errors
/// Out of memory, and nothing has changed.
pub fn give_block(
    alloc: Global,
    tree: &mut Tree,
    blocks: &mut Blocks,
    ring: &KeyRing,
    ledger: &mut Ledger,
    place: u64,
    caller: &Who,
    path: &Path,
    last: &Option<LastBlock>,
    new: NewBlock,
    replication: Repl,
    now: Moment,
) -> Result<GivenBlock, AllocError>
    requires allowed { refused_behind blocks.old last.now now ≡ None }
    requires given { new ≡ given_behind blocks.old last.now now replication }
    ensures added { IfOk result (λ given. reply.Added given.added ≡ added_reply (tokens_of ring.now now) caller.now new) }
    ensures copy { IfOk result (λ given. given.copy ≡ given.added) }
    ensures tree { OnOk result (tree.new ≡ with_block_at path.now last.now new.block tree.old) }
    ensures blocks { OnOk result (blocks.new ≡ added_behind blocks.old last.now now replication) }
    ensures exact { OnOk result ((last : List ℕ → Option ℕ) (writers : Writers) → IsExact last tree.old writers → IsExact last tree.new writers) }
    ensures ledger { OnOk result (ledger.new.rows ≡ ledger.old.rows ++ writer_row place ring.now now caller.now new.block ∷ []) }
    ensures err { OnErr result ((tree.new ≡ tree.old) × (blocks.new ≡ blocks.old)) }
    ensures err_ledger { OnErr result (ledger.new.rows ≡ ledger.old.rows) }
{
    let Ok(made) = prepare(alloc, ring, place, now, caller, &new) else {
        drop(new);
        return Err(AllocError);
    };
    let before = ledger.len();
    let Ok(()) = ledger.enter(made.rows) else {
        drop(made.given);
        drop(new);
        return Err(AllocError);
    };
    let Ok(()) = add_block(tree, blocks, path, *last, new, replication, now) else {
        ledger.take_back(before);
        drop(made.given);
        return Err(AllocError);
    };
    Ok(made.given)
}
