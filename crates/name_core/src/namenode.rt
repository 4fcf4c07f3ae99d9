ghost use Rattle.std.specs.Prelude.{◌≡◌, ◌<◌, ◌++◌, [], ◌∷◌, length, reverse, slice_get, true, vec_len, vec_capacity, IfOk, OnErr, OnOk};
ghost use Rattle.std.specs.Option.{option_copied};
ghost use Rattle.hdfs_types.specs.Request.{is_look};
ghost use Rattle.hdfs_values.specs.Who.{IsWho};
ghost use Rattle.history.specs.LegalHistory.{IsLegal};
ghost use Rattle.history.specs.State.{superuser, supergroup, blocks_of};
ghost use Rattle.history.specs.Grants.{ledger_of};
ghost use Rattle.history.specs.State.{rows_of, users_of};
ghost use Rattle.namespace_rows.specs.Opening.{root_row};
ghost use Rattle.name_core.specs.Kept.{IsOpened};
ghost use Rattle.name_core.specs.NameCore.{Steps, Looks, with_next_entry};

use block_map::blocks::Blocks;
use block_tokens::ring::KeyRing;
use grant_ledger::ledger::Ledger;
use hdfs_types::key::Key;
use hdfs_types::op::Request;
use hdfs_values::fault::ParseFault;
use hdfs_values::ids::{BlockId, Serial, Stamp};
use hdfs_values::moment::Moment;
use hdfs_values::who::Who;
use history::config::Config;
use history::entry::{Answer, HistoryEntry, copy_of};
use history::recording::{RequestCopies, add_entry, copies, next_place};
use inode_tree::tree::Tree;
use lease_manager::writers::Writers;
use namesystem::namesystem::{Namesystem, answer_look, perform, perform_with_copy};
use namesystem::told::Told;
use open_file_paths::open_paths::OpenPaths;
use principals::users::Users;
use std::alloc::{AllocError, Global};
use std::marker::Model;

// A name that is known to be well-formed.
fn known_who(alloc: Global, text: &str) -> Result<Who, AllocError>
    requires { IsWho text.now }
    ensures { IfOk result (λ who. who ≡ text.now) }
{
    match Who::parse(alloc, text) {
        Ok(who) => Ok(who),
        Err(ParseFault::IllFormed(_)) => unreachable!(),
        Err(ParseFault::OutOfMemory) => Err(AllocError),
    }
}

// The namespace of the root alone.
fn first_tree(alloc: Global) -> Result<Tree, AllocError>
    ensures { IfOk result (λ tree. tree ≡ root_row superuser supergroup ∷ []) }
{
    let superuser = known_who(alloc, "hdfs")?;
    let supergroup = known_who(alloc, "supergroup")?;
    Ok(Tree::new(alloc, superuser, supergroup))
}

// The users where none but the superuser is known.
fn first_users(alloc: Global) -> Result<Users, AllocError>
    ensures { IfOk result (λ users. users ≡ users_of []) }
{
    let superuser = known_who(alloc, "hdfs")?;
    let supergroup = known_who(alloc, "supergroup")?;
    Ok(Users::new(alloc, superuser, supergroup))
}

// What a core opens with, in a function of its own, since one that has all parts of a core over a return takes far longer to prove.
fn opened(alloc: Global, config: Config, key: Key) -> Result<Namesystem, AllocError>
    ensures { IfOk result (IsOpened (record { config = config; key = key })) }
{
    let (durations, first) = (config.durations(), config.first());
    let users = first_users(alloc)?;
    let writers = Writers::new(alloc, durations.soft_limit, durations.hard_limit)?;
    let tree = first_tree(alloc)?;
    let serial = Serial::new(first.serial);
    let (block, stamp) = (BlockId::new(first.block), Stamp::new(first.stamp));
    let (dead, retry) = (durations.dead_limit, durations.retry_limit);
    Ok(Namesystem {
        tree,
        users,
        writers,
        ring: KeyRing::new(alloc, serial, key, durations.token_lifetime),
        blocks: Blocks::new(alloc, dead, retry, block, stamp),
    })
}

// Records a request where there is room for it, and answers it. Takes no memory.
fn record(
    history: &mut Vec<HistoryEntry>,
    place: u64,
    pass: u64,
    index: u64,
    copies: RequestCopies,
    told: Told,
) -> Answer
    requires { vec_len history.old < vec_capacity history.old }
    ensures history { history.new.items ≡ history.old.items ++ record { place = place; pass = pass; index = index; request = copies.kept; verdict = told.verdict } ∷ [] }
    ensures answer { result ≡ record { place = place; request = copies.answered; verdict = told.copy } }
{
    add_entry(history, place, pass, index, copies.kept, told.verdict);
    Answer {
        place,
        request: copies.answered,
        verdict: told.copy,
    }
}

/// A NameNode's core: what it opened with, and its history, which is legal. Its namespace, its users, its leases, its keys, what it
/// granted and what it knows of blocks and DataNodes are what the history gives.
pub struct NameCore {
    config: Config,
    first_key: Key,
    system: Namesystem,
    open_paths: OpenPaths,
    // what was granted
    ledger: Ledger,
    clock: Moment,
    // the oldest first
    history: Vec<HistoryEntry>,
    alloc: Global,
}

/// Written by hand, and not derived, so that a crate that owns a core doesn't prove anew how each part of it is dropped.
impl Drop for NameCore {
    fn drop(self) {
        let NameCore {
            config: _,
            first_key: _,
            system,
            open_paths,
            ledger,
            clock: _,
            history,
            alloc: _,
        } = self;
        drop(system);
        drop(open_paths);
        drop(ledger);
        drop(history);
    }
}

impl Model for NameCore {
    ghost use Rattle.name_core.specs.NameCore.{NameCore};

    ghost Value = { NameCore };

    ghost use Rattle.name_core.specs.Kept.{IsKept, core_of};

    ghost view = { core_of };

    ghost invariant = { λ core. IsKept core };
}

impl NameCore {
    /// A core without entries: no user is known but the superuser, the namespace is the root, and tokens are issued under this key, which
    /// has the first serial number. Costs the names of the configuration.
    ///
    /// # Errors
    /// Out of memory.
    pub fn open(alloc: Global, config: Config, key: Key) -> Result<NameCore, AllocError>
        ensures { IfOk result (λ core. core ≡ record { opening = record { config = config; key = key }; entries = [] }) }
    {
        let system = opened(alloc, config, key)?;
        Ok(NameCore {
            config,
            first_key: key,
            system,
            open_paths: OpenPaths::new(alloc),
            ledger: Ledger::new(alloc),
            clock: Moment::START,
            history: Vec::new(alloc),
            alloc,
        })
    }

    /// The limits and the first numbers with which the core opened. Takes no memory.
    pub fn config(&self) -> Config
        ensures { result ≡ self.now.opening.config }
    {
        self.config
    }

    /// The bytes of the key under which tokens were issued first. Takes no memory.
    pub fn first_key(&self) -> Key
        ensures { result ≡ self.now.opening.key }
    {
        self.first_key
    }

    /// A copy of the entries, the oldest first. Costs the history.
    ///
    /// # Errors
    /// Out of memory.
    pub fn copy_history(&self) -> Result<Vec<HistoryEntry>, AllocError>
        ensures entries { IfOk result (λ copy. reverse copy.items ≡ self.now.entries) }
        ensures legal { IsLegal self.now.opening self.now.entries }
    {
        copy_of(self.alloc, self.history())
    }

    /// The number of entries. Takes no memory.
    pub fn place(&self) -> u64
        ensures place { result ≡ length self.now.entries }
        ensures legal { IsLegal self.now.opening self.now.entries }
    {
        self.history.len() as u64
    }

    /// The entries, the oldest first. Takes no memory.
    pub fn history(&self) -> &[HistoryEntry]
        ensures entries { reverse result.now ≡ self.now.entries }
        ensures legal { IsLegal self.now.opening self.now.entries }
    {
        self.history.as_slice()
    }

    /// The last entry, where there is one. Takes no memory.
    pub fn last(&self) -> Option<&HistoryEntry>
        ensures { option_copied result ≡ slice_get self.now.entries 0 }
    {
        self.history().last()
    }

    /// The namespace as it is now. Takes no memory.
    pub fn tree(&self) -> &Tree
        ensures { result.now ≡ rows_of self.now.opening self.now.entries }
    {
        &self.system.tree
    }

    /// The users as they are now. Takes no memory.
    pub fn users(&self) -> &Users
        ensures { result.now ≡ users_of self.now.entries }
    {
        &self.system.users
    }

    /// Whether permission checking is on now: it is at the opening, and then as the last `permissions` that was done says. Takes no memory.
    pub fn checking(&self) -> bool
        ensures { result ≡ (users_of self.now.entries).checking }
    {
        self.system.users.is_checking()
    }

    /// What is known of blocks and DataNodes now. Takes no memory.
    pub fn blocks(&self) -> &Blocks
        ensures { result.now ≡ blocks_of self.now.opening self.now.entries }
    {
        &self.system.blocks
    }

    /// Every token that was granted, with the place of the entry that granted it, the oldest first. Takes no memory.
    pub fn ledger(&self) -> &Ledger
        ensures { result.now.rows ≡ ledger_of self.now.opening self.now.entries }
    {
        &self.ledger
    }

    /// Answers a request that only looks, on what the history gives. It makes no entry, and the answer's place is the number of
    /// entries. Costs the path, and what is told of what stands there; a summary what stands beneath it.
    ///
    /// # Errors
    /// Out of memory.
    pub fn look(&self, request: &Request) -> Result<Answer, AllocError>
        requires { is_look request.now.op ≡ true }
        ensures { IfOk result (λ answer. Looks self.now request.now answer) }
    {
        let request_copy = request.clone()?;
        let Ok(verdict) = answer_look(
            self.alloc,
            &self.system.tree,
            &self.system.users,
            &request.caller,
            &request.op,
        ) else {
            drop(request_copy);
            return Err(AllocError);
        };
        Ok(Answer {
            place: self.place(),
            request: request_copy,
            verdict,
        })
    }

    /// Does a request where no need fails and nothing refuses it, and moves it into the history with the verdict, whatever that is;
    /// `last` lends both. `pass` and `index` say whose request it is. Costs what the request costs, and never the history.
    ///
    /// # Errors
    /// Out of memory. Nothing has changed then, and there is no entry.
    pub fn append(&mut self, pass: u64, index: u64, request: Request) -> Result<(), AllocError>
        ensures ok { OnOk result (self.new ≡ with_next_entry self.old pass index request) }
        ensures err { OnErr result (self.new ≡ self.old) }
    {
        let clock = self.clock.later(request.moment);
        let Ok(place) = next_place(&mut self.history) else {
            drop(request);
            return Err(AllocError);
        };
        let _root = self.system.tree.root();
        let Ok(verdict) = perform(
            self.alloc,
            &mut self.system,
            &mut self.open_paths,
            &mut self.ledger,
            place,
            &request,
            clock,
        ) else {
            drop(request);
            return Err(AllocError);
        };
        self.clock = clock;
        add_entry(&mut self.history, place, pass, index, request, verdict);
        Ok(())
    }

    /// Does what `append` does, with copies of the request, and answers the request and a copy of the verdict.
    ///
    /// # Errors
    /// Out of memory. Nothing has changed then, and there is no entry.
    pub fn step(&mut self, pass: u64, index: u64, request: &Request) -> Result<Answer, AllocError>
        ensures ok { IfOk result (λ answer. Steps self.old pass index request.now answer self.new) }
        ensures err { OnErr result (self.new ≡ self.old) }
    {
        let now = self.clock.later(request.moment);
        let place = next_place(&mut self.history)?;
        let copies = copies(request)?;
        let _root = self.system.tree.root();
        let Ok(told) = perform_with_copy(
            self.alloc,
            &mut self.system,
            &mut self.open_paths,
            &mut self.ledger,
            place,
            request,
            now,
        ) else {
            drop(copies);
            return Err(AllocError);
        };
        self.clock = now;
        Ok(record(&mut self.history, place, pass, index, copies, told))
    }
}
