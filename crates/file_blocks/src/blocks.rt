ghost use Rattle.std.specs.Prelude.{◌≡◌, ℕ, ◌+◌, ◌<◌, false, [], ◌∷◌, ◌++◌, None, IfOk, IfSome, length, map, unwrap_or, slice_set, IsTrue, OnOk, OnErr, MatchOption};
ghost use Rattle.std.specs.Bool.{Decides};
ghost use Rattle.std.specs.List.{list_any};
ghost use Rattle.std.specs.Option.{option_copied};
ghost use Rattle.file_blocks.specs.Blocks as spec;

use hdfs_values::ids::BlockId;
use std::alloc::{AllocError, Global};
use std::marker::Model;
use std::sync::{Arc, OnceLock};

/// A block of a file (HDFS Architecture, "Data Replication").
#[derive(Clone, Copy, PartialEq, Eq)]
pub struct FileBlock {
    pub id: BlockId,
    /// The bytes that it holds, where that is committed.
    pub committed: Option<u64>,
}

impl FileBlock {
    // The bytes that it holds; 0 where that isn't committed.
    fn bytes(&self) -> u64
        ensures { result ≡ unwrap_or self.now.committed 0 }
    {
        self.committed.unwrap_or(0)
    }
}

// The blocks of a file that has had some.
#[derive(Drop)]
struct OwnBlocks {
    list: Vec<FileBlock>,
    // The bytes of those before the last whose length is committed; `None` where their sum doesn't fit in 64 bits.
    front_bytes: Option<u64>,
    // The list as it was shown, which is forgotten when it changes.
    shown: OnceLock<Arc<Vec<FileBlock>>>,
}

impl Model for OwnBlocks {
    ghost use Rattle.std.specs.Prelude.{List};
    ghost use Rattle.file_blocks.specs.declared.blocks.FileBlock.{FileBlock};

    ghost Value = { List FileBlock };

    ghost view = { λ own. own.list.items };

    ghost use Rattle.std.specs.Prelude.{◌≡◌};
    ghost use Rattle.file_blocks.specs.Blocks.{but_last, length_of, told_length};

    ghost invariant = { λ own. own.front_bytes ≡ told_length (length_of (but_last own.list.items)) };
}

impl OwnBlocks {
    // A first block.
    fn first(alloc: Global, id: BlockId) -> Result<OwnBlocks, AllocError>
        ensures { IfOk result (λ own. own ≡ spec.new_block id ∷ []) }
    {
        let mut list = Vec::with_capacity(alloc, 1)?;
        list.push_reserved(new_block(id));
        Ok(OwnBlocks {
            list,
            front_bytes: Some(0),
            shown: OnceLock::new(),
        })
    }

    fn as_slice(&self) -> &[FileBlock]
        ensures { result.now ≡ self.now }
    {
        &self.list
    }

    #[tactic(auto, using(crate::proofs::Lengths::length_split))]
    fn bytes(&self) -> Option<u64>
        ensures { result ≡ spec.told_length (spec.length_of self.now) }
    {
        match self.list.last() {
            Some(last) => with_more(self.front_bytes, last.bytes()),
            None => Some(0),
        }
    }

    // The bytes, once those of the last block are so many.
    fn bytes_behind_last(&self, bytes: u64) -> Option<u64>
        ensures { result ≡ spec.told_length (spec.length_of (spec.but_last self.now) + bytes) }
    {
        with_more(self.front_bytes, bytes)
    }

    #[tactic(auto, using(crate::proofs::Lengths::all_but_new))]
    fn push(&mut self, id: BlockId) -> Result<(), AllocError>
        ensures ok { OnOk result (self.new ≡ self.old ++ spec.new_block id ∷ []) }
        ensures err { OnErr result (self.new ≡ self.old) }
    {
        let bytes = self.bytes();
        self.list.push(new_block(id))?;
        self.front_bytes = bytes;
        self.forget_shown();
        Ok(())
    }

    fn pop(&mut self)
        ensures { self.new ≡ spec.but_last self.old }
    {
        let _last = self.list.pop();
        self.front_bytes = front_length_of(&self.list);
        self.forget_shown();
    }

    // Forgets the list that was shown, since the blocks change. Who was shown it keeps it.
    fn forget_shown(&mut self)
        ensures { self.new ≡ self.old }
    {
        let _shown = self.shown.take();
    }

    // Puts a block in the place of one. Costs the blocks where one that isn't the last gets another length in the place of one.
    #[tactic(auto, using(crate::proofs::Lengths::front_stays))]
    fn replace(&mut self, place: usize, block: FileBlock)
        requires { place < length self.old }
        ensures { self.new ≡ slice_set self.old place block }
    {
        if is_same_block(&self.list[place], &block) {
            return;
        }
        let _shown = self.shown.take();
        let before = self.list[place].committed;
        self.list[place] = block;
        if place + 1 == self.list.len() {
            return;
        }
        let None = before else {
            self.front_bytes = front_length_of(&self.list);
            return;
        };
        self.front_bytes = with_more(self.front_bytes, block.bytes());
    }

    fn commit(&mut self, id: BlockId, bytes: u64)
        ensures last { self.new ≡ spec.committed_in id bytes self.old }
        ensures each { IsTrue (spec.are_distinct self.old) → self.new ≡ map (λ block. spec.with_length_where (spec.has_id id block) bytes block) self.old }
    {
        if let Some(place) = place_of(&self.list, id) {
            let block = FileBlock {
                id,
                committed: Some(bytes),
            };
            self.replace(place, block);
        }
    }

    // The list that was shown, where one is remembered, else a copy.
    fn list_of(&self, alloc: Global) -> Result<Arc<Vec<FileBlock>>, AllocError>
        ensures { IfOk result (λ list. list.value.items ≡ self.now) }
    {
        match shared_with(self.shown.get(), &self.list)? {
            Some(list) => Ok(list),
            None => Ok(Arc::new(alloc, self.list.clone()?)?),
        }
    }

    // The same, which is remembered.
    fn list_shown(&self, alloc: Global) -> Result<Arc<Vec<FileBlock>>, AllocError>
        ensures { IfOk result (λ list. list.value.items ≡ self.now) }
    {
        let list = self.list_of(alloc)?;
        let _remembered = self.shown.try_set(list.clone()?);
        Ok(list)
    }
}

// A block that is begun.
fn new_block(id: BlockId) -> FileBlock
    ensures { result ≡ spec.new_block id }
{
    FileBlock {
        id,
        committed: None,
    }
}

/// The blocks of a file, in the order of the file.
pub struct FileBlocks {
    // In memory of their own, which a file takes with its first block: so what a directory has is no larger for them.
    own: Option<Box<OwnBlocks>>,
    alloc: Global,
}

impl Drop for FileBlocks {
    fn drop(self) {
        let FileBlocks { own, alloc: _ } = self;
        drop(own);
    }
}

impl Model for FileBlocks {
    ghost use Rattle.std.specs.Prelude.{List, [], unwrap_or};
    ghost use Rattle.std.specs.Option.{option_map};
    ghost use Rattle.file_blocks.specs.declared.blocks.FileBlock.{FileBlock};

    ghost Value = { List FileBlock };

    ghost view = { λ blocks. unwrap_or (option_map (λ own. own.value) blocks.own) [] };
}

impl FileBlocks {
    /// No blocks. Takes no memory.
    pub fn new(alloc: Global) -> FileBlocks
        ensures { result ≡ [] }
    {
        FileBlocks { own: None, alloc }
    }

    /// The blocks in the order of the file.
    pub fn as_slice(&self) -> &[FileBlock]
        ensures { result.now ≡ self.now }
    {
        match &self.own {
            Some(own) => own.as_slice(),
            None => &[],
        }
    }

    /// The bytes of the blocks whose length is committed; `None` where their sum doesn't fit in 64 bits. Takes no memory.
    pub fn length(&self) -> Option<u64>
        ensures { result ≡ spec.told_length (spec.length_of self.now) }
    {
        match &self.own {
            Some(own) => own.bytes(),
            None => Some(0),
        }
    }

    /// The bytes of the blocks whose length is committed, once that of the last block is this one; `None` where their sum doesn't fit in
    /// 64 bits. Takes no memory.
    pub fn length_behind_last(&self, bytes: u64) -> Option<u64>
        ensures { result ≡ spec.told_length (spec.length_of (spec.but_last self.now) + bytes) }
    {
        match &self.own {
            Some(own) => own.bytes_behind_last(bytes),
            None => Some(bytes),
        }
    }

    /// The last block, where its length isn't committed.
    pub fn unfinished(&self) -> Option<BlockId>
        ensures { result ≡ spec.unfinished_block self.now }
    {
        unfinished_of(self.as_slice())
    }

    /// The last block.
    pub fn last(&self) -> Option<&FileBlock>
        ensures { option_copied result ≡ spec.last_of self.now }
    {
        self.as_slice().last()
    }

    /// The blocks as they are, to be kept. Where they were shown and haven't changed since, they are shared, which costs a look at each and
    /// takes no memory; else they are copied, and remembered.
    ///
    /// # Errors
    /// Out of memory.
    pub fn to_shown(&self) -> Result<ShownBlocks, AllocError>
        ensures { IfOk result (λ shown. shown ≡ self.now) }
    {
        match &self.own {
            Some(own) => Ok(ShownBlocks {
                list: Some(own.list_shown(self.alloc)?),
            }),
            None => Ok(ShownBlocks { list: None }),
        }
    }

    /// The same, but a copy isn't remembered. Costs the blocks.
    ///
    /// # Errors
    /// Out of memory.
    pub fn to_copied(&self) -> Result<ShownBlocks, AllocError>
        ensures { IfOk result (λ shown. shown ≡ self.now) }
    {
        match &self.own {
            Some(own) => Ok(ShownBlocks {
                list: Some(own.list_of(self.alloc)?),
            }),
            None => Ok(ShownBlocks { list: None }),
        }
    }

    /// Adds a block at the end, whose length isn't committed. The cost is constant, taken over many calls.
    ///
    /// # Errors
    /// Out of memory, and nothing has changed.
    pub fn push(&mut self, id: BlockId) -> Result<(), AllocError>
        ensures ok { OnOk result (self.new ≡ self.old ++ spec.new_block id ∷ []) }
        ensures err { OnErr result (self.new ≡ self.old) }
    {
        if let Some(own) = &mut self.own {
            return own.push(id);
        }
        let first = OwnBlocks::first(self.alloc, id)?;
        self.own = Some(Box::new(self.alloc, first)?);
        Ok(())
    }

    /// Takes the last block out, where there is one. Costs the blocks, and takes no memory.
    pub fn pop(&mut self)
        ensures { self.new ≡ spec.but_last self.old }
    {
        if let Some(own) = &mut self.own {
            own.pop();
        }
    }

    /// Commits the length of the block with this id, where it is there. Costs the blocks from that on to the end, since it is nearly always
    /// one of the last two, and all where another length of one before the last takes the place of one; takes no memory.
    pub fn commit(&mut self, id: BlockId, bytes: u64)
        ensures last { self.new ≡ spec.committed_in id bytes self.old }
        ensures each { IsTrue (spec.are_distinct self.old) → self.new ≡ map (λ block. spec.with_length_where (spec.has_id id block) bytes block) self.old }
    {
        if let Some(own) = &mut self.own {
            own.commit(id, bytes);
        }
    }
}

/// The last block, where its length isn't committed.
fn unfinished_of(blocks: &[FileBlock]) -> Option<BlockId>
    ensures { result ≡ spec.unfinished_block blocks.now }
{
    let last = blocks.last()?;
    if last.committed.is_some() {
        return None;
    }
    Some(last.id)
}

fn is_same_block(block: &FileBlock, other: &FileBlock) -> bool
    ensures { Decides result (block.now ≡ other.now) }
{
    block.id == other.id && block.committed == other.committed
}

/// Whether two lists of blocks are one. Takes no memory.
pub fn are_same_blocks(blocks: &[FileBlock], others: &[FileBlock]) -> bool
    ensures { Decides result (blocks.now ≡ others.now) }
{
    if blocks.len() != others.len() {
        return false;
    }
    for i in 0..blocks.len() {
        if !is_same_block(&blocks[i], &others[i]) {
            return false;
        }
    }
    true
}

/// The list that was shown, shared once more, if one is remembered and has these blocks.
fn shared_with(
    shown: Option<&Arc<Vec<FileBlock>>>,
    blocks: &[FileBlock],
) -> Result<Option<Arc<Vec<FileBlock>>>, AllocError>
    ensures { IfOk result (λ found. IfSome found (λ list. list.value.items ≡ blocks.now)) }
{
    let Some(shown) = shown else {
        return Ok(None);
    };
    if !are_same_blocks(shown, blocks) {
        return Ok(None);
    }
    Ok(Some(shown.clone()?))
}

/// The place of the last block with this id.
fn place_of(blocks: &[FileBlock], id: BlockId) -> Option<usize>
    ensures { MatchOption result (list_any (spec.has_id id) blocks.now ≡ false) (spec.IsLastPlace id blocks.now) }
{
    let mut left = blocks.len();
    while left > 0 {
        left -= 1;
        if blocks[left].id == id {
            return Some(left);
        }
    }
    None
}

#[tactic(auto, using(crate::proofs::Lengths::length_behind, crate::proofs::Lengths::told))]
fn length_of(blocks: &[FileBlock]) -> Option<u64>
    ensures { result ≡ spec.told_length (spec.length_of blocks.now) }
{
    let mut length = 0u64;
    for block in blocks {
        if let Some(committed) = block.committed {
            length = length.checked_add(committed)?;
        }
    }
    Some(length)
}

/// The same of all but the last.
fn front_length_of(blocks: &[FileBlock]) -> Option<u64>
    ensures { result ≡ spec.told_length (spec.length_of (spec.but_last blocks.now)) }
{
    match blocks.split_last() {
        Some((_, front)) => length_of(front),
        None => Some(0),
    }
}

/// A length and so many bytes more.
fn with_more(length: Option<u64>, bytes: u64) -> Option<u64>
    ensures { (own : ℕ) → length ≡ spec.told_length own → result ≡ spec.told_length (own + bytes) }
{
    length?.checked_add(bytes)
}

/// The blocks of a file as they were when they were shown, in the order of the file. Copies of it share them.
pub struct ShownBlocks {
    list: Option<Arc<Vec<FileBlock>>>,
}

impl Drop for ShownBlocks {
    fn drop(self) {
        let ShownBlocks { list } = self;
        drop(list);
    }
}

impl Model for ShownBlocks {
    ghost use Rattle.std.specs.Prelude.{List, [], unwrap_or};
    ghost use Rattle.std.specs.Option.{option_map};
    ghost use Rattle.file_blocks.specs.declared.blocks.FileBlock.{FileBlock};

    ghost Value = { List FileBlock };

    ghost view = { λ shown. unwrap_or (option_map (λ list. list.value.items) shown.list) [] };
}

impl ShownBlocks {
    /// The blocks in the order of the file.
    pub fn as_slice(&self) -> &[FileBlock]
        ensures { result.now ≡ self.now }
    {
        match &self.list {
            Some(list) => list.as_slice(),
            None => &[],
        }
    }

    /// The last block, where its length isn't committed.
    pub fn unfinished(&self) -> Option<BlockId>
        ensures { result ≡ spec.unfinished_block self.now }
    {
        unfinished_of(self.as_slice())
    }
}

impl Clone for ShownBlocks {
    ghost is_clone = { λ shown copy. copy ≡ shown };

    fn clone(&self) -> Result<ShownBlocks, AllocError> {
        match &self.list {
            Some(list) => Ok(ShownBlocks {
                list: Some(list.clone()?),
            }),
            None => Ok(ShownBlocks { list: None }),
        }
    }
}
