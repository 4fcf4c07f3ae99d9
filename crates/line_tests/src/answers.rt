use block_answers::located::{AddedBlock, LocatedBlock, OpenedFile};
use block_answers::token_bytes::TokenBytes;
use block_records::node_set::NodeSet;
use flat_rows::verdict::Verdict;
use hdfs_types::reply::{Counter, Refusal, Reply};
use hdfs_values::at_word::AtWord;
use hdfs_values::fault::IllFormed;
use hdfs_values::ids::{BlockId, Stamp};
use node_ids::node_id::NodeId;
use script_text::answer::print_verdict;
use std::alloc::{AllocError, Global};
use std::test::Fail;

/// DataNodes of these ids, of which 0 is none.
fn node_set(alloc: Global, ids: &[u32]) -> Result<NodeSet, AllocError> {
    let mut nodes = Vec::new(alloc);
    for id in ids {
        if let Some(node) = NodeId::new(*id) {
            nodes.push(node)?;
        }
    }
    match NodeSet::from_ascending(nodes) {
        Some(set) => Ok(set),
        None => Ok(NodeSet::new(alloc)),
    }
}

/// A new block, with the token of one byte.
fn added(alloc: Global, block: u64, stamp: u64, ids: &[u32]) -> Result<Reply, AllocError> {
    let targets = node_set(alloc, ids)?;
    let token = TokenBytes::new(b"t".to_vec(alloc)?)?;
    let (block, stamp) = (BlockId::new(block), Stamp::new(stamp));
    Ok(Reply::Added(AddedBlock::new(alloc, block, stamp, targets, token)?))
}

/// A block to be read.
fn located(alloc: Global, numbers: [u64; 3], ids: &[u32]) -> Result<LocatedBlock, AllocError> {
    let [block, stamp, length] = numbers;
    Ok(LocatedBlock {
        block: BlockId::new(block),
        stamp: Stamp::new(stamp),
        length,
        nodes: node_set(alloc, ids)?,
        token: TokenBytes::new(b"t".to_vec(alloc)?)?,
    })
}

/// A file of two blocks.
fn opened(alloc: Global) -> Result<Reply, AllocError> {
    let mut blocks = Vec::new(alloc);
    blocks.push(located(alloc, [3, 1001, 5], &[1, 2, 4294967295])?)?;
    blocks.push(located(alloc, [70, 1009, 700], &[])?)?;
    Ok(Reply::Opened(OpenedFile::new(alloc, 705, blocks)?))
}

/// What is printed of a verdict, where the ledger had so many rows before. It has no clauses, so that no proof of a test computes it.
fn text_of(alloc: Global, rows: usize, verdict: Verdict) -> Result<String, AllocError> {
    let mut text = String::new(alloc);
    let printed = print_verdict(rows, &verdict, &mut text);
    drop(verdict);
    printed?;
    Ok(text)
}

/// Fails where anything else is printed.
fn is_text(text: &str, want: &str) -> Result<(), Fail> {
    if text == want {
        return Ok(());
    }
    Err(Fail::new(format_args!("{text} and not {want}")))
}

/// Fails where anything else is printed of a reply.
fn tells(alloc: Global, rows: usize, reply: Reply, want: &str) -> Result<(), Fail> {
    let text = text_of(alloc, rows, Verdict::Done(reply))?;
    is_text(text.as_str(), want)
}

/// Fails where anything else is printed of a refusal.
fn refuses(alloc: Global, refusal: Refusal, want: &str) -> Result<(), Fail> {
    let text = text_of(alloc, 7, Verdict::Refused(refusal))?;
    is_text(text.as_str(), want)
}

#[test]
fn new_blocks_are_told(rt: HostRuntime) -> Result<(), Fail> {
    let alloc = rt.alloc();
    tells(
        alloc,
        0,
        added(alloc, 1, 1001, &[1])?,
        "ok block 1 1001 targets 1 token #1",
    )?;
    tells(
        alloc,
        9,
        added(alloc, 70, 1234, &[2, 30, 4000000000])?,
        "ok block 70 1234 targets 2,30,4000000000 token #10",
    )?;
    tells(
        alloc,
        1,
        added(alloc, 0, 0, &[])?,
        "ok block 0 0 targets - token #2",
    )
}

#[test]
fn tokens_are_numbered_behind_any_rows(rt: HostRuntime) -> Result<(), Fail> {
    let alloc = rt.alloc();
    tells(
        alloc,
        usize::MAX,
        added(alloc, u64::MAX, u64::MAX, &[1, 2])?,
        "ok block 18446744073709551615 18446744073709551615 targets 1,2 token #18446744073709551616",
    )
}

#[test]
fn files_to_be_read_are_told(rt: HostRuntime) -> Result<(), Fail> {
    let alloc = rt.alloc();
    tells(
        alloc,
        0,
        opened(alloc)?,
        "ok open 705 3:1001:5:1,2,4294967295:#1 70:1009:700:-:#2",
    )?;
    tells(
        alloc,
        98,
        opened(alloc)?,
        "ok open 705 3:1001:5:1,2,4294967295:#99 70:1009:700:-:#100",
    )
}

#[test]
fn files_without_blocks_are_told(rt: HostRuntime) -> Result<(), Fail> {
    let alloc = rt.alloc();
    let none = OpenedFile::new(alloc, 0, Vec::new(alloc))?;
    tells(alloc, 5, Reply::Opened(none), "ok open 0")?;
    tells(alloc, 5, Reply::Closed(12), "ok closed 12")
}

#[test]
fn refusals_of_blocks_are_told(rt: HostRuntime) -> Result<(), Fail> {
    let alloc = rt.alloc();
    refuses(
        alloc,
        Refusal::NotYetReplicated,
        "refused 15 NotYetReplicated",
    )?;
    refuses(alloc, Refusal::TooFewNodes, "refused 16 TooFewNodes")?;
    let newest = Stamp::new(1003);
    refuses(
        alloc,
        Refusal::StaleStamp(newest),
        "refused 17 StaleStamp 1003",
    )?;
    refuses(
        alloc,
        Refusal::Spent(AtWord::of(Counter::BlockId)),
        "refused 18 Spent BlockId",
    )?;
    refuses(
        alloc,
        Refusal::Spent(AtWord::of(Counter::Stamp)),
        "refused 18 Spent Stamp",
    )
}

#[test]
fn ill_formed_lines_are_named(rt: HostRuntime) -> Result<(), Fail> {
    let text = IllFormed::BadLine.to_string(rt.alloc())?;
    is_text(text.as_str(), "0 BadLine")
}
