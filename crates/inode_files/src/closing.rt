ghost use Rattle.std.specs.Prelude.{◌≡◌, ◌+◌, ◌^◌, ◌<◌, ◌≤◌, ℕ, List, length, if◌then◌else◌, IfSome};
ghost use Rattle.std.specs.Option.{option_map};
ghost use Rattle.slab.specs.Slab.{get};
ghost use Rattle.namespace_rows.specs.declared.row.Row.{Row};
ghost use Rattle.file_table.specs.Finished.{closed_for, finished_files, is_finished_of, with_finished_closed};
ghost use Rattle.file_table.specs.Kept.{AreKept, are_at_place};
ghost use Rattle.file_table.specs.Seen.{seen_rows};
ghost use Rattle.inode_nodes.specs.Node.{rows, flatten};

use crate::nodes::Nodes;
use file_paths::name::Name;
use file_table::place::FilePlace;
use file_table::table::{FileTable, is_finished};
use hdfs_values::who::Who;
use inode_nodes::node::{Held, Node};
use std::collections::BTreeMap;

/// How many of the files at these places a client has open, whose last block isn't unfinished; `None` where the places don't ascend. Costs these
/// places, and takes no memory.
pub fn count_finished(files: &FileTable, client: &Who, places: &[FilePlace]) -> Option<u64>
    ensures { (rows : List Row) → AreKept files.now rows → IfSome result (λ count. count ≤ length (finished_files client.now (seen_rows files.now rows))) }
{
    let mut count: u64 = 0;
    // The least key that may come next.
    let mut least: usize = 0;
    for place in places {
        let key = place.key();
        if key < least {
            return None;
        }
        least = key.checked_add(1)?;
        if is_finished_at(files, client, *place) {
            count += 1;
        }
    }
    Some(count)
}

/// Whether a client has the file at a place open, and its last block isn't unfinished.
fn is_finished_at(files: &FileTable, client: &Who, place: FilePlace) -> bool
    ensures { result ≡ is_finished_of client.now (get files.now place) }
{
    match files.get(place) {
        Some(file) => is_finished(file, client),
        None => false,
    }
}

/// Closes the files at these places that a client has open and whose last block isn't unfinished, and tells how many. Costs these places, and
/// takes no memory.
pub fn close_at(files: &mut FileTable, client: &Who, places: &[FilePlace]) -> u64
    ensures kept { (rows : List Row) → AreKept files.old rows → AreKept files.new rows }
    ensures closed { (rows : List Row) → AreKept files.old rows → with_finished_closed client.now (seen_rows files.new rows) ≡ with_finished_closed client.now (seen_rows files.old rows) }
    ensures count { (rows : List Row) → AreKept files.old rows → result + length (finished_files client.now (seen_rows files.new rows)) ≡ length (finished_files client.now (seen_rows files.old rows)) }
{
    let mut closed: u64 = 0;
    for place in places {
        if files.close_finished(*place, client) {
            closed += 1;
        }
    }
    closed
}

/// Closes all files of the node and of all beneath it that a client has open and whose last block isn't unfinished, and tells how many, where
/// fewer than 2^64 are so. Takes no memory.
#[cycle(close)]
pub fn close_beneath(files: &mut FileTable, client: &Who, node: &Node) -> u64
    ensures closed { (place : ℕ) → get files.new place ≡ (if are_at_place place (rows node.now) then option_map (closed_for client.now) (get files.old place) else get files.old place) }
    ensures count { (all : List Row) → AreKept files.old all → length (finished_files client.now (seen_rows files.old all)) < 2 ^ 64 → result + length (finished_files client.now (seen_rows files.new all)) ≡ length (finished_files client.now (seen_rows files.old all)) }
{
    match &node.held {
        Held::File(place) => u64::from(files.close_finished(*place, client)),
        Held::Directory(nodes) => {
            // Most directories hold nothing, and are told at once.
            if nodes.is_empty() {
                return 0;
            }
            close_beneath_in(files, client, nodes)
        }
    }
}

#[cycle(close)]
fn close_beneath_in(files: &mut FileTable, client: &Who, nodes: &BTreeMap<Name, Node>) -> u64
    ensures closed { (place : ℕ) → get files.new place ≡ (if are_at_place place (flatten nodes.now.entries) then option_map (closed_for client.now) (get files.old place) else get files.old place) }
    ensures count { (all : List Row) → AreKept files.old all → length (finished_files client.now (seen_rows files.old all)) < 2 ^ 64 → result + length (finished_files client.now (seen_rows files.new all)) ≡ length (finished_files client.now (seen_rows files.old all)) }
{
    let mut closed: u64 = 0;
    for (_name, child) in nodes {
        closed = closed.saturating_add(close_beneath(files, client, child));
    }
    closed
}

impl Nodes {
    /// How many of the files at these places a client has open, whose last block isn't unfinished; `None` where the places don't ascend. Costs these
    /// places, and takes no memory.
    pub fn count_finished(&self, client: &Who, places: &[FilePlace]) -> Option<u64>
        ensures { IfSome result (λ count. count ≤ length (finished_files client.now self.now)) }
    {
        count_finished(&self.files, client, places)
    }

    /// Closes all files that a client has open and whose last block isn't unfinished, and tells how many, where there are at most so many. Costs
    /// these places; the whole tree where some of the files aren't at them. Takes no memory.
    pub fn close_finished(&mut self, client: &Who, places: &[FilePlace], number: u64) -> u64
        ensures all { length (finished_files client.now self.old) ≤ number → self.new ≡ with_finished_closed client.now self.old }
        ensures no_other { with_finished_closed client.now self.new ≡ with_finished_closed client.now self.old }
        ensures count { length (finished_files client.now self.old) ≤ number → result ≡ length (finished_files client.now self.old) }
    {
        let closed = close_at(&mut self.files, client, places);
        if closed < number {
            closed.saturating_add(close_beneath(&mut self.files, client, &self.root))
        } else {
            closed
        }
    }
}
