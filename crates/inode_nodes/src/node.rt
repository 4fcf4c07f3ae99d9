ghost use Rattle.std.specs.Prelude.{◌≡◌, [], true, None, IfSome};
ghost use Rattle.std.specs.Option.{option_copied, option_map};
ghost use Rattle.acl_entries.specs.JudgedEntry.{judged_entry};
ghost use Rattle.flat_rows.specs.Outcome.{is_alone, kind_of_new};
ghost use Rattle.inode_nodes.specs.Node.{rows};
ghost use Rattle.file_table.specs.Place.{placed};
ghost use Rattle.inode_nodes.specs.Part.{IsPart, IsWhole};

use acl_entries::access_check::is_granted;
use acl_entries::acl::Acl;
use file_paths::name::Name;
use file_table::place::FilePlace;
use hdfs_types::reply::ObjectKind;
use hdfs_values::who::Who;
use permission_bits::rights::Rights;
use std::alloc::Global;
use std::collections::BTreeMap;
use std::marker::Model;

/// A file, or a directory with what it holds.
#[cycle(node)]
#[derive(Drop)]
pub struct Node {
    pub owner: Who,
    pub group: Who,
    pub acl: Acl,
    pub held: Held,
}

/// What makes a node a file or a directory.
#[cycle(node)]
#[derive(Drop)]
pub enum Held {
    /// A file, whose replication, blocks and state a table of files has.
    File(FilePlace),
    /// A directory, with what it holds by names.
    Directory(BTreeMap<Name, Node>),
}

impl Model for Node {
    ghost use Rattle.inode_nodes.specs.Node.{Node};

    ghost Value = { Node };

    ghost use Rattle.std.specs.Prelude.{length};
    ghost use Rattle.inode_nodes.specs.Kept.{branch_of, IsSorted};

    ghost view = { branch_of };

    ghost invariant = { λ node. IsSorted node.held };

    ghost size = { λ branch. length branch.beneath };

    ghost use Rattle.inode_nodes.specs.Falls.{falls};

    ghost size_decreases = { λ node sorted. falls node.held };
}

impl Node {
    /// A file, or a directory that holds nothing.
    pub fn new(alloc: Global, owner: Who, group: Who, acl: Acl, file: Option<FilePlace>) -> Node
        ensures { result ≡ record { top = record { kind = kind_of_new (option_map placed file); owner = owner; group = group; acl = acl; file = option_map placed file }; beneath = [] } }
    {
        let held = match file {
            Some(place) => Held::File(place),
            None => Held::Directory(BTreeMap::new(alloc)),
        };
        Node {
            owner,
            group,
            acl,
            held,
        }
    }

    /// Whether it is a file or a directory.
    pub fn kind(&self) -> ObjectKind
        ensures { result ≡ self.now.top.kind }
    {
        match &self.held {
            Held::File(_) => ObjectKind::File,
            Held::Directory(_) => ObjectKind::Directory,
        }
    }

    /// The owner.
    pub fn owner(&self) -> &Who
        ensures { result.now ≡ self.now.top.owner }
    {
        &self.owner
    }

    /// The owning group.
    pub fn group(&self) -> &Who
        ensures { result.now ≡ self.now.top.group }
    {
        &self.group
    }

    /// The access control list.
    pub fn acl(&self) -> &Acl
        ensures { result.now ≡ self.now.top.acl }
    {
        &self.acl
    }

    /// The place of what a file has.
    pub fn place(&self) -> Option<FilePlace>
        ensures { option_map placed result ≡ self.now.top.file }
    {
        match &self.held {
            Held::File(place) => Some(*place),
            Held::Directory(_) => None,
        }
    }

    /// Whether it is a directory that holds nothing, as most are.
    pub fn is_bare(&self) -> bool
        ensures file { result ≡ true → self.now.top.file ≡ None }
        ensures kind { result ≡ true → self.now.top.kind ≡ ObjectKind.Directory }
        ensures beneath { result ≡ true → self.now.beneath ≡ [] }
        ensures told { self.now.top.kind ≡ ObjectKind.Directory → result ≡ is_alone (rows self.now) }
    {
        match &self.held {
            Held::File(_) => false,
            Held::Directory(map) => map.is_empty(),
        }
    }

    /// Whether the entry that decides for a caller with these groups grants what is needed.
    pub fn grants(&self, caller: &Who, groups: &[Who], need: Rights) -> bool
        ensures { result ≡ (judged_entry self.now.top.owner self.now.top.group self.now.top.acl caller.now groups.now need).granted }
    {
        is_granted(&self.owner, &self.group, &self.acl, caller, groups, need)
    }

    /// What the directory holds by this name.
    pub fn child(&self, name: &Name) -> Option<&Node>
        ensures part { IsPart name.now self.now.beneath (option_copied result) }
        ensures directory { IfSome result (λ _. self.now.top.kind ≡ ObjectKind.Directory) }
    {
        match &self.held {
            Held::File(_) => None,
            Held::Directory(map) => map.get(name),
        }
    }

    /// Whether nothing is beneath.
    pub fn is_alone(&self) -> bool
        ensures { result ≡ is_alone (rows self.now) }
    {
        match &self.held {
            Held::File(_) => true,
            Held::Directory(map) => map.is_empty(),
        }
    }

    /// What stands at the path. Costs a look-up for each of its names.
    pub fn find(&self, path: &[Name]) -> Option<&Node>
        ensures { IsWhole path.now (rows self.now) (option_copied result) }
    {
        let mut node = self;
        for name in path {
            match node.child(name) {
                Some(child) => node = child,
                None => return None,
            }
        }
        Some(node)
    }
}
