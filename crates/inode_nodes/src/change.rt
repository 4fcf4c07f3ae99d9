ghost use Rattle.std.specs.Prelude.{◌≡◌, ◌∷◌, [], ◌++◌, true, false, None, Some, option_map, map, IfOk, OnOk, OnErr, IsTrue};
ghost use Rattle.std.specs.List.Sorted.{IsStrictlySortedBy};
ghost use Rattle.std.specs.Map.{keys_of};
ghost use Rattle.file_paths.specs.Path.{is_prefix};
ghost use Rattle.hdfs_values.specs.Text.{text_cmp};
ghost use Rattle.namespace_rows.specs.Rows.{is_missing, file_above, ancestor};
ghost use Rattle.namespace_rows.specs.Namespace.{has_parent};
ghost use Rattle.flat_rows.specs.Outcome.{kind_of_new, with_new};
ghost use Rattle.namespace_rows.specs.Changes.{without, with_rows_moved, row_rewritten};
ghost use Rattle.inode_nodes.specs.Node.{Top, rows, row_of, under, flatten, with_rows};
ghost use Rattle.inode_nodes.specs.Part.{IsWhole};
ghost use Rattle.inode_nodes.specs.Change.{branch_grafted, holds_parent, chain, changed_top, change_of};
ghost use Rattle.file_table.specs.Place.{placed};

use crate::node::{Held, Node};
use acl_entries::acl::Acl;
use default_acl::inherit::inherit;
use file_paths::name::Name;
use file_table::place::FilePlace;
use hdfs_types::reply::ObjectKind;
use hdfs_values::who::Who;
use permission_bits::mode::Mode;
use std::alloc::{AllocError, Global};
use std::collections::BTreeMap;
use std::mem::swap;

/// What is given to a file or a directory, in the place of what it has.
#[derive(Drop)]
pub enum Given {
    /// This owner and this group.
    Owners(Who, Who),
    /// This access control list.
    List(Acl),
}

impl Node {
    /// Puts a node by its name into the directory at the path.
    ///
    /// # Errors
    /// Out of memory. Nothing has changed then.
    #[cycle(put)]
    pub fn put(&mut self, above: &[Name], name: Name, new: Node) -> Result<(), AllocError>
        requires { IsTrue (has_parent (above.now ++ name ∷ []) (rows self.old)) }
        ensures ok { OnOk result (self.new ≡ with_rows self.old (branch_grafted (above.now ++ name ∷ []) new self.old.beneath)) }
        ensures err { OnErr result (self.new ≡ self.old) }
    {
        match &mut self.held {
            Held::Directory(map) => put_in(map, above, name, new),
            Held::File(_) => unreachable!(),
        }
    }

    /// Puts a node in the place of what stands by this name in the directory at the path.
    #[cycle(fill)]
    pub fn fill(&mut self, above: &[Name], name: &Name, new: Node)
        requires { is_missing (above.now ++ name.now ∷ []) self.old.beneath ≡ false }
        ensures { self.new ≡ with_rows self.old (branch_grafted (above.now ++ name.now ∷ []) new self.old.beneath) }
    {
        match &mut self.held {
            Held::Directory(map) => fill_in(map, above, name, new),
            Held::File(_) => unreachable!(),
        }
    }

    /// Takes out what stands at the path of these names, with all that is beneath it.
    #[cycle(take)]
    pub fn take(&mut self, first: &Name, rest: &[Name]) -> Option<Node>
        ensures whole { IsWhole (first.now ∷ rest.now) self.old.beneath result }
        ensures rows { self.new ≡ with_rows self.old (without (first.now ∷ rest.now) self.old.beneath) }
    {
        match &mut self.held {
            Held::Directory(map) => take_in(map, first, rest),
            Held::File(_) => None,
        }
    }

    /// An empty directory that stands for another node while that is on its way.
    fn stand_in(&self, alloc: Global) -> Result<Node, AllocError>
        ensures { IfOk result (λ node. node.beneath ≡ []) }
    {
        let acl = Acl::from_mode(Mode::root(), ObjectKind::Directory);
        let owner = self.owner().clone()?;
        let group = self.group().clone()?;
        Ok(Node::new(alloc, owner, group, acl, None))
    }

    /// Moves what stands at the path of these names, to stand by a name in the directory at another path. A stand-in is put
    /// there first, since that alone may fail.
    ///
    /// # Errors
    /// Out of memory. Nothing has changed then.
    pub fn move_to(
        &mut self,
        alloc: Global,
        first: &Name,
        rest: &[Name],
        above: &[Name],
        name: &Name,
    ) -> Result<(), AllocError>
        requires there { is_missing (first.now ∷ rest.now) (rows self.old) ≡ false }
        requires parent { IsTrue (has_parent (above.now ++ name.now ∷ []) (rows self.old)) }
        requires beside { is_prefix (first.now ∷ rest.now) (above.now ++ name.now ∷ []) ≡ false }
        requires apart { is_prefix (above.now ++ name.now ∷ []) (first.now ∷ rest.now) ≡ false }
        ensures ok { OnOk result (rows self.new ≡ with_rows_moved (first.now ∷ rest.now) (above.now ++ name.now ∷ []) (rows self.old)) }
        ensures err { OnErr result (self.new ≡ self.old) }
    {
        let own_name = name.clone()?;
        let stand_in = self.stand_in(alloc)?;
        self.put(above, own_name, stand_in)?;
        let Some(moved) = self.take(first, rest) else {
            unreachable!()
        };
        self.fill(above, name, moved);
        Ok(())
    }

    /// Gives the node another part, which is exchanged for what it has.
    #[tactic(auto, using(crate::proofs::Through::unchanged_beneath))]
    fn give(&mut self, given: &mut Given)
        ensures given { self.new ≡ record { top = changed_top (change_of given.old) self.old.top; beneath = self.old.beneath } }
        ensures beneath { row_rewritten [] (change_of given.old) self.old.beneath ≡ self.old.beneath }
    {
        match given {
            Given::Owners(owner, group) => {
                swap(&mut self.owner, owner);
                swap(&mut self.group, group);
            }
            Given::List(acl) => swap(&mut self.acl, acl),
        }
    }

    /// Gives what stands at the path another part.
    pub fn rewrite(&mut self, path: &[Name], mut given: Given)
        ensures { rows self.new ≡ row_rewritten path.now (change_of given) (rows self.old) }
    {
        self.rewrite_by(path, &mut given);
    }

    /// Gives what stands at the path another part. That is large, so it is lent on the way down, and exchanged where it is given.
    #[cycle(rewrite)]
    fn rewrite_by(&mut self, path: &[Name], given: &mut Given)
        ensures { rows self.new ≡ row_rewritten path.now (change_of given.old) (rows self.old) }
    {
        match path.split_first() {
            None => self.give(given),
            Some((first, rest)) => match &mut self.held {
                Held::Directory(map) => rewrite_in(map, first, rest, given),
                Held::File(_) => (),
            },
        }
    }

    /// A new file, or a directory that holds nothing, which inherits from a directory's list.
    fn made(
        alloc: Global,
        mode: Mode,
        file: Option<FilePlace>,
        owner: &Who,
        group: &Who,
        above: &Acl,
    ) -> Result<Node, AllocError>
        ensures { IfOk result (λ node. rows node ≡ chain above.now group.now owner.now mode (option_map placed file) []) }
    {
        let (owner, group) = copied_owners(owner, group)?;
        let acl = inherit(alloc, above, mode, kind_of(&file))?;
        Ok(Node::new(alloc, owner, group, acl, file))
    }

    /// A new directory, and beneath it one for each name, built aside; the last is a file where one is given.
    ///
    /// # Errors
    /// Out of memory.
    pub fn chain(
        alloc: Global,
        names: &[Name],
        mode: Mode,
        file: Option<FilePlace>,
        owner: &Who,
        group: &Who,
        above: &Acl,
    ) -> Result<Node, AllocError>
        ensures { IfOk result (λ node. rows node ≡ chain above.now group.now owner.now mode (option_map placed file) names.now) }
    {
        let Some((first, rest)) = names.split_first() else {
            return Node::made(alloc, mode, file, owner, group, above);
        };
        let acl = inherit(
            alloc,
            above,
            mode.for_missing_parent(),
            ObjectKind::Directory,
        )?;
        let inner = Node::chain(alloc, rest, mode, file, owner, group, &acl)?;
        Node::holding(alloc, first, inner, owner, group, acl)
    }

    /// A new directory that holds a node by a name. It stands apart from `chain`, which keeps what that takes of the stack small.
    fn holding(
        alloc: Global,
        name: &Name,
        inner: Node,
        owner: &Who,
        group: &Who,
        acl: Acl,
    ) -> Result<Node, AllocError>
        ensures { IfOk result (λ node. rows node ≡ row_of [] (record { kind = ObjectKind.Directory; owner = owner.now; group = group.now; acl = acl; file = None }) ∷ map (under name.now) (rows inner)) }
    {
        let map = map_of_one(alloc, name, inner)?;
        new_directory(map, acl, owner, group)
    }

    /// Makes what is missing of the path, all directories but a file that is given for the last, or nothing.
    ///
    /// # Errors
    /// Out of memory. Nothing has changed then.
    #[cycle(make)]
    pub fn make(
        &mut self,
        alloc: Global,
        path: &[Name],
        mode: Mode,
        file: Option<FilePlace>,
        owner: &Who,
    ) -> Result<(), AllocError>
        requires missing { is_missing path.now (rows self.old) ≡ true }
        requires clear { file_above path.now (rows self.old) ≡ None }
        ensures ok { OnOk result (rows self.new ≡ with_new path.now mode (option_map placed file) owner.now (ancestor path.now (rows self.old)) (rows self.old)) }
        ensures err { OnErr result (self.new ≡ self.old) }
    {
        let Some((first, rest)) = path.split_first() else {
            unreachable!()
        };
        match &mut self.held {
            Held::Directory(map) => make_in(
                alloc,
                map,
                first,
                rest,
                mode,
                file,
                owner,
                &self.group,
                &self.acl,
            ),
            Held::File(_) => unreachable!(),
        }
    }
}

/// Copies of an owner and a group.
fn copied_owners(owner: &Who, group: &Who) -> Result<(Who, Who), AllocError>
    ensures owner { IfOk result (λ both. both.0 ≡ owner.now) }
    ensures group { IfOk result (λ both. both.1 ≡ group.now) }
{
    Ok((owner.clone()?, group.clone()?))
}

/// A file where what it has is given, else a directory.
fn kind_of(file: &Option<FilePlace>) -> ObjectKind
    ensures { result ≡ kind_of_new (option_map placed file.now) }
{
    match file {
        Some(_) => ObjectKind::File,
        None => ObjectKind::Directory,
    }
}

/// One node by its name.
fn map_of_one(alloc: Global, name: &Name, inner: Node) -> Result<BTreeMap<Name, Node>, AllocError>
    ensures sorted { IfOk result (λ nodes. IsStrictlySortedBy text_cmp (keys_of nodes.entries)) }
    ensures one { IfOk result (λ nodes. nodes.entries ≡ (name.now, inner) ∷ []) }
{
    let Ok(name) = name.clone() else {
        drop(inner);
        return Err(AllocError);
    };
    let mut nodes = BTreeMap::new(alloc);
    let Ok(before) = nodes.insert(name, inner) else {
        drop(nodes);
        return Err(AllocError);
    };
    drop(before);
    Ok(nodes)
}

/// A directory that holds these nodes.
fn new_directory(
    map: BTreeMap<Name, Node>,
    acl: Acl,
    owner: &Who,
    group: &Who,
) -> Result<Node, AllocError>
    requires { IsStrictlySortedBy text_cmp (keys_of map.entries) }
    ensures { IfOk result (λ node. rows node ≡ row_of [] (record { kind = ObjectKind.Directory; owner = owner.now; group = group.now; acl = acl; file = None }) ∷ flatten map.entries) }
{
    let (owner, group) = copied_owners(owner, group)?;
    Ok(Node {
        owner,
        group,
        acl,
        held: Held::Directory(map),
    })
}

#[cycle(put)]
fn put_in(
    map: &mut BTreeMap<Name, Node>,
    above: &[Name],
    name: Name,
    new: Node,
) -> Result<(), AllocError>
    requires sorted { IsStrictlySortedBy text_cmp (keys_of map.old.entries) }
    requires parent { IsTrue (holds_parent above.now name (flatten map.old.entries)) }
    ensures sorted { IsStrictlySortedBy text_cmp (keys_of map.new.entries) }
    ensures ok { OnOk result (flatten map.new.entries ≡ branch_grafted (above.now ++ name ∷ []) new (flatten map.old.entries)) }
    ensures err { OnErr result (flatten map.new.entries ≡ flatten map.old.entries) }
{
    match above.split_first() {
        None => {
            map.insert(name, new)?;
            Ok(())
        }
        Some((first, rest)) => match map.get_mut(first) {
            Some(child) => child.put(rest, name, new),
            None => unreachable!(),
        },
    }
}

#[cycle(fill)]
fn fill_in(map: &mut BTreeMap<Name, Node>, above: &[Name], name: &Name, new: Node)
    requires sorted { IsStrictlySortedBy text_cmp (keys_of map.old.entries) }
    requires there { is_missing (above.now ++ name.now ∷ []) (flatten map.old.entries) ≡ false }
    ensures sorted { IsStrictlySortedBy text_cmp (keys_of map.new.entries) }
    ensures rows { flatten map.new.entries ≡ branch_grafted (above.now ++ name.now ∷ []) new (flatten map.old.entries) }
{
    match above.split_first() {
        None => match map.get_mut(name) {
            Some(place) => *place = new,
            None => unreachable!(),
        },
        Some((first, rest)) => match map.get_mut(first) {
            Some(child) => child.fill(rest, name, new),
            None => unreachable!(),
        },
    }
}

#[cycle(take)]
fn take_in(map: &mut BTreeMap<Name, Node>, first: &Name, rest: &[Name]) -> Option<Node>
    requires { IsStrictlySortedBy text_cmp (keys_of map.old.entries) }
    ensures whole { IsWhole (first.now ∷ rest.now) (flatten map.old.entries) result }
    ensures sorted { IsStrictlySortedBy text_cmp (keys_of map.new.entries) }
    ensures rows { flatten map.new.entries ≡ without (first.now ∷ rest.now) (flatten map.old.entries) }
{
    match rest.split_first() {
        None => map.remove(first),
        Some((next, more)) => match map.get_mut(first) {
            Some(child) => child.take(next, more),
            None => None,
        },
    }
}

#[cycle(rewrite)]
fn rewrite_in(map: &mut BTreeMap<Name, Node>, first: &Name, rest: &[Name], given: &mut Given)
    requires { IsStrictlySortedBy text_cmp (keys_of map.old.entries) }
    ensures sorted { IsStrictlySortedBy text_cmp (keys_of map.new.entries) }
    ensures rows { flatten map.new.entries ≡ row_rewritten (first.now ∷ rest.now) (change_of given.old) (flatten map.old.entries) }
{
    match map.get_mut(first) {
        Some(child) => child.rewrite_by(rest, given),
        None => (),
    }
}

/// Makes all of a path, in a directory that holds nothing of its first name.
fn make_first(
    alloc: Global,
    map: &mut BTreeMap<Name, Node>,
    first: &Name,
    rest: &[Name],
    mode: Mode,
    file: Option<FilePlace>,
    owner: &Who,
    group: &Who,
    above: &Acl,
) -> Result<(), AllocError>
    requires sorted { IsStrictlySortedBy text_cmp (keys_of map.old.entries) }
    requires missing { is_missing (first.now ∷ []) (flatten map.old.entries) ≡ true }
    ensures sorted { IsStrictlySortedBy text_cmp (keys_of map.new.entries) }
    ensures ok { OnOk result ((top : Top) → top.group ≡ group.now → top.acl ≡ above.now → row_of [] top ∷ flatten map.new.entries ≡ with_new (first.now ∷ rest.now) mode (option_map placed file) owner.now (ancestor (first.now ∷ rest.now) (row_of [] top ∷ flatten map.old.entries)) (row_of [] top ∷ flatten map.old.entries)) }
    ensures err { OnErr result (flatten map.new.entries ≡ flatten map.old.entries) }
{
    let chain = Node::chain(alloc, rest, mode, file, owner, group, above)?;
    map.insert(first.clone()?, chain)?;
    Ok(())
}

#[cycle(make)]
fn make_in(
    alloc: Global,
    map: &mut BTreeMap<Name, Node>,
    first: &Name,
    rest: &[Name],
    mode: Mode,
    file: Option<FilePlace>,
    owner: &Who,
    group: &Who,
    above: &Acl,
) -> Result<(), AllocError>
    requires sorted { IsStrictlySortedBy text_cmp (keys_of map.old.entries) }
    requires missing { is_missing (first.now ∷ rest.now) (flatten map.old.entries) ≡ true }
    requires clear { file_above (first.now ∷ rest.now) (flatten map.old.entries) ≡ None }
    ensures sorted { IsStrictlySortedBy text_cmp (keys_of map.new.entries) }
    ensures ok { OnOk result ((top : Top) → top.group ≡ group.now → top.acl ≡ above.now → row_of [] top ∷ flatten map.new.entries ≡ with_new (first.now ∷ rest.now) mode (option_map placed file) owner.now (ancestor (first.now ∷ rest.now) (row_of [] top ∷ flatten map.old.entries)) (row_of [] top ∷ flatten map.old.entries)) }
    ensures err { OnErr result (flatten map.new.entries ≡ flatten map.old.entries) }
{
    // the last name is missing, so it isn't looked up
    if rest.is_empty() {
        return make_first(alloc, map, first, rest, mode, file, owner, group, above);
    }
    match map.get_mut(first) {
        Some(child) => child.make(alloc, rest, mode, file, owner),
        None => make_first(alloc, map, first, rest, mode, file, owner, group, above),
    }
}
