ghost use Rattle.std.specs.Prelude.{◌≡◌, ℕ, List, ◌≤◌, ◌<◌, true, false, get_or, IfOk, IfSome, length, take, [], ◌∷◌, Some, None, if◌then◌else◌, MatchOption};
ghost use Rattle.std.specs.Bool.{Decides};
ghost use Rattle.std.specs.List.{list_all, position_or_len, slice_split};
ghost use Rattle.hdfs_values.specs.Parsed.{Parses};
ghost use Rattle.file_paths.specs.Marks.{marks_of};
ghost use Rattle.file_paths.specs.Name.{is_name, is_name_byte};
ghost use Rattle.file_paths.specs.Path.{IsPath, IsRelative, is_slash, path_of, path_text, parent_of};
ghost use Rattle.file_paths.specs.Path as spec;
ghost use Rattle.file_paths.specs.PathOrder.{path_cmp, same_path, paths_total};
ghost use Rattle.std.proofs.Common.{rules};
ghost use Rattle.std.specs.Cmp.{partial_order_from_agreeing_total};
ghost use Rattle.std.specs.Cmp.Rules.{comparing};
ghost use Rattle.std.specs.Ordering.{as_partial_cmp};

use crate::marks::{HALF_LANES, MOST_MARKED, first_marked, marks_in};
use crate::name::{Name, is_name_byte, makes_name};
use hdfs_values::fault::{IllFormed, ParseFault};
use std::alloc::{AllocError, Global};
use std::cmp::Ordering;
use std::fmt;
use std::marker::Model;

/// An absolute path: the names from the root down, at most 1,000 of them, and at most 8,000 bytes as a text (HDFS
/// Architecture, "The File System Namespace"). Paths are ordered by component, and each component by its bytes, so
/// `/a/c` stands before `/a-b`.
#[derive(Drop)]
pub struct Path {
    names: Vec<Name>,
}

impl Model for Path {
    ghost use Rattle.std.specs.Prelude.{List, ℕ};
    ghost use Rattle.file_paths.specs.Path.{IsPath};

    ghost Value = { List (List ℕ) };

    ghost view = { λ path. path.names.items };

    ghost invariant = { λ path. IsPath path.names.items };
}

const NO_PATH: ParseFault = ParseFault::IllFormed(IllFormed::BadPath);

/// What stands behind the slash that an absolute path begins with.
fn behind_slash(text: &str) -> Option<&str>
    ensures { MatchOption result (IsRelative text.now) (λ rest. text.now ≡ 47 ∷ rest.now) }
{
    text.strip_prefix('/')
}

/// Where a slash first stands; the length where none does. Names are short, so that a look at each byte takes less than a search of
/// many at once.
fn slash_at(bytes: &[u8]) -> usize
    ensures place { result ≡ position_or_len is_slash bytes.now }
    ensures bound { result ≤ length bytes.now }
{
    let mut at = 0;
    while at < bytes.len() && bytes[at] != b'/' {
        at += 1;
    }
    at
}

/// What stands before the first slash, and what stands behind it. Costs what stands before.
#[inline(always)]
fn cut_text(text: &str) -> Option<(&str, &str)>
    ensures pieces { MatchOption result (slice_split is_slash text.now ≡ text.now ∷ [])
        (λ cut. slice_split is_slash text.now ≡ cut.0.now ∷ slice_split is_slash cut.1.now) }
    ensures shorter { IfSome result (λ cut. length cut.1.now < length text.now) }
{
    let at = slash_at(text.as_bytes());
    if at == text.len() {
        return None;
    }
    Some((&text[..at], &text[at + 1..]))
}

/// Where the first byte stands that no name has; the length where all are of names.
fn name_end(bytes: &[u8]) -> usize
    ensures names { (k : ℕ) → k < result → is_name_byte (get_or bytes.now k 0) ≡ true }
    ensures end { result < length bytes.now → is_name_byte (get_or bytes.now result 0) ≡ false }
    ensures bound { result ≤ length bytes.now }
{
    let mut at = 0;
    while at < bytes.len() && is_name_byte(bytes[at]) {
        at += 1;
    }
    at
}

/// How long the name is that stands before the first slash; `None` where a piece between slashes is no name. Looks at each byte of the
/// name once.
#[inline(always)]
fn first_name(bytes: &[u8]) -> Option<usize>
    ensures name { MatchOption result (list_all is_name (slice_split is_slash bytes.now) ≡ false)
        (λ end. (end ≡ position_or_len is_slash bytes.now) × (is_name (take end bytes.now) ≡ true)) }
    ensures bound { IfSome result (λ end. end ≤ length bytes.now) }
{
    let end = name_end(bytes);
    if end < bytes.len() && bytes[end] != b'/' {
        return None;
    }
    if makes_name(&bytes[..end]) {
        Some(end)
    } else {
        None
    }
}

/// How many names stand between the slashes of a text; `None` where a piece is no name. Takes no memory.
fn name_count(text: &[u8]) -> Option<usize>
    ensures { result ≡ (if list_all is_name (slice_split is_slash text.now) then Some (length (slice_split is_slash text.now)) else None) }
{
    let mut rest = text;
    let mut count = 1;
    while let Some(end) = first_name(rest) {
        if end == rest.len() {
            return Some(count);
        }
        rest = &rest[end + 1..];
        count += 1;
    }
    None
}

/// How many names a path other than the root has whose text is a slash with `rest` behind it; `None` where that is the text of none.
/// Takes no memory.
fn depth_of(text: &str, rest: &str) -> Option<usize>
    requires { text.now ≡ 47 ∷ rest.now }
    ensures { result ≡ (if spec.is_path (slice_split is_slash rest.now) then Some (length (slice_split is_slash rest.now)) else None) }
{
    if text.len() > Path::MAX_BYTES {
        return None;
    }
    let Some(count) = name_count(rest.as_bytes()) else {
        return None;
    };
    if count > Path::MAX_NAMES {
        return None;
    }
    Some(count)
}

/// The names between the slashes of a text, which are so many.
fn names_in(alloc: Global, text: &str, count: usize) -> Result<Vec<Name>, AllocError>
    requires { list_all is_name (slice_split is_slash text.now) ≡ true }
    ensures { IfOk result (λ names. names.items ≡ slice_split is_slash text.now) }
{
    let mut names = Vec::with_capacity(alloc, count)?;
    let mut rest = text;
    while let Some((piece, behind)) = cut_text(rest) {
        names.push(Name::copied(alloc, piece)?)?;
        rest = behind;
    }
    names.push(Name::copied(alloc, rest)?)?;
    Ok(names)
}

/// The names between the slashes of a text, of which the marks of its bytes tell; `None` where a piece is no name. There is memory for as
/// many as there are marks, each of which is a slash in the text of a path. Looks at a text once.
///
/// # Errors
/// Out of memory, which may stand in place of `None`.
fn marked_names(alloc: Global, text: &str, marks: u64) -> Result<Option<Vec<Name>>, AllocError>
    requires marks { marks ≡ marks_of text.now }
    requires most { length text.now ≤ 64 }
    ensures { IfOk result (λ found. MatchOption found (list_all is_name (slice_split is_slash text.now) ≡ false)
        (λ names. (list_all is_name (slice_split is_slash text.now) ≡ true) × (names.items ≡ slice_split is_slash text.now))) }
{
    let mut names = Vec::with_capacity(alloc, marks.count_ones() as usize + 1)?;
    let mut stops = marks;
    let mut rest = text;
    while stops != 0 {
        let Some(end) = first_marked(rest.as_bytes(), stops) else {
            return Ok(None);
        };
        let Some(name) = Name::spelled(alloc, &rest[..end])? else {
            return Ok(None);
        };
        names.push(name)?;
        rest = &rest[end + 1..];
        stops = (stops >> end) >> 1;
    }
    let Some(name) = Name::spelled(alloc, rest)? else {
        return Ok(None);
    };
    names.push(name)?;
    Ok(Some(names))
}

/// What the reading of a text answers where memory ran out before the text was judged: it is judged here.
#[cold]
fn out_of_memory(text: &str, rest: &str) -> Result<Path, ParseFault>
    requires behind { text.now ≡ 47 ∷ rest.now }
    requires some { 0 < length rest.now }
    ensures { Parses IllFormed.BadPath result (path_of text.now) }
{
    match depth_of(text, rest) {
        Some(_) => Err(ParseFault::OutOfMemory),
        None => Err(NO_PATH),
    }
}

/// Reads a path other than the root whose text is a slash with `rest` behind it, of at most 64 bytes and at least one load, by marks.
#[inline(always)]
fn parse_marked(alloc: Global, text: &str, rest: &str) -> Result<Path, ParseFault>
    requires behind { text.now ≡ 47 ∷ rest.now }
    requires least { 8 ≤ length rest.now }
    requires most { length rest.now ≤ 64 }
    ensures { Parses IllFormed.BadPath result (path_of text.now) }
{
    match marked_names(alloc, rest, marks_in(rest.as_bytes())) {
        Ok(Some(names)) => Ok(Path { names }),
        Ok(None) => Err(NO_PATH),
        Err(_) => out_of_memory(text, rest),
    }
}

/// Reads a path other than the root whose text is a slash with `rest` behind it, byte by byte: first it is judged, then copied.
fn parse_by_byte(alloc: Global, text: &str, rest: &str) -> Result<Path, ParseFault>
    requires behind { text.now ≡ 47 ∷ rest.now }
    requires some { 0 < length rest.now }
    ensures { Parses IllFormed.BadPath result (path_of text.now) }
{
    let Some(depth) = depth_of(text, rest) else {
        return Err(NO_PATH);
    };
    Ok(Path {
        names: names_in(alloc, rest, depth)?,
    })
}

impl Path {
    /// The most names that a path has.
    pub const MAX_NAMES: usize = 1000;

    /// The most bytes that the text of a path has.
    pub const MAX_BYTES: usize = 8000;

    /// The root, which has no names.
    pub fn root(alloc: Global) -> Path
        ensures { result ≡ [] }
    {
        Path {
            names: Vec::new(alloc),
        }
    }

    /// Reads an absolute path, in a time linear in the text. The root is `/`, and no other path ends in a slash.
    ///
    /// # Errors
    /// `BadPath` where the text is no path within the limits, whether there is memory or not; else out of memory.
    pub fn parse(alloc: Global, text: &str) -> Result<Path, ParseFault>
        ensures { Parses IllFormed.BadPath result (path_of text.now) }
    {
        let Some(rest) = behind_slash(text) else {
            return Err(NO_PATH);
        };
        if rest.is_empty() {
            return Ok(Path::root(alloc));
        }
        if HALF_LANES <= rest.len() && rest.len() <= MOST_MARKED {
            parse_marked(alloc, text, rest)
        } else {
            parse_by_byte(alloc, text, rest)
        }
    }

    /// The path of these names, from the root down. Takes no memory.
    pub fn from_names(names: Vec<Name>) -> Path
        requires { IsPath names.items }
        ensures { result ≡ names.items }
    {
        Path { names }
    }

    /// The path of copies of these names, in a time linear in their text.
    ///
    /// # Errors
    /// Out of memory.
    pub fn copied(alloc: Global, names: &[Name]) -> Result<Path, AllocError>
        requires { IsPath names.now }
        ensures { IfOk result (λ path. path ≡ names.now) }
    {
        Ok(Path {
            names: copied_front(alloc, names, names.len())?,
        })
    }

    /// The names from the root down.
    pub fn names(&self) -> &[Name]
        ensures names { result.now ≡ self.now }
        ensures path { IsPath self.now }
    {
        &self.names
    }

    /// How many names the path has; the root has none.
    pub fn depth(&self) -> usize
        ensures { result ≡ length self.now }
    {
        self.names.len()
    }

    /// The path of the first `depth` names, in a time linear in their text.
    ///
    /// # Errors
    /// Out of memory.
    pub fn front(&self, alloc: Global, depth: usize) -> Result<Path, AllocError>
        requires { depth ≤ length self.now }
        ensures { IfOk result (λ front. front ≡ take depth self.now) }
    {
        Ok(Path {
            names: copied_front(alloc, &self.names, depth)?,
        })
    }

    /// The path without its last name, in a time linear in its text; the root has no parent.
    ///
    /// # Errors
    /// Out of memory.
    pub fn parent(&self, alloc: Global) -> Result<Option<Path>, AllocError>
        ensures { IfOk result (λ parent. parent ≡ parent_of self.now) }
    {
        let depth = self.depth();
        if depth == 0 {
            return Ok(None);
        }
        Ok(Some(self.front(alloc, depth - 1)?))
    }

    /// Whether this path is the other or beneath it: the other is a prefix of it. Takes no memory.
    pub fn is_at_or_under(&self, other: &Path) -> bool
        ensures { result ≡ spec.is_prefix other.now self.now }
    {
        is_prefix(&other.names, &self.names)
    }

    /// Whether this path is beneath the other: the other is a proper prefix of it. Takes no memory.
    pub fn is_under(&self, other: &Path) -> bool
        ensures { result ≡ spec.is_beneath self.now other.now }
    {
        is_proper_prefix(&other.names, &self.names)
    }
}

/// Whether two lists have the same names in the same order. Costs the names up to the first that differ, and nothing where one list is
/// longer; takes no memory.
// compared in turn, since the library's `==` of lists cuts a slice for each
#[tactic(auto, using(crate::proofs::Alike::text_decides))]
pub fn are_same_names(names: &[Name], others: &[Name]) -> bool
    ensures { Decides result (names.now ≡ others.now) }
{
    if names.len() != others.len() {
        return false;
    }
    for i in 0..names.len() {
        if names[i] != others[i] {
            return false;
        }
    }
    true
}

/// Whether two lists of names are one path: what `are_same_names` tests, told by the order of paths. Costs what that does; takes no memory.
pub fn is_same(names: &[Name], others: &[Name]) -> bool
    ensures { result ≡ same_path names.now others.now }
{
    are_same_names(names, others)
}

/// Whether the first names are a front of the second, or all of them: a path is the other or above it. Takes no memory.
pub fn is_prefix(front: &[Name], names: &[Name]) -> bool
    ensures { result ≡ spec.is_prefix front.now names.now }
{
    let depth = front.len();
    depth <= names.len() && is_same(&names[..depth], front)
}

/// Whether the first names are a front of the second and not all of them. Takes no memory.
pub fn is_proper_prefix(front: &[Name], names: &[Name]) -> bool
    ensures { result ≡ spec.is_beneath names.now front.now }
{
    let depth = front.len();
    depth < names.len() && is_same(&names[..depth], front)
}

fn copied_front(alloc: Global, names: &[Name], depth: usize) -> Result<Vec<Name>, AllocError>
    requires { depth ≤ length names.now }
    ensures { IfOk result (λ front. front.items ≡ take depth names.now) }
{
    let mut front = Vec::with_capacity(alloc, depth)?;
    for i in 0..depth {
        front.push(names[i].clone()?)?;
    }
    Ok(front)
}

impl Clone for Path {
    ghost is_clone = { λ path copy. copy ≡ path };

    fn clone(&self) -> Result<Path, AllocError> {
        self.front(*self.names.allocator(), self.names.len())
    }
}

impl PartialEq for Path {
    ghost eq = { same_path };

    ghost laws = { Prim.search (comparing, rules, paths_total) };

    fn eq(&self, other: &Path) -> bool {
        is_same(&self.names, &other.names)
    }
}

impl Eq for Path {
    ghost laws = { Prim.search (comparing, rules, paths_total) };
}

impl Ord for Path {
    ghost cmp = { path_cmp };

    ghost total = { paths_total };

    ghost matches_partial_cmp = { Prim.search (comparing, rules) };

    ghost matches_eq = { Prim.search (comparing, rules) };

    fn cmp(&self, other: &Path) -> Ordering {
        self.names.cmp(&other.names)
    }
}

impl PartialOrd for Path {
    ghost partial_cmp = { as_partial_cmp path_cmp };

    ghost laws = { partial_order_from_agreeing_total path_cmp paths_total (Prim.search (comparing, rules)) (Prim.search (comparing, rules)) };

    fn partial_cmp(&self, other: &Path) -> Option<Ordering> {
        Some(self.cmp(other))
    }
}

/// Prints a slash before each name, and for the root one slash.
impl fmt::Display for Path {
    ghost output = { λ path. Some (path_text path) };

    fn fmt<W: fmt::Write>(&self, f: &mut fmt::Formatter<W>) -> fmt::Result {
        if self.names.is_empty() {
            return write!(f, "/");
        }
        for name in &self.names {
            write!(f, "/{name}")?;
        }
        Ok(())
    }
}

/// Each path has one text, and each text that is read is that of its path.
pub fn paths_have_one_spelling()
    ensures read { (path : List (List ℕ)) → IsPath path → path_of (path_text path) ≡ Some path }
    ensures spelled { (text : List ℕ) (path : List (List ℕ)) → path_of text ≡ Some path → IsPath path × (path_text path ≡ text) }
{}
