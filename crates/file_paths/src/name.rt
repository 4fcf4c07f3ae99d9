ghost use Rattle.std.specs.Prelude.{◌≡◌, true, Some, IfOk};
ghost use Rattle.std.proofs.Common.{rules};
ghost use Rattle.std.specs.Cmp.{partial_order_from_own_ties};
ghost use Rattle.std.specs.Cmp.Rules.{comparing};
ghost use Rattle.std.specs.Ordering.{as_partial_cmp};
ghost use Rattle.std.specs.List.{list_all};
ghost use Rattle.file_paths.specs.Name as spec;
ghost use Rattle.file_paths.specs.Name.{IsName, name_of};
ghost use Rattle.hdfs_values.specs.Parsed.{Parses};
ghost use Rattle.hdfs_values.specs.Text.{same, text_cmp};

use hdfs_values::fault::{IllFormed, ParseFault};
use hdfs_values::short_text::ShortText;
use std::alloc::{AllocError, Global};
use std::cmp::Ordering;
use std::fmt;
use std::marker::Model;

/// A component of a path: 1 to 255 bytes of UTF-8 without `/`, `:`, NUL and line feed, and neither `.` nor `..`
/// (HDFS Architecture, "The File System Namespace"). Names are ordered by their bytes. A name of at most 14 bytes takes no memory, so
/// that a clone of it succeeds.
#[derive(Drop)]
pub struct Name {
    text: ShortText,
}

impl Model for Name {
    ghost use Rattle.std.specs.Prelude.{List, ℕ};
    ghost use Rattle.file_paths.specs.Name.{IsName};

    ghost Value = { List ℕ };

    ghost view = { λ name. name.text };

    ghost invariant = { λ name. IsName name.text };
}

pub(crate) fn is_name_byte(byte: u8) -> bool
    ensures { result ≡ spec.is_name_byte byte }
{
    byte != b'/' && byte != b':' && byte != 0 && byte != b'\n'
}

fn are_name_bytes(bytes: &[u8]) -> bool
    ensures { result ≡ list_all spec.is_name_byte bytes.now }
{
    bytes.iter().all(|byte| is_name_byte(*byte))
}

fn is_dots(bytes: &[u8]) -> bool
    ensures { result ≡ spec.is_dots bytes.now }
{
    match bytes {
        [first] => *first == b'.',
        [first, second] => *first == b'.' && *second == b'.',
        _ => false,
    }
}

/// Whether bytes that names may have make one: it is neither empty nor too long, and neither `.` nor `..`.
pub(crate) fn makes_name(bytes: &[u8]) -> bool
    requires { list_all spec.is_name_byte bytes.now ≡ true }
    ensures { result ≡ spec.is_name bytes.now }
{
    !bytes.is_empty() && bytes.len() <= Name::MAX_BYTES && !is_dots(bytes)
}

/// Whether bytes are those of a name. Takes no memory.
fn is_name(bytes: &[u8]) -> bool
    ensures { result ≡ spec.is_name bytes.now }
{
    are_name_bytes(bytes) && makes_name(bytes)
}

impl Name {
    /// The most bytes that a name has.
    pub const MAX_BYTES: usize = 255;

    /// Reads a name, in a time linear in the text.
    ///
    /// # Errors
    /// `BadPath` where the text is no name, whether there is memory or not; else out of memory.
    pub fn parse(alloc: Global, text: &str) -> Result<Name, ParseFault>
        ensures { Parses IllFormed.BadPath result (name_of text.now) }
    {
        if !is_name(text.as_bytes()) {
            return Err(ParseFault::IllFormed(IllFormed::BadPath));
        }
        Ok(Name::copied(alloc, text)?)
    }

    /// A copy of a text that is a name. One of at most 14 bytes takes no memory.
    pub(crate) fn copied(alloc: Global, text: &str) -> Result<Name, AllocError>
        requires { IsName text.now }
        ensures { IfOk result (λ name. name ≡ text.now) }
    {
        Ok(Name {
            text: ShortText::copied(alloc, text)?,
        })
    }

    /// The name that a text spells whose bytes are all of names; `None` where it is none. One of at most 14 bytes takes no memory. The copy
    /// comes before the judgement: a copy whose length is known to be above zero would clear its bytes by a call.
    ///
    /// # Errors
    /// Out of memory, which may stand in place of `None`.
    #[inline(always)]
    pub(crate) fn spelled(alloc: Global, text: &str) -> Result<Option<Name>, AllocError>
        requires { list_all spec.is_name_byte text.now ≡ true }
        ensures { IfOk result (λ found. found ≡ name_of text.now) }
    {
        let copy = ShortText::copied(alloc, text)?;
        if !makes_name(text.as_bytes()) {
            return Ok(None);
        }
        Ok(Some(Name { text: copy }))
    }

    /// The text of the name.
    pub fn as_str(&self) -> &str
        ensures text { result.now ≡ self.now }
        ensures name { IsName self.now }
    {
        self.text.as_str()
    }
}

impl Clone for Name {
    ghost is_clone = { λ name copy. copy ≡ name };

    fn clone(&self) -> Result<Name, AllocError> {
        Ok(Name {
            text: self.text.clone()?,
        })
    }
}

impl fmt::Display for Name {
    ghost output = { λ name. Some name };

    fn fmt<W: fmt::Write>(&self, f: &mut fmt::Formatter<W>) -> fmt::Result {
        f.write_str(self.text.as_str())
    }
}

impl PartialEq for Name {
    ghost eq = { same };

    ghost laws = { Prim.search (comparing, rules) };

    fn eq(&self, other: &Name) -> bool {
        self.text == other.text
    }
}

impl Eq for Name {
    ghost laws = { Prim.search (comparing, rules) };
}

impl Ord for Name {
    ghost cmp = { text_cmp };

    ghost total = { Prim.search (comparing, rules) };

    ghost matches_partial_cmp = { Prim.search (comparing, rules) };

    ghost matches_eq = { Prim.search (comparing, rules) };

    fn cmp(&self, other: &Name) -> Ordering {
        self.text.cmp(&other.text)
    }
}

impl PartialOrd for Name {
    ghost partial_cmp = { as_partial_cmp text_cmp };

    ghost laws = { partial_order_from_own_ties (Prim.search (comparing, rules)) (Prim.search (comparing, rules)) };

    fn partial_cmp(&self, other: &Name) -> Option<Ordering> {
        Some(self.cmp(other))
    }
}
