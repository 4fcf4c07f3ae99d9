ghost use Rattle.std.specs.Prelude.{◌≡◌, Some};
ghost use Rattle.std.proofs.Common.{rules, ap, ◌∙◌};
ghost use Rattle.std.specs.Cmp.{partial_order_from_own_ties};
ghost use Rattle.std.specs.Cmp.Lexicographic.{bytes_decides, texts_ties};
ghost use Rattle.std.specs.Cmp.Rules.{comparing};
ghost use Rattle.std.specs.Hash as fed;
ghost use Rattle.std.specs.Ordering.{as_partial_cmp};
ghost use Rattle.std.specs.List.{list_all};
ghost use Rattle.hdfs_values.specs.Who as spec;
ghost use Rattle.hdfs_values.specs.Who.{IsWho, who_of};
ghost use Rattle.hdfs_values.specs.Parsed.{Parses};
ghost use Rattle.hdfs_values.specs.Text.{same, text_cmp};

use crate::fault::{IllFormed, ParseFault};
use crate::short_text::ShortText;
use std::alloc::{AllocError, Global};
use std::cmp::Ordering;
use std::fmt;
use std::hash::{Hash, Hasher};
use std::marker::Model;

/// The name of a user or of a group: 1 to 255 bytes from 0x21 to 0x7e without `:`, `,` and `/` (HDFS Permissions
/// Guide, "User Identity" and "Group Mapping"). Names are ordered by their bytes. A name of at most 14 bytes takes no memory, so that a
/// clone of it succeeds.
#[derive(Drop)]
pub struct Who {
    text: ShortText,
}

impl Model for Who {
    ghost use Rattle.std.specs.Prelude.{List, ℕ};
    ghost use Rattle.hdfs_values.specs.Who.{IsWho};

    ghost Value = { List ℕ };

    ghost view = { λ who. who.text };

    ghost invariant = { λ who. IsWho who.text };
}

fn is_who_byte(byte: u8) -> bool
    ensures { result ≡ spec.is_who_byte byte }
{
    byte >= 0x21 && byte <= 0x7e && byte != b':' && byte != b',' && byte != b'/'
}

fn are_who_bytes(bytes: &[u8]) -> bool
    ensures { result ≡ list_all spec.is_who_byte bytes.now }
{
    bytes.iter().all(|byte| is_who_byte(*byte))
}

/// Whether these bytes are the name of a user or a group. Costs their number, and takes no memory.
pub fn is_who(bytes: &[u8]) -> bool
    ensures { result ≡ spec.is_who bytes.now }
{
    if bytes.is_empty() || bytes.len() > Who::MAX_BYTES {
        return false;
    }
    are_who_bytes(bytes)
}

impl Who {
    /// The most bytes that a name has.
    pub const MAX_BYTES: usize = 255;

    /// Reads the name of a user or a group, in a time linear in the text.
    ///
    /// # Errors
    /// `BadName` where the text is no name, whether there is memory or not; else out of memory.
    pub fn parse(alloc: Global, text: &str) -> Result<Who, ParseFault>
        ensures { Parses IllFormed.BadName result (who_of text.now) }
    {
        if !is_who(text.as_bytes()) {
            return Err(ParseFault::IllFormed(IllFormed::BadName));
        }
        Ok(Who {
            text: ShortText::copied(alloc, text)?,
        })
    }

    /// The text of the name.
    pub fn as_str(&self) -> &str
        ensures text { result.now ≡ self.now }
        ensures who { IsWho self.now }
    {
        self.text.as_str()
    }
}

impl Clone for Who {
    ghost is_clone = { λ who copy. copy ≡ who };

    fn clone(&self) -> Result<Who, AllocError> {
        Ok(Who {
            text: self.text.clone()?,
        })
    }
}

impl fmt::Display for Who {
    ghost output = { λ who. Some who };

    fn fmt<W: fmt::Write>(&self, f: &mut fmt::Formatter<W>) -> fmt::Result {
        f.write_str(self.text.as_str())
    }
}

impl PartialEq for Who {
    ghost eq = { same };

    ghost laws = { Prim.search (comparing, rules) };

    // called for each named entry that a search looks at
    #[inline(always)]
    fn eq(&self, other: &Who) -> bool {
        self.text == other.text
    }
}

impl Eq for Who {
    ghost laws = { Prim.search (comparing, rules) };
}

impl Ord for Who {
    ghost cmp = { text_cmp };

    ghost total = { Prim.search (comparing, rules) };

    ghost matches_partial_cmp = { Prim.search (comparing, rules) };

    ghost matches_eq = { Prim.search (comparing, rules) };

    fn cmp(&self, other: &Who) -> Ordering {
        self.text.cmp(&other.text)
    }
}

impl PartialOrd for Who {
    ghost partial_cmp = { as_partial_cmp text_cmp };

    ghost laws = { partial_order_from_own_ties (Prim.search (comparing, rules)) (Prim.search (comparing, rules)) };

    fn partial_cmp(&self, other: &Who) -> Option<Ordering> {
        Some(self.cmp(other))
    }
}

impl Hash for Who {
    ghost hash_input = { fed.str };

    ghost respects_eq = { λ x y one. ap fed.str ((bytes_decides x y).0 (texts_ties x y ∙ one)) };

    fn hash<H: Hasher>(&self, state: &mut H) {
        self.text.as_str().hash(state);
    }
}
