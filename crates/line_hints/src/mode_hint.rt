use crate::word::word_at;
use std::fmt;

/// Why a word is no mode.
#[derive(Clone, Copy)]
pub enum ModeHint<'a> {
    /// The mode, which isn't octal digits alone.
    NotOctal(&'a str),
    /// The mode, which has more than 4 digits.
    Long(&'a str),
    /// The mode, which is above 1777.
    Above(&'a str),
}

impl fmt::Display for ModeHint<'_> {
    fn fmt<W: fmt::Write>(&self, f: &mut fmt::Formatter<W>) -> fmt::Result {
        match self {
            ModeHint::NotOctal(mode) => write!(f, "mode {mode:?} is not octal digits"),
            ModeHint::Long(mode) => write!(f, "mode {mode:?} has more than 4 digits"),
            ModeHint::Above(mode) => write!(f, "mode {mode:?} is above 1777"),
        }
    }
}

/// What is wrong with the mode of a line: each verb has it behind the path.
pub fn mode_hint<'a>(words: &[&'a str]) -> ModeHint<'a> {
    let mode = word_at(words, 4);
    if !mode
        .as_bytes()
        .iter()
        .all(|byte| b'0' <= *byte && *byte <= b'7')
    {
        return ModeHint::NotOctal(mode);
    }
    if mode.len() > 4 {
        return ModeHint::Long(mode);
    }
    ModeHint::Above(mode)
}
