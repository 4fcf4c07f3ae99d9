use crate::node_hint::{NodeHint, delivery_hint, node_hint};
use crate::verbs::{Verb, node_verb_of, verb_of};
use crate::word::word_at;
use script_words::acl_words::{wants_none, wants_spec};
use script_words::values::{moment_word, number_word, replication_word};
use script_words::words::is_word;
use std::fmt;

/// What is wrong with a line as a whole, or with its moment.
#[derive(Clone, Copy)]
pub enum LineFlaw {
    /// It has no words.
    Blanks,
    /// Its first word begins with `#`.
    LateComment,
    /// It begins with a byte order mark.
    ByteOrderMark,
    /// It has fewer than three words.
    FewWords,
    /// Its moment is above 2^62 milliseconds.
    LateMoment,
}

impl LineFlaw {
    fn text(self) -> &'static str {
        match self {
            LineFlaw::Blanks => "blanks alone are neither a request nor an empty line",
            LineFlaw::LateComment => "a comment has its # as the very first character",
            LineFlaw::ByteOrderMark => "the line begins with a byte order mark",
            LineFlaw::FewWords => "a line wants MOMENT CALLER VERB WORDS",
            LineFlaw::LateMoment => "moment above 2^62",
        }
    }
}

/// Why a word is no number in its range.
#[derive(Clone, Copy)]
pub enum NumberHint<'a> {
    /// What the number would say, and the word in its place.
    NotDigits(&'static str, &'a str),
    /// What the number says that is too large.
    Large(&'static str),
    /// The replication, which isn't from 1 to 16.
    Replication(&'a str),
}

impl fmt::Display for NumberHint<'_> {
    fn fmt<W: fmt::Write>(&self, f: &mut fmt::Formatter<W>) -> fmt::Result {
        match self {
            NumberHint::NotDigits(what, word) => {
                write!(f, "{what} {word:?} is not decimal digits")
            }
            NumberHint::Large(what) => write!(f, "{what} is not below 2^64"),
            NumberHint::Replication(word) => {
                write!(f, "replication {word:?} is not from 1 to 16")
            }
        }
    }
}

/// What is wrong with a form of `setfacl`.
#[derive(Clone, Copy)]
pub enum FormHint<'a> {
    /// It lacks its entries.
    NoSpec(&'a str),
    /// It takes no entries.
    Spec(&'a str),
    /// There is no such form.
    Unknown(&'a str),
}

impl fmt::Display for FormHint<'_> {
    fn fmt<W: fmt::Write>(&self, f: &mut fmt::Formatter<W>) -> fmt::Result {
        match self {
            FormHint::NoSpec(form) => write!(f, "setfacl P {form} wants SPEC"),
            FormHint::Spec(form) => write!(f, "setfacl P {form} wants no SPEC"),
            FormHint::Unknown(form) => write!(
                f,
                "setfacl has no form {form:?}, but set, modify, remove, default and clear"
            ),
        }
    }
}

/// Why the words of a line make no event, where none of them is an ill-formed path, name, mode or access list.
#[derive(Clone, Copy)]
pub enum LineHint<'a> {
    /// What is wrong with the line as a whole, or with its moment.
    Flaw(LineFlaw),
    /// A verb that neither the NameNode nor a DataNode has.
    UnknownVerb(&'a str),
    /// A verb, and the words that it takes.
    Count(&'static str, &'static str),
    /// Why a word is no number in its range.
    Number(NumberHint<'a>),
    /// What is wrong with a form of `setfacl`.
    Form(FormHint<'a>),
    /// The word is no key. It isn't repeated: nothing prints a key.
    Key,
    /// A word, and the one that it has to be.
    Instead(&'a str, &'static str),
    /// A verb of a DataNode, which isn't named.
    Nodeless(&'static str),
    /// What is wrong with a call of a DataNode or with a delivery.
    Node(NodeHint<'a>),
}

impl fmt::Display for LineHint<'_> {
    fn fmt<W: fmt::Write>(&self, f: &mut fmt::Formatter<W>) -> fmt::Result {
        match self {
            LineHint::Flaw(flaw) => f.write_str(flaw.text()),
            LineHint::UnknownVerb(verb) => write!(f, "unknown verb {verb:?}"),
            LineHint::Count(verb, words) => write!(f, "{verb} wants {words}"),
            LineHint::Number(hint) => write!(f, "{hint}"),
            LineHint::Form(hint) => write!(f, "{hint}"),
            LineHint::Key => f.write_str("a key is 40 hexadecimal digits"),
            LineHint::Instead(word, fixed) => write!(f, "{word:?} instead of {fixed}"),
            LineHint::Nodeless(verb) => write!(f, "{verb} wants @NODE before it"),
            LineHint::Node(hint) => write!(f, "{hint}"),
        }
    }
}

fn are_digits(word: &str) -> bool {
    word.as_bytes().iter().all(|byte| byte.is_ascii_digit())
}

/// Why the verb doesn't take these words, by their number.
fn hint_on_count<'a>(verb: &'static Verb, others: &[&'a str]) -> Option<LineHint<'a>> {
    let count = others.len();
    if verb.words.is_empty() && count != 0 {
        return Some(LineHint::Count(verb.name, "no words"));
    }
    if count != verb.counts[0] && count != verb.counts[1] {
        return Some(LineHint::Count(verb.name, verb.words));
    }
    if !is_word(verb.name, "setfacl") {
        return None;
    }
    let form = word_at(others, 1);
    if count == 2 && wants_spec(form) {
        return Some(LineHint::Form(FormHint::NoSpec(form)));
    }
    if count == 3 && wants_none(form) {
        return Some(LineHint::Form(FormHint::Spec(form)));
    }
    None
}

/// Why a word is no moment.
pub(crate) fn hint_on_moment(word: &str) -> LineHint<'_> {
    if !are_digits(word) {
        return LineHint::Number(NumberHint::NotDigits("moment", word));
    }
    LineHint::Flaw(LineFlaw::LateMoment)
}

/// Why a word is no replication.
fn hint_on_replication(word: &str) -> NumberHint<'_> {
    if !are_digits(word) {
        return NumberHint::NotDigits("replication", word);
    }
    NumberHint::Replication(word)
}

/// Why a word is no number below 2^64.
pub(crate) fn hint_on_number<'a>(what: &'static str, word: &'a str) -> NumberHint<'a> {
    if word.is_empty() || !are_digits(word) {
        return NumberHint::NotDigits(what, word);
    }
    NumberHint::Large(what)
}

/// Why the first of a block's number and its length that is none is no number.
fn hint_on_block<'a>(block: &'a str, length: &'a str) -> NumberHint<'a> {
    if number_word(block).is_err() {
        return hint_on_number("block", block);
    }
    hint_on_number("length", length)
}

/// Why the replication of a new file is none, or what follows it isn't `over`.
fn hint_on_file<'a>(replication: &'a str, over: &'a str) -> LineHint<'a> {
    if replication_word(replication).is_err() {
        return LineHint::Number(hint_on_replication(replication));
    }
    LineHint::Instead(over, "over")
}

/// What is wrong with the words behind a path.
fn hint_behind_path<'a>(verb: &str, others: &[&'a str]) -> LineHint<'a> {
    let next = word_at(others, 1);
    if is_word(verb, "delete") {
        return LineHint::Instead(next, "recursive");
    }
    if is_word(verb, "create") {
        return hint_on_file(word_at(others, 2), word_at(others, 3));
    }
    if is_word(verb, "setrep") {
        return LineHint::Number(hint_on_replication(next));
    }
    if is_word(verb, "addblock") || is_word(verb, "complete") {
        return LineHint::Number(hint_on_block(next, word_at(others, 2)));
    }
    LineHint::Form(FormHint::Unknown(next))
}

/// What is wrong with a verb that the NameNode doesn't have.
fn hint_on_unknown(verb: &str) -> LineHint<'_> {
    match node_verb_of(verb) {
        Some(known) => LineHint::Nodeless(known.name),
        None => LineHint::UnknownVerb(verb),
    }
}

/// What is wrong with a moment, a verb and the words behind it.
fn hint_on_words<'a>(moment: &'a str, verb: &'a str, others: &[&'a str]) -> LineHint<'a> {
    let Some(known) = verb_of(verb) else {
        return hint_on_unknown(verb);
    };
    if let Some(hint) = hint_on_count(known, others) {
        return hint;
    }
    if moment_word(moment).is_err() {
        return hint_on_moment(moment);
    }
    if is_word(verb, "rollkey") {
        return LineHint::Key;
    }
    if is_word(verb, "permissions") {
        return LineHint::Instead(word_at(others, 0), "on or off");
    }
    hint_behind_path(verb, others)
}

/// What is wrong with the words of a line that has a verb, where so many tokens were granted before.
fn hint_on_verb<'a>(
    granted: usize,
    moment: &'a str,
    caller: &'a str,
    verb: &'a str,
    others: &[&'a str],
) -> LineHint<'a> {
    if verb.starts_with('@') {
        return node_hint(granted, moment, caller, verb, others);
    }
    if is_word(verb, "deliver") {
        return delivery_hint(moment, caller, others);
    }
    hint_on_words(moment, verb, others)
}

/// Why the words of a line make no event where so many tokens were granted before, where that is no ill-formed path, name, mode or
/// access list.
pub fn line_hint<'a>(granted: usize, words: &[&'a str]) -> LineHint<'a> {
    match words {
        [] => LineHint::Flaw(LineFlaw::Blanks),
        [first, ..] if first.starts_with('#') => LineHint::Flaw(LineFlaw::LateComment),
        [first, ..] if first.starts_with('\u{feff}') => LineHint::Flaw(LineFlaw::ByteOrderMark),
        [moment, caller, verb, others @ ..] => hint_on_verb(granted, moment, caller, verb, others),
        _ => LineHint::Flaw(LineFlaw::FewWords),
    }
}
