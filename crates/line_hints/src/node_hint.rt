use crate::line_hint::{LineHint, hint_on_moment, hint_on_number};
use crate::verbs::{DELIVER, Verb, node_verb_of};
use hdfs_values::number::number_of;
use script_words::values::{moment_word, number_word};
use script_words::words::is_word;
use std::fmt;

/// Why a word spells no bytes.
#[derive(Clone, Copy)]
pub enum BytesHint<'a> {
    /// The bytes, and their first character that is no digit.
    Character(&'a str, char),
    /// There is a digit too few.
    Odd(&'a str),
    /// The byte that is to be repeated is none.
    Byte(&'a str),
}

impl fmt::Display for BytesHint<'_> {
    fn fmt<W: fmt::Write>(&self, f: &mut fmt::Formatter<W>) -> fmt::Result {
        match self {
            BytesHint::Character(bytes, character) => write!(
                f,
                "bytes {bytes:?} have {character:?}, which is no hexadecimal digit"
            ),
            BytesHint::Odd(bytes) => write!(f, "bytes {bytes:?} are an odd number of digits"),
            BytesHint::Byte(byte) => write!(f, "byte {byte:?} is not two hexadecimal digits"),
        }
    }
}

/// Why a word is no token that was granted.
#[derive(Clone, Copy)]
pub enum TokenHint<'a> {
    /// The word isn't `#` and a number below 2^64.
    Form(&'a str),
    /// No token was granted before.
    Ungranted(&'a str),
    /// The word, whose number no token has, and the number of the last that was granted.
    Behind(&'a str, usize),
}

impl fmt::Display for TokenHint<'_> {
    fn fmt<W: fmt::Write>(&self, f: &mut fmt::Formatter<W>) -> fmt::Result {
        match self {
            TokenHint::Form(token) => {
                write!(f, "token {token:?} is not # and a number below 2^64")
            }
            TokenHint::Ungranted(token) => {
                write!(f, "token {token:?} was not granted, and none was")
            }
            TokenHint::Behind(token, last) => {
                write!(f, "token {token:?} was not granted: the last is #{last}")
            }
        }
    }
}

/// What is wrong with a call of a DataNode or with a delivery, beside its moment and its numbers.
#[derive(Clone, Copy)]
pub enum NodeHint<'a> {
    /// There is no verb behind the DataNode.
    NoVerb,
    /// A verb that no DataNode has.
    UnknownVerb(&'a str),
    /// The word names no DataNode.
    Node(&'a str),
    /// The DataNodes that come next, and the first piece that is none.
    Next(&'a str, &'a str),
    /// Why a word spells no bytes.
    Bytes(BytesHint<'a>),
    /// Why a word is no token that was granted.
    Token(TokenHint<'a>),
    /// A message is delivered by nobody.
    Caller,
    /// The verb is called by the DataNode itself, which has this id.
    Leader(&'static str, u64),
}

impl fmt::Display for NodeHint<'_> {
    fn fmt<W: fmt::Write>(&self, f: &mut fmt::Formatter<W>) -> fmt::Result {
        match self {
            NodeHint::NoVerb => f.write_str("a call wants MOMENT CALLER @NODE VERB WORDS"),
            NodeHint::UnknownVerb(verb) => write!(f, "unknown verb {verb:?} of a DataNode"),
            NodeHint::Node(node) => write!(
                f,
                "{node:?} is not @ and the id of a DataNode, from 1 to 4,294,967,295"
            ),
            NodeHint::Next(next, piece) => {
                write!(f, "{next:?} has {piece:?}, which is no id of a DataNode")
            }
            NodeHint::Bytes(hint) => write!(f, "{hint}"),
            NodeHint::Token(hint) => write!(f, "{hint}"),
            NodeHint::Caller => f.write_str("deliver wants the caller -"),
            NodeHint::Leader(verb, id) => write!(f, "{verb} at @{id} wants the caller dn-{id}"),
        }
    }
}

/// What a word of a call says.
#[derive(Clone, Copy)]
enum Word {
    /// A number, by its name.
    Number(&'static str),
    Bytes,
    Next,
    Token,
}

static BEGIN: [Word; 4] = [
    Word::Number("block"),
    Word::Number("stamp"),
    Word::Next,
    Word::Token,
];

static PACKET: [Word; 6] = [
    Word::Number("block"),
    Word::Number("stamp"),
    Word::Number("offset"),
    Word::Bytes,
    Word::Next,
    Word::Token,
];

static FINALIZE: [Word; 5] = [
    Word::Number("block"),
    Word::Number("stamp"),
    Word::Number("length"),
    Word::Next,
    Word::Token,
];

static READ: [Word; 5] = [
    Word::Number("block"),
    Word::Number("stamp"),
    Word::Number("offset"),
    Word::Number("length"),
    Word::Token,
];

static RECOVERY: [Word; 2] = [Word::Number("block"), Word::Number("stamp")];

/// Whether a DataNode goes on by this verb with a recovery that it leads.
fn is_leading(verb: &str) -> bool {
    is_word(verb, "decide") || is_word(verb, "commit")
}

/// What the words behind a verb say.
fn words_behind(verb: &str) -> &'static [Word] {
    if is_word(verb, "begin") {
        &BEGIN
    } else if is_word(verb, "packet") {
        &PACKET
    } else if is_word(verb, "finalize") {
        &FINALIZE
    } else if is_leading(verb) {
        &RECOVERY
    } else {
        &READ
    }
}

/// The id of a DataNode that a text spells.
fn node_id(text: &str) -> Option<u64> {
    match number_of(text) {
        Some(id) if 0 < id && id <= u64::from(u32::MAX) => Some(id),
        _ => None,
    }
}

/// The id of the DataNode that a word names.
fn named_id(word: &str) -> Option<u64> {
    node_id(word.strip_prefix('@')?)
}

/// Whether a caller is the DataNode of this id: a name with leading zeros is another's.
fn is_principal(caller: &str, id: u64) -> bool {
    match caller.strip_prefix("dn-") {
        Some(own) => !own.starts_with('0') && node_id(own) == Some(id),
        None => false,
    }
}

/// Why a word is no list of DataNodes.
fn hint_on_next(next: &str) -> Option<NodeHint<'_>> {
    if is_word(next, "-") {
        return None;
    }
    for piece in next.split(',') {
        if node_id(piece).is_none() {
            return Some(NodeHint::Next(next, piece));
        }
    }
    None
}

/// Why a word without a count spells no bytes.
fn hint_on_digits(bytes: &str) -> Option<BytesHint<'_>> {
    for character in bytes.chars() {
        if !character.is_ascii_hexdigit() {
            return Some(BytesHint::Character(bytes, character));
        }
    }
    if bytes.len() % 2 == 0 {
        return None;
    }
    Some(BytesHint::Odd(bytes))
}

/// Why a count and a byte spell no bytes.
fn hint_on_repeated<'a>(times: &'a str, byte: &'a str) -> Option<LineHint<'a>> {
    if number_word(times).is_err() {
        return Some(LineHint::Number(hint_on_number("count", times)));
    }
    if byte.len() == 2 && hint_on_digits(byte).is_none() {
        return None;
    }
    Some(LineHint::Node(NodeHint::Bytes(BytesHint::Byte(byte))))
}

/// Why a word spells no bytes.
fn hint_on_bytes(word: &str) -> Option<LineHint<'_>> {
    match word.split_once('*') {
        Some((times, byte)) => hint_on_repeated(times, byte),
        None => Some(LineHint::Node(NodeHint::Bytes(hint_on_digits(word)?))),
    }
}

/// Why a word is none of so many tokens.
fn hint_on_token(granted: usize, token: &str) -> Option<TokenHint<'_>> {
    let Some(number) = token.strip_prefix('#').and_then(number_of) else {
        return Some(TokenHint::Form(token));
    };
    if 0 < number && number <= granted as u64 {
        return None;
    }
    if granted == 0 {
        return Some(TokenHint::Ungranted(token));
    }
    Some(TokenHint::Behind(token, granted))
}

/// Why a word doesn't say what it should, where so many tokens were granted before.
fn hint_on_word<'a>(granted: usize, kind: Word, word: &'a str) -> Option<LineHint<'a>> {
    match kind {
        Word::Number(_) if number_word(word).is_ok() => None,
        Word::Number(what) => Some(LineHint::Number(hint_on_number(what, word))),
        Word::Bytes => hint_on_bytes(word),
        Word::Next => Some(LineHint::Node(hint_on_next(word)?)),
        Word::Token => Some(LineHint::Node(NodeHint::Token(hint_on_token(granted, word)?))),
    }
}

/// What is wrong with the first of the words behind a verb that doesn't say what it should.
fn hint_on_call<'a>(granted: usize, verb: &Verb, words: &[&'a str]) -> LineHint<'a> {
    for (kind, word) in words_behind(verb.name).iter().zip(words) {
        if let Some(hint) = hint_on_word(granted, *kind, word) {
            return hint;
        }
    }
    LineHint::Count(verb.name, verb.words)
}

/// What is wrong with a call of a DataNode, where so many tokens were granted before.
pub(crate) fn node_hint<'a>(
    granted: usize,
    moment: &'a str,
    caller: &'a str,
    node: &'a str,
    others: &[&'a str],
) -> LineHint<'a> {
    let [verb, words @ ..] = others else {
        return LineHint::Node(NodeHint::NoVerb);
    };
    let Some(known) = node_verb_of(verb) else {
        return LineHint::Node(NodeHint::UnknownVerb(*verb));
    };
    if words.len() != known.counts[0] {
        return LineHint::Count(known.name, known.words);
    }
    if moment_word(moment).is_err() {
        return hint_on_moment(moment);
    }
    let Some(id) = named_id(node) else {
        return LineHint::Node(NodeHint::Node(node));
    };
    if is_leading(known.name) && !is_principal(caller, id) {
        return LineHint::Node(NodeHint::Leader(known.name, id));
    }
    hint_on_call(granted, known, words)
}

/// What is wrong with the delivery of a message.
pub(crate) fn delivery_hint<'a>(
    moment: &'a str,
    caller: &'a str,
    others: &[&'a str],
) -> LineHint<'a> {
    if !is_word(caller, "-") {
        return LineHint::Node(NodeHint::Caller);
    }
    let [number] = others else {
        return LineHint::Count(DELIVER.name, DELIVER.words);
    };
    if moment_word(moment).is_err() {
        return hint_on_moment(moment);
    }
    LineHint::Number(hint_on_number("message", number))
}
