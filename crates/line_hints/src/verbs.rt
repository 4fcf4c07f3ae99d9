use script_words::words::is_word;
use std::alloc::{AllocError, Global};

/// A verb of scripts, and the words that it takes.
pub struct Verb {
    /// The word in scripts.
    pub name: &'static str,
    /// The words behind the verb, by the names that the manual has for them; those in brackets may be missing. Empty where it
    /// takes none.
    pub words: &'static str,
    /// How many words it takes: the fewest and the most, and no number in between.
    pub counts: [usize; 2],
}

/// The verbs of requests to the NameNode.
pub static VERBS: [Verb; 23] = [
    Verb {
        name: "mkdirs",
        words: "P MODE",
        counts: [2, 2],
    },
    Verb {
        name: "stat",
        words: "P",
        counts: [1, 1],
    },
    Verb {
        name: "ls",
        words: "P",
        counts: [1, 1],
    },
    Verb {
        name: "du",
        words: "P",
        counts: [1, 1],
    },
    Verb {
        name: "delete",
        words: "P [recursive]",
        counts: [1, 2],
    },
    Verb {
        name: "rename",
        words: "P Q",
        counts: [2, 2],
    },
    Verb {
        name: "chmod",
        words: "P MODE",
        counts: [2, 2],
    },
    Verb {
        name: "chown",
        words: "P U G",
        counts: [3, 3],
    },
    Verb {
        name: "getfacl",
        words: "P",
        counts: [1, 1],
    },
    Verb {
        name: "setfacl",
        words: "P set|modify|remove SPEC, or P default|clear",
        counts: [2, 3],
    },
    Verb {
        name: "create",
        words: "P MODE REPL [over]",
        counts: [3, 4],
    },
    Verb {
        name: "append",
        words: "P",
        counts: [1, 1],
    },
    Verb {
        name: "addblock",
        words: "P [B LEN]",
        counts: [1, 3],
    },
    Verb {
        name: "complete",
        words: "P [B LEN]",
        counts: [1, 3],
    },
    Verb {
        name: "open",
        words: "P",
        counts: [1, 1],
    },
    Verb {
        name: "setrep",
        words: "P REPL",
        counts: [2, 2],
    },
    Verb {
        name: "renew",
        words: "",
        counts: [0, 0],
    },
    Verb {
        name: "tick",
        words: "",
        counts: [0, 0],
    },
    Verb {
        name: "heartbeat",
        words: "",
        counts: [0, 0],
    },
    Verb {
        name: "rollkey",
        words: "HEX",
        counts: [1, 1],
    },
    Verb {
        name: "adduser",
        words: "U GROUPS",
        counts: [2, 2],
    },
    Verb {
        name: "groups",
        words: "U GROUPS",
        counts: [2, 2],
    },
    Verb {
        name: "permissions",
        words: "on|off",
        counts: [1, 1],
    },
];

/// The verbs of calls of a DataNode.
pub static NODE_VERBS: [Verb; 6] = [
    Verb {
        name: "begin",
        words: "B STAMP NEXT #K",
        counts: [4, 4],
    },
    Verb {
        name: "packet",
        words: "B STAMP OFFSET BYTES NEXT #K",
        counts: [6, 6],
    },
    Verb {
        name: "finalize",
        words: "B STAMP LEN NEXT #K",
        counts: [5, 5],
    },
    Verb {
        name: "read",
        words: "B STAMP OFFSET LEN #K",
        counts: [5, 5],
    },
    Verb {
        name: "decide",
        words: "B STAMP",
        counts: [2, 2],
    },
    Verb {
        name: "commit",
        words: "B STAMP",
        counts: [2, 2],
    },
];

/// The verb of deliveries of messages.
pub static DELIVER: Verb = Verb {
    name: "deliver",
    words: "NUMBER",
    counts: [1, 1],
};

/// The verb of this name, of a request to the NameNode.
pub fn verb_of(name: &str) -> Option<&'static Verb> {
    VERBS.iter().find(|verb| is_word(verb.name, name))
}

/// The verb of this name, of a call of a DataNode.
pub fn node_verb_of(name: &str) -> Option<&'static Verb> {
    NODE_VERBS.iter().find(|verb| is_word(verb.name, name))
}

/// Adds a verb with its words on a line of its own.
fn add_verb(verb: &Verb, text: &mut String) -> Result<(), AllocError> {
    text.push_str("\n  ")?;
    text.push_str(verb.name)?;
    if verb.words.is_empty() {
        return Ok(());
    }
    text.push_str(" ")?;
    text.push_str(verb.words)
}

fn add_verbs(verbs: &[Verb], text: &mut String) -> Result<(), AllocError> {
    for verb in verbs {
        add_verb(verb, text)?;
    }
    Ok(())
}

/// What the words of verbs are, and how a run ends.
const WORDS: &str = "\n
P and Q are paths, U is a user, G a group, and GROUPS are groups with a comma between each two, or - for none.
MODE is octal, at most 1777, REPL is 1 to 16, and SPEC are entries like user:bob:rw-,default:group::r-x.
B is a block, STAMP its generation stamp, LEN and OFFSET are bytes, and HEX is 40 hexadecimal digits.
NODE is the id of a DataNode, and NEXT are ids with a comma between each two, or - for none. CALLER of decide and commit is dn-NODE.
BYTES are hexadecimal digits, or one byte many times, as 512*61, and #K is the K-th token that was granted.

Empty lines and lines that begin with # get no answer.
The exit status is 1 where a line is ill-formed, 2 for a fault of the command line, and 3 where memory runs out, or the script can't be read, or the answers can't be written.";

/// The forms of a line, the verbs with their words, a line each, what these words are, and how a run ends.
///
/// # Errors
/// Out of memory.
pub fn help_text(alloc: Global) -> Result<String, AllocError> {
    let mut text = String::from_str(
        alloc,
        "A line of a script is MOMENT CALLER VERB WORDS, with the moment in milliseconds.\n\nVerbs, with their words:",
    )?;
    add_verbs(&VERBS, &mut text)?;
    text.push_str(
        "\n\nA call of a DataNode is MOMENT CALLER @NODE VERB WORDS. Its verbs, with their words:",
    )?;
    add_verbs(&NODE_VERBS, &mut text)?;
    text.push_str("\n\nMOMENT - deliver NUMBER delivers a message.")?;
    text.push_str(WORDS)?;
    Ok(text)
}
