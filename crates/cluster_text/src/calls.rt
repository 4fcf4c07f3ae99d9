ghost use Rattle.std.specs.Prelude.{◌≡◌};
ghost use Rattle.cluster_text.specs.Calls as spec;

use script_words::words::is_word;

/// Whether a verb is that of a call of a DataNode, with so many words behind it. Takes no memory.
pub fn is_call(verb: &str, count: usize) -> bool
    ensures { result ≡ spec.is_call verb.now count }
{
    (is_word(verb, "begin") && count == 4)
        || (is_word(verb, "packet") && count == 6)
        || ((is_word(verb, "finalize") || is_word(verb, "read")) && count == 5)
        || ((is_word(verb, "decide") || is_word(verb, "commit")) && count == 2)
}
