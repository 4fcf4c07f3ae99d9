ghost use Rattle.std.specs.Prelude.{◌≡◌, ℕ, List, Some, Result, IfOk, map};
ghost use Rattle.script_words.specs.LineForms.{Forms, FormsOption};
ghost use Rattle.script_words.specs.Words.{words_of};
ghost use Rattle.script_text.specs.Script as spec;

use hdfs_types::given_name::GivenName;
use hdfs_types::op::{Op, Request};
use hdfs_values::fault::{IllFormed, ParseFault};
use hdfs_values::moment::Moment;
use hdfs_values::who::Who;
use script_words::acl_words::{bare_change, change_by, wants_none, wants_spec};
use script_words::groups_word::groups_word;
use script_words::values::{
    change_word, key_word, last_words, mode_word, moment_word, over_word, path_word,
    recursive_word, rename_words, replication_word, who_word,
};
use script_words::words::{is_word, words_in};
use std::alloc::{AllocError, Global};

fn mkdirs_of(alloc: Global, path: &str, mode: &str) -> Result<Op, ParseFault>
    ensures { Forms result (spec.mkdirs_of path.now mode.now) }
{
    let path = path_word(alloc, path)?;
    let mode = mode_word(mode)?;
    Ok(Op::Mkdirs(path, mode))
}

fn stat_of(alloc: Global, path: &str) -> Result<Op, ParseFault>
    ensures { Forms result (spec.stat_of path.now) }
{
    let path = path_word(alloc, path)?;
    Ok(Op::Stat(path))
}

fn ls_of(alloc: Global, path: &str) -> Result<Op, ParseFault>
    ensures { Forms result (spec.ls_of path.now) }
{
    let path = path_word(alloc, path)?;
    Ok(Op::List(path))
}

fn du_of(alloc: Global, path: &str) -> Result<Op, ParseFault>
    ensures { Forms result (spec.du_of path.now) }
{
    let path = path_word(alloc, path)?;
    Ok(Op::Summary(path))
}

fn delete_of(alloc: Global, path: &str) -> Result<Op, ParseFault>
    ensures { Forms result (spec.delete_of path.now) }
{
    let path = path_word(alloc, path)?;
    Ok(Op::Delete(path, false))
}

fn delete_with(alloc: Global, path: &str, recursive: &str) -> Result<Op, ParseFault>
    ensures { Forms result (spec.delete_with path.now recursive.now) }
{
    let path = path_word(alloc, path)?;
    let recursive = recursive_word(recursive)?;
    Ok(Op::Delete(path, recursive))
}

fn chmod_of(alloc: Global, path: &str, mode: &str) -> Result<Op, ParseFault>
    ensures { Forms result (spec.chmod_of path.now mode.now) }
{
    let path = path_word(alloc, path)?;
    let mode = mode_word(mode)?;
    Ok(Op::SetMode(path, mode))
}

fn chown_of(alloc: Global, path: &str, owner: &str, group: &str) -> Result<Op, ParseFault>
    ensures { Forms result (spec.chown_of path.now owner.now group.now) }
{
    let path = path_word(alloc, path)?;
    let owner = change_word(alloc, owner)?;
    let group = change_word(alloc, group)?;
    let owner = GivenName::new(alloc, owner)?;
    let group = GivenName::new(alloc, group)?;
    Ok(Op::SetOwner(path, owner, group))
}

fn getfacl_of(alloc: Global, path: &str) -> Result<Op, ParseFault>
    ensures { Forms result (spec.getfacl_of path.now) }
{
    let path = path_word(alloc, path)?;
    Ok(Op::GetAcl(path))
}

fn setfacl_of(alloc: Global, path: &str, form: &str) -> Result<Op, ParseFault>
    ensures { Forms result (spec.setfacl_of path.now form.now) }
{
    let path = path_word(alloc, path)?;
    let change = bare_change(form)?;
    Ok(Op::SetAcl(path, change))
}

fn setfacl_with(alloc: Global, path: &str, form: &str, entries: &str) -> Result<Op, ParseFault>
    ensures { Forms result (spec.setfacl_with path.now form.now entries.now) }
{
    let path = path_word(alloc, path)?;
    let change = change_by(alloc, form, entries)?;
    Ok(Op::SetAcl(path, change))
}

fn adduser_of(alloc: Global, user: &str, groups: &str) -> Result<Op, ParseFault>
    ensures { Forms result (spec.adduser_of user.now groups.now) }
{
    let user = who_word(alloc, user)?;
    let groups = groups_word(alloc, groups)?;
    Ok(Op::AddUser(user, groups))
}

fn set_groups_of(alloc: Global, user: &str, groups: &str) -> Result<Op, ParseFault>
    ensures { Forms result (spec.set_groups_of user.now groups.now) }
{
    let user = who_word(alloc, user)?;
    let groups = groups_word(alloc, groups)?;
    Ok(Op::SetGroups(user, groups))
}

fn create_of(alloc: Global, path: &str, mode: &str, replication: &str) -> Result<Op, ParseFault>
    ensures { Forms result (spec.create_of path.now mode.now replication.now) }
{
    let path = path_word(alloc, path)?;
    let mode = mode_word(mode)?;
    let replication = replication_word(replication)?;
    Ok(Op::Create(path, mode, replication, false))
}

fn create_with(
    alloc: Global,
    path: &str,
    mode: &str,
    replication: &str,
    over: &str,
) -> Result<Op, ParseFault>
    ensures { Forms result (spec.create_with path.now mode.now replication.now over.now) }
{
    let path = path_word(alloc, path)?;
    let mode = mode_word(mode)?;
    let replication = replication_word(replication)?;
    let over = over_word(over)?;
    Ok(Op::Create(path, mode, replication, over))
}

fn append_of(alloc: Global, path: &str) -> Result<Op, ParseFault>
    ensures { Forms result (spec.append_of path.now) }
{
    let path = path_word(alloc, path)?;
    Ok(Op::Append(path))
}

fn addblock_of(alloc: Global, path: &str) -> Result<Op, ParseFault>
    ensures { Forms result (spec.addblock_of path.now) }
{
    let path = path_word(alloc, path)?;
    Ok(Op::AddBlock(path, None))
}

fn addblock_with(alloc: Global, path: &str, block: &str, bytes: &str) -> Result<Op, ParseFault>
    ensures { Forms result (spec.addblock_with path.now block.now bytes.now) }
{
    let path = path_word(alloc, path)?;
    let last = last_words(block, bytes)?;
    Ok(Op::AddBlock(path, Some(last)))
}

fn complete_of(alloc: Global, path: &str) -> Result<Op, ParseFault>
    ensures { Forms result (spec.complete_of path.now) }
{
    let path = path_word(alloc, path)?;
    Ok(Op::Complete(path, None))
}

fn complete_with(alloc: Global, path: &str, block: &str, bytes: &str) -> Result<Op, ParseFault>
    ensures { Forms result (spec.complete_with path.now block.now bytes.now) }
{
    let path = path_word(alloc, path)?;
    let last = last_words(block, bytes)?;
    Ok(Op::Complete(path, Some(last)))
}

fn open_of(alloc: Global, path: &str) -> Result<Op, ParseFault>
    ensures { Forms result (spec.open_of path.now) }
{
    let path = path_word(alloc, path)?;
    Ok(Op::Open(path))
}

fn setrep_of(alloc: Global, path: &str, replication: &str) -> Result<Op, ParseFault>
    ensures { Forms result (spec.setrep_of path.now replication.now) }
{
    let path = path_word(alloc, path)?;
    let replication = replication_word(replication)?;
    Ok(Op::SetReplication(path, replication))
}

fn rollkey_of(digits: &str) -> Result<Op, ParseFault>
    ensures { Forms result (spec.rollkey_of digits.now) }
{
    Ok(Op::RollKey(key_word(digits)?))
}

/// Whether a word switches something on or off.
fn switch_word(word: &str) -> Result<bool, ParseFault>
    ensures { Forms result (spec.switch_word word.now) }
{
    if is_word(word, "on") {
        Ok(true)
    } else if is_word(word, "off") {
        Ok(false)
    } else {
        Err(ParseFault::IllFormed(IllFormed::BadLine))
    }
}

fn permissions_of(word: &str) -> Result<Op, ParseFault>
    ensures { Forms result (spec.permissions_of word.now) }
{
    Ok(Op::SetChecking(switch_word(word)?))
}

fn op_of_none(verb: &str) -> Option<Result<Op, ParseFault>>
    ensures { FormsOption result (spec.op_of_none verb.now) }
{
    if is_word(verb, "renew") {
        Some(Ok(Op::Renew))
    } else if is_word(verb, "tick") {
        Some(Ok(Op::Tick))
    } else if is_word(verb, "heartbeat") {
        Some(Ok(Op::Heartbeat))
    } else {
        None
    }
}

/// The operation of a verb whose one word is no path.
fn op_without_path(verb: &str, word: &str) -> Option<Result<Op, ParseFault>>
    ensures { FormsOption result (spec.op_without_path verb.now word.now) }
{
    if is_word(verb, "rollkey") {
        Some(rollkey_of(word))
    } else if is_word(verb, "permissions") {
        Some(permissions_of(word))
    } else {
        None
    }
}

fn op_of_one(alloc: Global, verb: &str, word: &str) -> Option<Result<Op, ParseFault>>
    ensures { FormsOption result (spec.op_of_one verb.now word.now) }
{
    if is_word(verb, "stat") {
        Some(stat_of(alloc, word))
    } else if is_word(verb, "ls") {
        Some(ls_of(alloc, word))
    } else if is_word(verb, "du") {
        Some(du_of(alloc, word))
    } else if is_word(verb, "delete") {
        Some(delete_of(alloc, word))
    } else if is_word(verb, "getfacl") {
        Some(getfacl_of(alloc, word))
    } else if is_word(verb, "append") {
        Some(append_of(alloc, word))
    } else if is_word(verb, "addblock") {
        Some(addblock_of(alloc, word))
    } else if is_word(verb, "complete") {
        Some(complete_of(alloc, word))
    } else if is_word(verb, "open") {
        Some(open_of(alloc, word))
    } else {
        op_without_path(verb, word)
    }
}

fn op_of_two(alloc: Global, verb: &str, first: &str, second: &str) -> Option<Result<Op, ParseFault>>
    ensures { FormsOption result (spec.op_of_two verb.now first.now second.now) }
{
    if is_word(verb, "mkdirs") {
        Some(mkdirs_of(alloc, first, second))
    } else if is_word(verb, "delete") {
        Some(delete_with(alloc, first, second))
    } else if is_word(verb, "rename") {
        Some(rename_words(alloc, first, second))
    } else if is_word(verb, "chmod") {
        Some(chmod_of(alloc, first, second))
    } else if is_word(verb, "adduser") {
        Some(adduser_of(alloc, first, second))
    } else if is_word(verb, "groups") {
        Some(set_groups_of(alloc, first, second))
    } else if is_word(verb, "setrep") {
        Some(setrep_of(alloc, first, second))
    } else if is_word(verb, "setfacl") && !wants_spec(second) {
        Some(setfacl_of(alloc, first, second))
    } else {
        None
    }
}

fn op_of_three(
    alloc: Global,
    verb: &str,
    first: &str,
    second: &str,
    third: &str,
) -> Option<Result<Op, ParseFault>>
    ensures { FormsOption result (spec.op_of_three verb.now first.now second.now third.now) }
{
    if is_word(verb, "chown") {
        Some(chown_of(alloc, first, second, third))
    } else if is_word(verb, "create") {
        Some(create_of(alloc, first, second, third))
    } else if is_word(verb, "addblock") {
        Some(addblock_with(alloc, first, second, third))
    } else if is_word(verb, "complete") {
        Some(complete_with(alloc, first, second, third))
    } else if is_word(verb, "setfacl") && !wants_none(second) {
        Some(setfacl_with(alloc, first, second, third))
    } else {
        None
    }
}

fn op_of_four(
    alloc: Global,
    verb: &str,
    first: &str,
    second: &str,
    third: &str,
    fourth: &str,
) -> Option<Result<Op, ParseFault>>
    ensures { FormsOption result (spec.op_of_four verb.now first.now second.now third.now fourth.now) }
{
    if is_word(verb, "create") {
        Some(create_with(alloc, first, second, third, fourth))
    } else {
        None
    }
}

/// The operation that a verb and its words say; `None` where the verb is unknown or wants another number of words.
fn op_of(alloc: Global, verb: &str, words: &[&str]) -> Option<Result<Op, ParseFault>>
    ensures { FormsOption result (spec.op_of_words verb.now (map (λ word. word.now) words.now)) }
{
    match words {
        [] => op_of_none(verb),
        [word] => op_of_one(alloc, verb, word),
        [first, second] => op_of_two(alloc, verb, first, second),
        [first, second, third] => op_of_three(alloc, verb, first, second, third),
        [first, second, third, fourth] => op_of_four(alloc, verb, first, second, third, fourth),
        _ => None,
    }
}

/// Who asks, and when.
#[derive(Drop)]
struct Asker {
    caller: Who,
    moment: Moment,
}

fn asker_of(alloc: Global, moment: &str, caller: &str) -> Result<Asker, ParseFault>
    ensures { Forms result (spec.asker_of moment.now caller.now) }
{
    let moment = moment_word(moment)?;
    let caller = who_word(alloc, caller)?;
    Ok(Asker { caller, moment })
}

/// The request, where its operation was read.
fn asked_for(asker: Asker, op: Result<Op, ParseFault>) -> Result<Request, ParseFault>
    ensures { (said : Result Op IllFormed) → Forms op said → Forms result (spec.asked_for asker said) }
{
    match op {
        Ok(op) => Ok(Request {
            caller: asker.caller,
            moment: asker.moment,
            op,
        }),
        Err(fault) => Err(fault),
    }
}

/// The request, where both its parts were read.
fn request_by(
    asker: Result<Asker, ParseFault>,
    op: Result<Op, ParseFault>,
) -> Result<Request, ParseFault>
    ensures { (moment caller : List ℕ) → (said : Result Op IllFormed) → Forms asker (spec.asker_of moment caller) → Forms op said → Forms result (spec.request_with moment caller (Some said)) }
{
    match asker {
        Ok(asker) => asked_for(asker, op),
        Err(fault) => {
            drop(op);
            Err(fault)
        }
    }
}

/// The request that the words of a line make.
///
/// # Errors
/// `BadLine` for an unknown verb and a wrong number of words, before any word is judged; else how the first ill-formed word
/// is ill-formed, or out of memory.
pub fn request_of(alloc: Global, words: &[&str]) -> Result<Request, ParseFault>
    ensures { Forms result (spec.request_of (map (λ word. word.now) words.now)) }
{
    let [moment, caller, verb, others @ ..] = words else {
        return Err(ParseFault::IllFormed(IllFormed::BadLine));
    };
    let asker = asker_of(alloc, moment, caller);
    match op_of(alloc, verb, others) {
        Some(op) => request_by(asker, op),
        None => Err(ParseFault::IllFormed(IllFormed::BadLine)),
    }
}

/// The request that a line makes, or how the line is ill-formed.
///
/// # Errors
/// Out of memory.
pub fn read_line(alloc: Global, line: &str) -> Result<Result<Request, IllFormed>, AllocError>
    ensures { IfOk result (λ said. said ≡ spec.request_of (words_of line.now)) }
{
    let words = words_in(alloc, line)?;
    match request_of(alloc, &words) {
        Ok(request) => Ok(Ok(request)),
        Err(ParseFault::IllFormed(fault)) => Ok(Err(fault)),
        Err(ParseFault::OutOfMemory) => Err(AllocError),
    }
}
