ghost use Rattle.std.specs.Prelude.{◌≡◌, true};
ghost use Rattle.hdfs_types.specs.Request.{is_look};

use file_paths::path::Path;
use flat_rows::decision::verdict;
use flat_rows::denial::{Denial, granted};
use flat_rows::verdict::Verdict;
use fs_operations::apply::answer_look;
use hdfs_types::op::{Op, Request};
use hdfs_types::reply::Reply;
use hdfs_values::groups::Groups;
use hdfs_values::who::Who;
use inode_tree::tree::Tree;
use namespace_rows::rows::Rows;
use principals::users::Users;
use required_rights::demand::{Demand, Enforcement};
use script_text::line::request_of;
use std::alloc::{AllocError, Global};

// These have no clauses, so that no proof of a test computes what they read. They answer none where memory is out.

fn path_of(alloc: Global, text: &str) -> Option<Path> {
    Path::parse(alloc, text).ok()
}

fn read(alloc: Global, line: &str) -> Option<Request> {
    let words: Vec<&str> = line.split(' ').collect(alloc).ok()?;
    request_of(alloc, &words).ok()
}

fn who_of(alloc: Global, text: &str) -> Option<Who> {
    Who::parse(alloc, text).ok()
}

/// The rows of a new namespace.
fn opening_rows(alloc: Global) -> Option<Rows> {
    let superuser = who_of(alloc, "hdfs")?;
    Rows::new(alloc, &superuser, &who_of(alloc, "supergroup")?).ok()
}

/// A new namespace.
fn opening_tree(alloc: Global) -> Option<Tree> {
    Some(Tree::new(alloc, who_of(alloc, "hdfs")?, who_of(alloc, "supergroup")?))
}

fn bobs_groups(alloc: Global) -> Option<Groups> {
    let group = who_of(alloc, "g1")?;
    Some(Groups::new(vec![in alloc; group].ok()?))
}

fn add_bob(alloc: Global, users: &mut Users) -> Option<bool> {
    let bob = who_of(alloc, "bob")?;
    Some(users.add(bob, bobs_groups(alloc)?).is_ok())
}

fn opening_users(alloc: Global) -> Option<Users> {
    let superuser = who_of(alloc, "hdfs")?;
    Some(Users::new(alloc, superuser, who_of(alloc, "supergroup")?))
}

/// The users of a namespace: `bob`, who is no superuser, has the group `g1`.
fn users_with_bob(alloc: Global) -> Option<Users> {
    let mut users = opening_users(alloc)?;
    if add_bob(alloc, &mut users) != Some(true) {
        drop(users);
        return None;
    }
    Some(users)
}

fn are_supers(users: &Users) -> bool {
    users.superuser().as_str() == "hdfs" && users.supergroup().as_str() == "supergroup"
}

fn are_supers_told(alloc: Global) -> bool {
    match users_with_bob(alloc) {
        Some(users) => are_supers(&users),
        None => false,
    }
}

#[test]
fn users_tell_who_is_above_all(rt: HostRuntime) {
    assert!(rt; are_supers_told(rt.alloc()));
}

/// What denies a line's request.
fn denial_by(alloc: Global, rows: &Rows, users: &Users, line: &str) -> Option<Denial> {
    let request = read(alloc, line)?;
    let denial = verdict(alloc, rows, users, &request.caller, &request.op);
    drop(request);
    denial.ok()?
}

/// What denies `bob` a directory in the root.
fn bobs_denial_by(alloc: Global, rows: &Rows) -> Option<Denial> {
    let users = users_with_bob(alloc)?;
    let denial = denial_by(alloc, rows, &users, "0 bob mkdirs /z 755");
    drop(users);
    denial
}

fn bobs_denial(alloc: Global) -> Option<Denial> {
    let rows = opening_rows(alloc)?;
    let denial = bobs_denial_by(alloc, &rows);
    drop(rows);
    denial
}

fn is_text(text: Result<String, AllocError>, want: &str) -> bool {
    match text {
        Ok(text) => text.as_str() == want,
        Err(_) => false,
    }
}

fn decided(alloc: Global, denial: &Denial) -> Result<String, AllocError> {
    let (path, need, by) = (denial.path(), denial.need(), denial.by());
    format!(in alloc; "{path} {need} {by}")
}

fn is_bobs_decided(alloc: Global, want: &str) -> bool {
    let Some(denial) = bobs_denial(alloc) else {
        return false;
    };
    let text = decided(alloc, &denial);
    drop(denial);
    is_text(text, want)
}

#[test]
fn denials_tell_what_decided(rt: HostRuntime) {
    assert!(rt; is_bobs_decided(rt.alloc(), "/ -w- other::r-x"));
}

/// Whether it is granted, the owner of the row, the caller, and of how many groups.
fn evidence(alloc: Global, denial: &Denial) -> Result<String, AllocError> {
    let granted = granted(denial);
    let (owner, caller) = (&denial.row().owner, denial.caller());
    let count = denial.groups().len();
    format!(in alloc; "{granted} {owner} {caller} {count}")
}

fn is_bobs_evidence(alloc: Global, want: &str) -> bool {
    let Some(denial) = bobs_denial(alloc) else {
        return false;
    };
    let text = evidence(alloc, &denial);
    drop(denial);
    is_text(text, want)
}

#[test]
fn denials_keep_their_evidence(rt: HostRuntime) {
    assert!(rt; is_bobs_evidence(rt.alloc(), "false hdfs bob 1"));
}

fn of_removal(path: &Path) -> Enforcement {
    Demand::removal(path).enforcement()
}

fn of_ownership(path: &Path) -> Enforcement {
    Demand::ownership(path).enforcement()
}

fn are_enforced(alloc: Global) -> bool {
    match path_of(alloc, "/a") {
        Some(path) => {
            of_removal(&path) == Enforcement::WhileChecking
                && of_ownership(&path) == Enforcement::Always
        }
        None => false,
    }
}

#[test]
fn demands_tell_when_they_are_judged(rt: HostRuntime) {
    assert!(rt; are_enforced(rt.alloc()));
}

/// The status or the refusal that is told.
fn text_of(alloc: Global, verdict: &Verdict) -> Result<String, AllocError> {
    match verdict {
        Verdict::Done(Reply::Status(status)) => status.status().to_string(alloc),
        Verdict::Refused(refusal) => refusal.to_string(alloc),
        _ => Ok(String::new(alloc)),
    }
}

/// What a caller is told by a look that lends the tree. Of what the next functions make, each drops one value that is large.
fn looked(
    alloc: Global,
    tree: &Tree,
    users: &Users,
    caller: &Who,
    op: &Op,
) -> Result<String, AllocError>
    requires { is_look op.now ≡ true }
{
    let verdict = answer_look(alloc, tree, users, caller, op)?;
    let text = text_of(alloc, &verdict);
    drop(verdict);
    text
}

fn is_told_to_bob(alloc: Global, tree: &Tree, op: &Op, want: &str) -> Option<bool>
    requires { is_look op.now ≡ true }
{
    let bob = who_of(alloc, "bob")?;
    let users = users_with_bob(alloc)?;
    let told = looked(alloc, tree, &users, &bob, op);
    drop(users);
    Some(is_text(told, want))
}

/// Whether `bob` is told this of a path.
fn is_status_for_bob(alloc: Global, tree: &Tree, path: &str, want: &str) -> bool {
    let Some(path) = path_of(alloc, path) else {
        return false;
    };
    let op = Op::Stat(path);
    let is_told = is_told_to_bob(alloc, tree, &op, want);
    drop(op);
    is_told == Some(true)
}

fn are_looks_of(alloc: Global, tree: &Tree) -> bool {
    is_status_for_bob(alloc, tree, "/", "dir 0755 hdfs supergroup")
        && is_status_for_bob(alloc, tree, "/x", "2 NotFound")
}

fn are_looks_answered(alloc: Global) -> bool {
    let Some(tree) = opening_tree(alloc) else {
        return false;
    };
    let are_answered = are_looks_of(alloc, &tree);
    drop(tree);
    are_answered
}

#[test]
fn looks_are_answered_over_what_is_lent(rt: HostRuntime) {
    assert!(rt; are_looks_answered(rt.alloc()));
}
