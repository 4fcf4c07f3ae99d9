use file_paths::name::Name;
use file_paths::path::Path;
use hdfs_types::op::{Op, Request, is_look};
use hdfs_types::reply::{Names, Refusal};
use hdfs_values::fault::IllFormed;
use hdfs_values::groups::Groups;
use hdfs_values::ids::{BlockId, Serial};
use hdfs_values::moment::Moment;
use hdfs_values::who::Who;
use node_ids::node_id::{NodeId, node_of};
use permission_bits::mode::Mode;
use permission_bits::modes::Modes;
use permission_bits::rights::Rights;
use permission_specs::entry::{Entry, EntryKind, Scope};
use std::alloc::{AllocError, Global};

// The helpers answer none, or that it isn't so, where memory is out.

fn path_of(alloc: Global, text: &str) -> Option<Path> {
    Path::parse(alloc, text).ok()
}

fn is_text(text: Result<String, AllocError>, want: &str) -> bool {
    match text {
        Ok(text) => text.as_str() == want,
        Err(_) => false,
    }
}

fn is_parent(alloc: Global, path: &Path, parent: &Path) -> bool {
    match path.parent(alloc) {
        Ok(Some(found)) => found == *parent,
        _ => false,
    }
}

fn is_copy_parent(alloc: Global, path: &Path, parent: &Path) -> bool {
    match parent.clone() {
        Ok(copy) => is_parent(alloc, path, &copy),
        Err(_) => false,
    }
}

fn is_above(above: &Path, beneath: &Path) -> bool {
    beneath.is_under(above) && !above.is_under(beneath) && above.is_at_or_under(above)
}

fn are_parents(alloc: Global) -> Option<bool> {
    let a = path_of(alloc, "/a")?;
    let b = path_of(alloc, "/a/b")?;
    Some(is_copy_parent(alloc, &b, &a) && is_above(&a, &b))
}

fn is_root_without_parent(alloc: Global) -> bool {
    match Path::root(alloc).parent(alloc) {
        Ok(parent) => parent.is_none(),
        Err(_) => false,
    }
}

#[test]
fn paths_have_parents(rt: HostRuntime) {
    assert!(rt; are_parents(rt.alloc()) == Some(true));
    assert!(rt; is_root_without_parent(rt.alloc()));
}

fn is_before(alloc: Global, first: &str, second: &str) -> Option<bool> {
    let first = path_of(alloc, first)?;
    Some(first < path_of(alloc, second)?)
}

#[test]
fn paths_are_ordered_by_component(rt: HostRuntime) {
    assert!(rt; is_before(rt.alloc(), "/a/c", "/a-b") == Some(true));
    assert!(rt; is_before(rt.alloc(), "/a", "/a/c") == Some(true));
}

static NO_NODES: [&str; 7] = [
    "dn-0",
    "dn-01",
    "dn-",
    "dn-4294967296",
    "dn-1x",
    "DN-1",
    "hdfs",
];

fn is_node(alloc: Global, name: &str, node: Option<NodeId>) -> bool {
    match Who::parse(alloc, name) {
        Ok(who) => node_of(&who) == node,
        Err(_) => false,
    }
}

fn are_no_nodes(alloc: Global, names: &[&str]) -> bool {
    for name in names {
        if !is_node(alloc, name, None) {
            return false;
        }
    }
    true
}

fn is_last_node(alloc: Global, name: &str) -> bool {
    let last = NodeId::new(u32::MAX);
    last.is_some() && is_node(alloc, name, last)
}

#[test]
fn principals_of_nodes(rt: HostRuntime) {
    assert!(rt; are_no_nodes(rt.alloc(), &NO_NODES));
    assert!(rt; is_last_node(rt.alloc(), "dn-4294967295"));
}

fn are_moments_in_range() -> bool {
    Moment::new((1 << 62) + 1).is_none()
        && Moment::new(5).max(Moment::new(1 << 62)) == Moment::new(1 << 62)
}

fn are_ids_in_range() -> bool {
    Serial::new(4294967293).next() == Some(Serial::new(4294967294))
        && Serial::new(4294967294).next().is_none()
        && BlockId::new(9).get() == 9
}

#[test]
fn numbers_have_ranges(rt: HostRuntime) {
    assert!(rt; are_moments_in_range());
    assert!(rt; are_ids_in_range());
}

fn later(one: u64, other: u64) -> Option<u64> {
    let later = Moment::new(one)?.later(Moment::new(other)?);
    Some(later.milliseconds())
}

#[test]
fn the_later_moment_is_told(rt: HostRuntime) {
    assert!(rt; later(5, 9) == Some(9));
    assert!(rt; later(9, 5) == Some(9));
}

fn id_of(alloc: Global, name: &str) -> Option<u32> {
    match Who::parse(alloc, name) {
        Ok(who) => Some(node_of(&who)?.get()),
        Err(_) => None,
    }
}

#[test]
fn nodes_have_the_ids_of_their_principals(rt: HostRuntime) {
    assert!(rt; id_of(rt.alloc(), "dn-7") == Some(7));
}

fn are_same_without_sticky(text: &str, other: &str) -> bool {
    match (Mode::parse(text), Mode::parse(other)) {
        (Ok(mode), Ok(other)) => mode.without_sticky() == other,
        _ => false,
    }
}

#[test]
fn modes_lose_the_sticky_bit_alone(rt: HostRuntime) {
    assert!(rt; are_same_without_sticky("1754", "754"));
}

fn two_names(alloc: Global) -> Option<Names> {
    let first = Name::parse(alloc, "b").ok()?;
    let second = Name::parse(alloc, "a").ok()?;
    Some(Names::new(vec![in alloc; first, second].ok()?))
}

fn are_lent(names: &Names) -> bool {
    let lent = names.as_slice();
    lent.len() == 2 && lent[0].as_str() == "b" && lent[1].as_str() == "a"
}

fn are_two_lent(alloc: Global) -> bool {
    match two_names(alloc) {
        Some(names) => are_lent(&names),
        None => false,
    }
}

#[test]
fn names_are_lent_in_their_order(rt: HostRuntime) {
    assert!(rt; are_two_lent(rt.alloc()));
}

fn is_refusal(alloc: Global, refusal: &Refusal, code: u8, text: &str) -> bool {
    refusal.code() == code && is_text(refusal.to_string(alloc), text)
}

fn is_file_told(alloc: Global) -> bool {
    let Some(path) = path_of(alloc, "/d/f") else {
        return false;
    };
    let file = Refusal::NotDirectory(path);
    let is_told = is_refusal(alloc, &file, 3, "3 NotDirectory /d/f");
    drop(file);
    is_told
}

#[test]
fn codes_are_those_of_the_texts(rt: HostRuntime) {
    assert!(rt; IllFormed::BadName.code() == 19);
    assert!(rt; is_file_told(rt.alloc()));
}

static RIGHTS: [&str; 8] = ["---", "--x", "-w-", "-wx", "r--", "r-x", "rw-", "rwx"];

fn are_rights(alloc: Global, texts: &[&str]) -> bool {
    for text in texts {
        let Some(rights) = Rights::parse(text) else {
            return false;
        };
        if !is_text(rights.to_string(alloc), text) {
            return false;
        }
    }
    true
}

#[test]
fn rights_are_read_and_printed(rt: HostRuntime) {
    assert!(rt; are_rights(rt.alloc(), &RIGHTS));
    assert!(rt; Rights::parse("xwr").is_none() && Rights::parse("rw").is_none());
}

fn are_modes(alloc: Global, bits: u8, text: &str) -> bool {
    match Modes::of_bits(bits) {
        Some(modes) => is_text(modes.to_string(alloc), text),
        None => false,
    }
}

#[test]
fn modes_of_tokens(rt: HostRuntime) {
    assert!(rt; are_modes(rt.alloc(), 3, "rw"));
    assert!(rt; Modes::of_bits(0).is_none() && Modes::of_bits(4).is_none());
}

fn copied_text(alloc: Global, entry: &Entry) -> Result<String, AllocError> {
    let copy = entry.clone()?;
    let text = copy.to_string(alloc);
    drop(copy);
    text
}

fn is_bruces_copied(alloc: Global) -> bool {
    let Ok(bruce) = Who::parse(alloc, "bruce") else {
        return false;
    };
    let entry = Entry {
        scope: Scope::Default,
        kind: EntryKind::User,
        name: Some(bruce),
        rights: Rights::READ,
    };
    let is_copied = is_text(copied_text(alloc, &entry), "default:user:bruce:r--");
    drop(entry);
    is_copied
}

#[test]
fn entries_are_copied_and_printed(rt: HostRuntime) {
    assert!(rt; is_bruces_copied(rt.alloc()));
}

fn is_copy_a_look(request: &Request) -> Result<bool, AllocError> {
    let copy = request.clone()?;
    let is_look = is_look(&copy.op);
    drop(copy);
    Ok(is_look)
}

fn anns_request(alloc: Global) -> Option<Request> {
    let moment = Moment::new(3)?;
    let mode = Mode::parse("700").ok()?;
    let caller = Who::parse(alloc, "ann").ok()?;
    let path = path_of(alloc, "/a")?;
    Some(Request {
        caller,
        moment,
        op: Op::Mkdirs(path, mode),
    })
}

fn is_change_copied(alloc: Global) -> bool {
    match anns_request(alloc) {
        Some(request) => is_copy_a_look(&request) == Ok(false),
        None => false,
    }
}

fn are_no_groups_copied(alloc: Global) -> bool {
    match Groups::new(Vec::new(alloc)).clone() {
        Ok(copy) => copy.into_vec().len() == 0,
        Err(_) => false,
    }
}

#[test]
fn requests_and_groups_are_copied(rt: HostRuntime) {
    assert!(rt; is_change_copied(rt.alloc()));
    assert!(rt; are_no_groups_copied(rt.alloc()));
}
