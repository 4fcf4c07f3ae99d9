use hdfs_values::fault::ParseFault;
use permission_specs::spec::Spec;
use permission_specs::spec_text::parse_spec;
use std::alloc::{AllocError, Global};

// A test is one assertion on what a helper answers of a table, or out of memory is a wrong answer: what each `?` of a test would
// add, the gate proves once more.

/// The entries, each behind a blank.
fn shown(alloc: Global, spec: &Spec) -> Result<String, AllocError> {
    let mut shown = String::new(alloc);
    for entry in spec.as_slice() {
        let entry = format!(in alloc; " {entry}")?;
        shown.push_str(entry.as_str())?;
    }
    Ok(shown)
}

/// The entries, or how the text is ill-formed. It has no clauses, so that no proof of a test computes it.
fn told(alloc: Global, text: &str, with_rights: bool) -> Result<String, AllocError> {
    match parse_spec(alloc, text, with_rights) {
        Ok(spec) => shown(alloc, &spec),
        Err(fault) => told_fault(alloc, fault),
    }
}

fn told_fault(alloc: Global, fault: ParseFault) -> Result<String, AllocError> {
    match fault {
        ParseFault::IllFormed(fault) => fault.to_string(alloc),
        ParseFault::OutOfMemory => "out of memory".to_string(alloc),
    }
}

fn is_told(alloc: Global, text: &str, with_rights: bool, want: &str) -> bool {
    match told(alloc, text, with_rights) {
        Ok(told) => told.as_str() == want,
        Err(_) => false,
    }
}

/// Whether each of the texts is read so.
fn all_told(alloc: Global, with_rights: bool, texts: &[&str], want: &str) -> bool {
    for text in texts {
        if !is_told(alloc, text, with_rights, want) {
            return false;
        }
    }
    true
}

/// Each scope and type, with a name and without, and all rights.
static ENTRIES: [&str; 24] = [
    "user::rwx",
    "user:bruce:rw-",
    "user:-:r-x",
    "user:user:r--",
    "user:default:-wx",
    "user:dn-1:-w-",
    "user:[}~!:--x",
    "group::---",
    "group:bruce:rwx",
    "group:mask:rwx",
    "mask::rwx",
    "other::---",
    "default:user::rwx",
    "default:user:bruce:rw-",
    "default:user:default:r-x",
    "default:group::r--",
    "default:group:sales:-wx",
    "default:group:other:-w-",
    "default:mask::--x",
    "default:other::---",
    "user:-----:---",
    "user:rwx:rwx",
    "group:---:r--",
    "group:0:r--",
];

/// Whether the text is read as it is printed.
fn is_read(alloc: Global, text: &str) -> bool {
    match format!(in alloc; " {text}") {
        Ok(want) => is_told(alloc, text, true, want.as_str()),
        Err(_) => false,
    }
}

fn are_read(alloc: Global, texts: &[&str]) -> bool {
    for text in texts {
        if !is_read(alloc, text) {
            return false;
        }
    }
    true
}

#[test]
fn entries_with_rights_are_read_as_they_are_printed(rt: HostRuntime) {
    assert!(rt; are_read(rt.alloc(), &ENTRIES));
}

/// The texts, each behind this one.
fn each_behind(alloc: Global, front: &str, texts: &[&str]) -> Result<String, AllocError> {
    let mut all = String::new(alloc);
    for text in texts {
        all.push_str(front)?;
        all.push_str(text)?;
    }
    Ok(all)
}

fn told_together(alloc: Global, texts: &[&str]) -> Result<String, AllocError> {
    let all = each_behind(alloc, ",", texts)?;
    told(alloc, all.as_str().strip_prefix(",").unwrap_or(""), true)
}

fn are_read_together(alloc: Global, texts: &[&str]) -> bool {
    match (told_together(alloc, texts), each_behind(alloc, " ", texts)) {
        (Ok(told), Ok(want)) => told.as_str() == want.as_str(),
        _ => false,
    }
}

/// All of them as one spec.
#[test]
fn entries_of_every_kind_are_read_together(rt: HostRuntime) {
    assert!(rt; are_read_together(rt.alloc(), &ENTRIES));
}

static WITHOUT_RIGHTS: [(&str, &str); 16] = [
    ("user", " user::---"),
    ("user:", " user::---"),
    ("user:b", " user:b:---"),
    ("user:b:", " user:b:---"),
    ("user:-", " user:-:---"),
    ("user:rwx", " user:rwx:---"),
    ("group", " group::---"),
    ("group:g:", " group:g:---"),
    ("mask", " mask::---"),
    ("mask:", " mask::---"),
    ("other:", " other::---"),
    ("default:user", " default:user::---"),
    ("default:user:default", " default:user:default:---"),
    ("default:other:", " default:other::---"),
    (
        "default:group:g:,mask,default:other:,group:default",
        " default:group:g:--- mask::--- default:other::--- group:default:---",
    ),
    (
        "user,user:b,group:b,default:user,default:user:b",
        " user::--- user:b:--- group:b:--- default:user::--- default:user:b:---",
    ),
];

fn are_told(alloc: Global, table: &[(&str, &str)]) -> bool {
    for (text, want) in table {
        if !is_told(alloc, text, false, want) {
            return false;
        }
    }
    true
}

#[test]
fn entries_without_rights(rt: HostRuntime) {
    assert!(rt; are_told(rt.alloc(), &WITHOUT_RIGHTS));
}

static MISSPELLED_WITH_RIGHTS: [&str; 40] = [
    "",
    ",",
    ":",
    "::",
    "::rwx",
    ":b:rwx",
    "user",
    "user:",
    "user::",
    "user:b",
    "user:b:",
    "user:rwx",
    "user::rwx:",
    "user:b:rwx:",
    "user::b:rwx",
    ":user::rwx",
    "user::rw",
    "user::rwxx",
    "user::rwz",
    "user::RWX",
    "user::xwr",
    "user::r-w",
    "user:: rwx",
    "user::7",
    "User::rwx",
    "users::rwx",
    "use::rwx",
    "owner::rwx",
    " user::rwx",
    "user:a/b:rwx",
    "user:a b:rwx",
    "user:\u{e9}:rwx",
    "default",
    "default:",
    "default::rwx",
    "default:default:user::rwx",
    "Default:user::rwx",
    "user::rwx,",
    ",user::rwx",
    "user::rwx,,group::rwx",
];

#[test]
fn misspelled_entries_with_rights(rt: HostRuntime) {
    assert!(rt; all_told(rt.alloc(), true, &MISSPELLED_WITH_RIGHTS, "9 BadAcl Form"));
}

static MISSPELLED_WITHOUT_RIGHTS: [&str; 24] = [
    "",
    ",",
    ":",
    "user::",
    "user::b",
    "user:b::",
    "user:b:rwx",
    "user::rwx",
    "mask::",
    "mask::rwx",
    "USER",
    "users",
    "owner",
    "user:a/b",
    "user:a b:",
    "b",
    "default",
    "default:",
    "default::",
    "default:b",
    "default:default:user",
    "user,",
    ",user",
    "user,,group",
];

#[test]
fn misspelled_entries_without_rights(rt: HostRuntime) {
    assert!(rt;
        all_told(
            rt.alloc(),
            false,
            &MISSPELLED_WITHOUT_RIGHTS,
            "9 BadAcl Form"
        )
    );
}

static DOUBLED_WITH_RIGHTS: [&str; 5] = [
    "user::rwx,user::r--",
    "user::rwx,user::rwx",
    "user:b:rwx,group::r--,user:b:rwx",
    "default:mask::r--,mask::r--,default:mask::rwx",
    "default:group:b:r--,group:b:r--,default:group:b:---",
];

static DOUBLED_WITHOUT_RIGHTS: [&str; 5] = [
    "user:,user",
    "user:b:,user:b",
    "other,mask,other",
    "default:user,user,default:user:",
    "mask:x,mask:x",
];

/// The same scope, type and name stand once, whatever their rights and however they are spelled.
#[test]
fn entries_stand_once(rt: HostRuntime) {
    assert!(rt; all_told(rt.alloc(), true, &DOUBLED_WITH_RIGHTS, "9 BadAcl Duplicate"));
    assert!(rt;
        all_told(
            rt.alloc(),
            false,
            &DOUBLED_WITHOUT_RIGHTS,
            "9 BadAcl Duplicate"
        )
    );
}

static NAMED_WITH_RIGHTS: [&str; 4] = [
    "mask:x:rwx",
    "other:x:rwx",
    "default:mask:x:rwx",
    "user::rwx,default:other:x:rwx",
];

static NAMED_WITHOUT_RIGHTS: [&str; 4] = [
    "mask:x",
    "other:x:",
    "default:mask:x",
    "user,default:other:x:",
];

#[test]
fn masks_and_others_have_no_name(rt: HostRuntime) {
    assert!(rt; all_told(rt.alloc(), true, &NAMED_WITH_RIGHTS, "9 BadAcl NamedBase"));
    assert!(rt;
        all_told(
            rt.alloc(),
            false,
            &NAMED_WITHOUT_RIGHTS,
            "9 BadAcl NamedBase"
        )
    );
}

static ILL_FORMED_FIRST: [&str; 2] = [
    "mask:x:rwx,user::rwx,user::r--,frob",
    "user::rwx,user::r--,user:b",
];

static DOUBLED_FIRST: [&str; 3] = [
    "mask:x:rwx,user::rwx,user::r--",
    "mask:x:rwx,mask:x:rwx",
    "mask:x:rwx,other:x:rwx,group:x:r--,group:x:---",
];

/// The whole text is tested for each kind of fault before the next one.
#[test]
fn faults_of_entries_have_an_order(rt: HostRuntime) {
    assert!(rt; all_told(rt.alloc(), true, &ILL_FORMED_FIRST, "9 BadAcl Form"));
    assert!(rt; all_told(rt.alloc(), true, &DOUBLED_FIRST, "9 BadAcl Duplicate"));
}

/// An entry whose name has so many letters.
fn entry_named(alloc: Global, count: usize) -> Result<String, AllocError> {
    let mut text = String::new(alloc);
    text.push_str("user:")?;
    for _ in 0..count {
        text.push_str("a")?;
    }
    text.push_str(":rwx")?;
    Ok(text)
}

fn is_limit(alloc: Global, count: usize) -> bool {
    match (
        entry_named(alloc, count),
        entry_named(alloc, count.wrapping_add(1)),
    ) {
        (Ok(most), Ok(more)) => {
            is_read(alloc, most.as_str()) && is_told(alloc, more.as_str(), true, "9 BadAcl Form")
        }
        _ => false,
    }
}

/// An ill-formed name is an ill-formed entry. A name has at most 255 bytes.
#[test]
fn names_of_entries_have_a_limit(rt: HostRuntime) {
    assert!(rt; is_limit(rt.alloc(), 255));
}

/// Entries of 100000 users, and one of them once more.
fn many_entries(alloc: Global) -> Result<String, AllocError> {
    let mut text = String::new(alloc);
    for i in 0..100000u32 {
        let entry = format!(in alloc; "user:u{i}:rwx,")?;
        text.push_str(entry.as_str())?;
    }
    text.push_str("user:u7:r--")?;
    Ok(text)
}

fn are_many_read(alloc: Global) -> bool {
    match many_entries(alloc) {
        Ok(text) => is_told(alloc, text.as_str(), true, "9 BadAcl Duplicate"),
        Err(_) => false,
    }
}

/// A comparison of each entry with each other would take minutes.
#[test]
fn many_entries_are_read(rt: HostRuntime) {
    assert!(rt; are_many_read(rt.alloc()));
}
