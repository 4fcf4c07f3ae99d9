use crate::made::all_make;
use std::test::Fail;

static LOOKS: [(&str, &str); 3] = [
    ("7 ann stat /", "7 ann Stat /"),
    ("0 ann ls /a/b", "0 ann List /a/b"),
    ("0 ann du /", "0 ann Summary /"),
];

#[test]
fn lines_of_looks_make_requests(rt: HostRuntime) -> Result<(), Fail> {
    all_make(&rt, &LOOKS)
}

static CHANGES: [(&str, &str); 5] = [
    ("0 ann mkdirs /a 1777", "0 ann Mkdirs /a 1777"),
    ("0 ann delete /a", "0 ann Delete /a false"),
    ("0 ann delete /a recursive", "0 ann Delete /a true"),
    ("0 ann rename /a /b/c", "0 ann Rename /a /b/c"),
    ("0 ann chmod /a 7", "0 ann SetMode /a 0007"),
];

#[test]
fn lines_of_changes_make_requests(rt: HostRuntime) -> Result<(), Fail> {
    all_make(&rt, &CHANGES)
}

static OWNERS: [(&str, &str); 5] = [
    ("0 ann chown /a bob crew", "0 ann SetOwner /a bob crew"),
    ("0 ann chown /a - crew", "0 ann SetOwner /a (kept) crew"),
    ("0 ann chown /a bob -", "0 ann SetOwner /a bob (kept)"),
    ("0 ann chown /a - -", "0 ann SetOwner /a (kept) (kept)"),
    ("0 ann chown /a -- -b", "0 ann SetOwner /a -- -b"),
];

#[test]
fn lines_of_owners_make_requests(rt: HostRuntime) -> Result<(), Fail> {
    all_make(&rt, &OWNERS)
}

static NEW_USERS: [(&str, &str); 5] = [
    ("0 hdfs adduser bob g1", "0 hdfs AddUser bob |g1"),
    ("0 hdfs adduser bob g2,g1", "0 hdfs AddUser bob |g2|g1"),
    ("0 hdfs adduser bob -", "0 hdfs AddUser bob "),
    ("0 hdfs adduser - g1", "0 hdfs AddUser - |g1"),
    ("0 hdfs adduser bob -,g9", "0 hdfs AddUser bob |-|g9"),
];

#[test]
fn lines_of_new_users_make_requests(rt: HostRuntime) -> Result<(), Fail> {
    all_make(&rt, &NEW_USERS)
}

static GROUPS: [(&str, &str); 4] = [
    ("0 hdfs groups bob g1,g1", "0 hdfs SetGroups bob |g1|g1"),
    ("0 hdfs groups bob --", "0 hdfs SetGroups bob |--"),
    ("0 hdfs groups bob -", "0 hdfs SetGroups bob "),
    ("0 - groups - -", "0 - SetGroups - "),
];

#[test]
fn lines_of_groups_make_requests(rt: HostRuntime) -> Result<(), Fail> {
    all_make(&rt, &GROUPS)
}

static LISTS: [(&str, &str); 6] = [
    ("0 ann getfacl /a", "0 ann GetAcl /a"),
    ("0 ann setfacl /a default", "0 ann SetAcl /a RemoveDefault"),
    ("0 ann setfacl /a clear", "0 ann SetAcl /a Clear"),
    (
        "0 ann setfacl /a set user::rwx,group:-:r--",
        "0 ann SetAcl /a Set user::rwx group:-:r--",
    ),
    (
        "0 ann setfacl /a modify other::--x,default:mask::-w-",
        "0 ann SetAcl /a Modify other::--x default:mask::-w-",
    ),
    (
        "0 ann setfacl /a remove user:b,group:c:,default:other",
        "0 ann SetAcl /a Remove user:b:--- group:c:--- default:other::---",
    ),
];

#[test]
fn lines_of_access_control_lists_make_requests(rt: HostRuntime) -> Result<(), Fail> {
    all_make(&rt, &LISTS)
}
