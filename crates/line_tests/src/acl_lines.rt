use crate::made::{all_make, are_bad_lines};
use std::test::Fail;

/// Numbers of words that the form doesn't take. The words are ill-formed too, which is judged later.
static COUNTS: [&str; 13] = [
    "0 a:b getfacl",
    "0 a:b getfacl /.. /..",
    "0 a:b setfacl",
    "0 a:b setfacl /..",
    "0 a:b setfacl /.. set",
    "0 a:b setfacl /.. modify",
    "0 a:b setfacl /.. remove",
    "0 a:b setfacl /.. default frob",
    "0 a:b setfacl /.. clear frob",
    "0 a:b setfacl /.. set frob frob",
    "0 a:b setfacl /.. modify frob frob",
    "0 a:b setfacl /.. clear frob frob",
    "0 a:b setfacl /.. frob frob frob",
];

#[test]
fn the_form_says_how_many_words_there_are(rt: HostRuntime) -> Result<(), Fail> {
    are_bad_lines(&rt, &COUNTS)
}

/// Words that are ill-formed, alone and before another. A form that is none of the five is such a word.
static FAULTS: [(&str, &str); 24] = [
    ("x a:b getfacl /..", "0 BadLine"),
    ("0 a:b getfacl /..", "19 BadName"),
    ("0 ann getfacl /..", "1 BadPath"),
    ("0 a:b setfacl /.. frob", "19 BadName"),
    ("0 ann setfacl /.. frob", "1 BadPath"),
    ("0 ann setfacl /.. frob frob", "1 BadPath"),
    ("0 ann setfacl / frob", "0 BadLine"),
    ("0 ann setfacl / frob mask:x:rwx", "0 BadLine"),
    ("0 ann setfacl / Set user::rwx", "0 BadLine"),
    ("0 ann setfacl / Clear", "0 BadLine"),
    ("0 ann setfacl / defaults", "0 BadLine"),
    ("x a:b setfacl /.. set frob", "0 BadLine"),
    ("0 a:b setfacl /.. set frob", "19 BadName"),
    ("0 ann setfacl /.. set frob", "1 BadPath"),
    ("0 ann setfacl / set frob", "9 BadAcl Form"),
    ("0 ann setfacl / set user", "9 BadAcl Form"),
    ("0 ann setfacl / modify user:", "9 BadAcl Form"),
    ("0 ann setfacl / modify user:a/b:rwx", "9 BadAcl Form"),
    ("0 ann setfacl / remove user:b:rwx", "9 BadAcl Form"),
    (
        "0 ann setfacl / set user::rwx,user::r--",
        "9 BadAcl Duplicate",
    ),
    ("0 ann setfacl / remove mask,mask:", "9 BadAcl Duplicate"),
    ("0 ann setfacl / modify mask:x:rwx", "9 BadAcl NamedBase"),
    (
        "0 ann setfacl / remove default:other:x",
        "9 BadAcl NamedBase",
    ),
    (
        "0 ann setfacl / set mask:x:rwx,mask:x:rwx,frob",
        "9 BadAcl Form",
    ),
];

#[test]
fn the_first_ill_formed_word_of_setfacl_counts(rt: HostRuntime) -> Result<(), Fail> {
    all_make(&rt, &FAULTS)
}
