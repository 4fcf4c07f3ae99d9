use crate::made::{all_make, are_bad_lines};
use std::test::Fail;

/// Numbers of words that the verb doesn't take. The words are ill-formed too, which is judged later.
static COUNTS: [&str; 18] = [
    "0 a:b create /.. 888",
    "0 a:b create /.. 888 77 under under",
    "0 a:b append",
    "0 a:b append /.. /..",
    "0 a:b addblock",
    "0 a:b addblock /.. x",
    "0 a:b addblock /.. x x x",
    "0 a:b complete",
    "0 a:b complete /.. x",
    "0 a:b complete /.. x x x",
    "0 a:b open",
    "0 a:b open /.. /..",
    "0 a:b setrep /..",
    "0 a:b setrep /.. 77 77",
    "0 a:b renew /..",
    "0 a:b tick /..",
    "0 a:b ticks",
    "0 a:b Renew",
];

#[test]
fn verbs_of_files_count_their_words(rt: HostRuntime) -> Result<(), Fail> {
    are_bad_lines(&rt, &COUNTS)
}

/// Requests, and words that are ill-formed, alone and before another.
static SAID: [(&str, &str); 47] = [
    ("7 ann create /a 1644 3", "7 ann Create /a 1644 3 false"),
    ("0 ann create /a 0 016 over", "0 ann Create /a 0000 16 true"),
    ("0 ann append /a", "0 ann Append /a"),
    ("0 ann addblock /a", "0 ann AddBlock /a (none)"),
    ("0 ann addblock /a 7 009", "0 ann AddBlock /a 7 9"),
    ("0 ann complete /a", "0 ann Complete /a (none)"),
    (
        "0 ann complete /a 0 18446744073709551615",
        "0 ann Complete /a 0 18446744073709551615",
    ),
    ("0 ann open /a/b", "0 ann Open /a/b"),
    ("0 ann setrep /a 01", "0 ann SetReplication /a 1"),
    ("4611686018427387904 - renew", "4611686018427387904 - Renew"),
    ("0 ann tick", "0 ann Tick"),
    ("0 dn-1 heartbeat", "0 dn-1 Heartbeat"),
    ("0 dn-1 heartbeat 1", "0 BadLine"),
    (
        "0 ann rollkey 00112233445566778899aAbBcCdDeEfF00112233",
        "0 ann RollKey 00112233445566778899aabbccddeeff00112233",
    ),
    (
        "0 ann rollkey 00112233445566778899aAbBcCdDeEfF0011223",
        "0 BadLine",
    ),
    (
        "0 ann rollkey 00112233445566778899aAbBcCdDeEfF001122",
        "0 BadLine",
    ),
    (
        "0 ann rollkey 00112233445566778899aAbBcCdDeEfF0011223344",
        "0 BadLine",
    ),
    (
        "0 ann rollkey 00112233445566778899aAbBcCdDeEfF0011223g",
        "0 BadLine",
    ),
    ("0 ann rollkey ", "0 BadLine"),
    ("0 ann create /.. 999 77", "1 BadPath"),
    ("0 ann create /.. 999 77 under", "1 BadPath"),
    ("0 ann create /a 999 77", "20 BadMode"),
    ("0 ann create /a 999 77 under", "20 BadMode"),
    ("0 ann create /a 644 17", "0 BadLine"),
    ("0 ann create /a 644 0", "0 BadLine"),
    ("0 ann create /a 644 256", "0 BadLine"),
    ("0 ann create /a 644 257", "0 BadLine"),
    ("0 ann create /a 644 x", "0 BadLine"),
    ("0 ann create /a 644 -", "0 BadLine"),
    ("0 ann create /a 644 1 under", "0 BadLine"),
    ("0 ann create /a 644 1 Over", "0 BadLine"),
    ("0 ann append a", "1 BadPath"),
    ("0 ann addblock /.. x x", "1 BadPath"),
    ("0 ann addblock /a x 1", "0 BadLine"),
    ("0 ann addblock /a 1 x", "0 BadLine"),
    ("0 ann addblock /a 1 18446744073709551616", "0 BadLine"),
    ("0 ann addblock /a 18446744073709551616 1", "0 BadLine"),
    ("0 ann complete /.. x x", "1 BadPath"),
    ("0 ann complete /a +1 1", "0 BadLine"),
    ("0 ann complete /a 1 -1", "0 BadLine"),
    ("0 ann open /a/", "1 BadPath"),
    ("0 ann setrep /.. 17", "1 BadPath"),
    ("0 ann setrep /a 17", "0 BadLine"),
    ("x a:b renew", "0 BadLine"),
    ("0 a:b renew", "19 BadName"),
    ("4611686018427387905 ann tick", "0 BadLine"),
    ("0 a,b tick", "19 BadName"),
];

#[test]
fn lines_of_files_make_requests(rt: HostRuntime) -> Result<(), Fail> {
    all_make(&rt, &SAID)
}
