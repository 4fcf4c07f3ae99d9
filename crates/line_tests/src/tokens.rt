use script_text::token::show_token;
use std::alloc::{AllocError, Global};
use std::test::Fail;

// The tokens and their lines were made by Python's `struct` and `hmac`.

/// Whether this is printed of a text, and whether as a malformed one. It has no clauses, so that no proof computes lines.
fn is_shown(
    alloc: Global,
    digits: &str,
    text: &str,
    is_malformed: bool,
) -> Result<bool, AllocError> {
    let line = show_token(alloc, digits)?;
    Ok(line.text.as_str() == text && line.is_malformed == is_malformed)
}

/// Fails where another line is printed of a text, or it as that of a malformed one or not.
fn shows(alloc: Global, digits: &str, text: &str, is_malformed: bool) -> Result<(), Fail> {
    if is_shown(alloc, digits, text, is_malformed)? {
        return Ok(());
    }
    Err(Fail::new(format_args!("of {digits}")))
}

/// Fails where a text isn't a token's, with the line beside it.
fn are_shown(rt: &HostRuntime, table: &[(&str, &str)]) -> Result<(), Fail> {
    for (digits, text) in table {
        shows(rt.alloc(), digits, text, false)?;
    }
    Ok(())
}

/// Fails where a text is a token's.
fn are_malformed(rt: &HostRuntime, table: &[&str]) -> Result<(), Fail> {
    for digits in table {
        shows(rt.alloc(), digits, "T1 Malformed", true)?;
    }
    Ok(())
}

static SHOWN: [(&str, &str); 3] = [
    (
        "0100000000022551640000000100000000000000010103626f620000000000000000000000000000000000000000",
        "version 1 expiry 36000100 serial 1 block 1 modes r- user bob code 0000000000000000000000000000000000000000",
    ),
    (
        "0100000000022551640000000700000000000003e90205616c69636509f3aab3bcd3151b510c22dd83dd1793e8c08719",
        "version 1 expiry 36000100 serial 7 block 1001 modes -w user alice code 09f3aab3bcd3151b510c22dd83dd1793e8c08719",
    ),
    (
        "01ffffffffffffffffffffffffffffffffffffffff0306217e3b2d5f7aa4dad6d5fe23d645fb004d1499f3150b01e02cf5",
        "version 1 expiry 18446744073709551615 serial 4294967295 block 18446744073709551615 modes rw user !~;-_z code a4dad6d5fe23d645fb004d1499f3150b01e02cf5",
    ),
];

#[test]
fn tokens_are_shown(rt: HostRuntime) -> Result<(), Fail> {
    are_shown(&rt, &SHOWN)
}

const LINE: &str =
    "version 1 expiry 36000100 serial 7 block 1001 modes -w user alice code 09f3aab3bcd3151b510c22dd83dd1793e8c08719";

static IN_CAPITALS: [(&str, &str); 2] = [
    (
        "0100000000022551640000000700000000000003E90205616C69636509F3AAB3BCD3151B510C22DD83DD1793E8C08719",
        LINE,
    ),
    (
        "0100000000022551640000000700000000000003e90205616C69636509f3AAb3bCD3151b510c22dd83DD1793e8C08719",
        LINE,
    ),
];

#[test]
fn digits_are_read_in_either_case(rt: HostRuntime) -> Result<(), Fail> {
    are_shown(&rt, &IN_CAPITALS)
}

static MALFORMED: [&str; 13] = [
    "",
    "0",
    "01",
    // two digits more, two fewer, and one fewer
    "0100000000022551640000000100000000000000010103626f62000000000000000000000000000000000000000000",
    "0100000000022551640000000100000000000000010103626f6200000000000000000000000000000000000000",
    "0100000000022551640000000100000000000000010103626f62000000000000000000000000000000000000000",
    // characters that are no digits, in the place of one digit and of two
    "0100000000022551640000000100000000000000010103626f62000000000000000000000000000000000000000g",
    "0100000000022551640000000100000000000000010103626f6200000000000000000000000000000000000000 0",
    "0100000000022551640000000100000000000000010103626f6200000000000000000000000000000000000000\u{e9}",
    // another version, no modes, modes above both, and a colon in the name
    "0200000000022551640000000100000000000000010103626f620000000000000000000000000000000000000000",
    "0100000000022551640000000100000000000000010003626f620000000000000000000000000000000000000000",
    "0100000000022551640000000100000000000000010403626f620000000000000000000000000000000000000000",
    "0100000000022551640000000100000000000000010103623a620000000000000000000000000000000000000000",
];

#[test]
fn other_texts_are_malformed(rt: HostRuntime) -> Result<(), Fail> {
    are_malformed(&rt, &MALFORMED)
}
