use cluster_timing::timing::time_script;
use hdfs_cli::explain::{Explained, explain};
use std::test::Fail;

/// What is printed of two texts, the second run behind the first.
fn printed_in_turn(rt: &HostRuntime, first: &str, second: &str) -> Result<String, Fail> {
    let run = time_script(rt, first, second)?;
    Ok(run.output)
}

/// The text behind the last line feed is a line, too.
#[test]
fn texts_are_run_behind_one_another(rt: HostRuntime) -> Result<(), Fail> {
    let text = printed_in_turn(
        &rt,
        "0 hdfs mkdirs /a 755\n",
        "0 hdfs stat /a\n0 hdfs frob /a",
    )?;
    assert_eq!(rt;
        text.as_str(),
        "1 ok\n3 ok dir 0755 hdfs supergroup\n4 bad 0 BadLine\n"
    );
    Ok(())
}

#[test]
fn comments_are_counted_from_text_to_text(rt: HostRuntime) -> Result<(), Fail> {
    let text = printed_in_turn(&rt, "# a comment", "0 bob stat /x")?;
    assert_eq!(rt; text.as_str(), "2 refused 2 NotFound\n");
    Ok(())
}

/// Whether nothing is printed of the line 0 of a script. It has no clauses, so that no proof of a test computes what is printed.
fn has_no_line_0(rt: &HostRuntime, script: &[u8]) -> bool {
    let mut reader = script;
    let mut writer = Vec::new(rt.alloc());
    let found = explain(rt.alloc(), &mut reader, 0, &mut writer);
    found == Ok(Explained::NoRequest) && writer.is_empty()
}

#[test]
fn the_lines_begin_with_1(rt: HostRuntime) -> Result<(), Fail> {
    assert!(rt; has_no_line_0(&rt, b"0 hdfs stat /\n".as_slice()));
    Ok(())
}
