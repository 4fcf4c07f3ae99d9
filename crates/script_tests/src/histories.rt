use crate::streams::{Step, reader};
use hdfs_cli::audit::audit;
use hdfs_cli::script::ScriptFault;
use std::io;
use std::io::{ErrorKind, Write};
use std::test::Fail;

/// Whether no history is written of a script whose reader fails at once.
fn fails_to_read(rt: &HostRuntime) -> bool {
    let mut text = Vec::new(rt.alloc());
    let ended = audit(rt.alloc(), &mut reader(&[Step::Fails]), &mut text);
    ended == Err(ScriptFault::CannotRead) && text.is_empty()
}

#[test]
fn what_cannot_be_read_has_no_history(rt: HostRuntime) -> Result<(), Fail> {
    assert!(rt; fails_to_read(&rt));
    Ok(())
}

/// A writer that takes so many bytes and then fails.
#[derive(Drop)]
struct Full {
    taken: Vec<u8>,
    room: usize,
}

impl Write for Full {
    fn write(&mut self, buf: &[u8]) -> io::Result<usize> {
        let count = buf.len().min(self.room);
        if count == 0 {
            return Err(io::Error::from(ErrorKind::Other));
        }
        self.taken.extend_from_slice(&buf[..count])?;
        self.room -= count;
        Ok(count)
    }

    fn flush(&mut self) -> io::Result<()> {
        Ok(())
    }
}

/// More lines than are held at a time.
fn many_lines(rt: &HostRuntime) -> Result<String, Fail> {
    let mut script = String::new(rt.alloc());
    for _line in 0..600 {
        script.push_str("0 hdfs stat /\n")?;
    }
    Ok(script)
}

/// The line of the entry at a place.
fn line_at(rt: &HostRuntime, place: usize) -> Result<String, Fail> {
    let front = r#"{"caller":"hdfs","moment":0,"op":"stat","path":"/","place":"#;
    let back = r#","verdict":"done"}"#;
    Ok(format!(in rt.alloc(); "{front}{place}{back}\n")?)
}

fn many_entries(rt: &HostRuntime) -> Result<String, Fail> {
    let mut history = String::new(rt.alloc());
    for place in 1..601 {
        history.push_str(line_at(rt, place)?.as_str())?;
    }
    Ok(history)
}

/// Whether so many bytes of a script's history are written where the writer takes no more.
fn fails_to_write(rt: &HostRuntime, script: &str, history: &str, room: usize) -> bool {
    let mut writer = Full {
        taken: Vec::new(rt.alloc()),
        room,
    };
    let mut reader = script.as_bytes();
    let ended = audit(rt.alloc(), &mut reader, &mut writer);
    ended == Err(ScriptFault::CannotWrite)
        && writer.taken.len() == room
        && history.as_bytes().starts_with(&writer.taken)
}

#[test]
fn a_front_is_written_where_the_writer_fails(rt: HostRuntime) -> Result<(), Fail> {
    let script = many_lines(&rt)?;
    let history = many_entries(&rt)?;
    for room in [0, 1, 100, 20_000, 40_000] {
        assert!(rt; fails_to_write(&rt, script.as_str(), history.as_str(), room));
    }
    Ok(())
}
