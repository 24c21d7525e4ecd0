//! Whole runs of the program, over streams in memory that are whole, slow, full or failing.
use crate::run::{Exit, run};
use device_play::Status;
use std::alloc::Global;
use std::io;
use std::io::{ErrorKind, Read, Write};
use std::test::Fail;

/// A script of one boot, and its text.
const SHORT: &str = "scale small\nimage P\npre a@1\nboot 0 1\n";

const SHORT_TEXT: &str = "1.0.0 boot 1\nactive a 1 pre\nend 1\n";

/// Runs `play` over these streams, and gives the line on standard error with the rest.
fn play<R: Read + Drop, W: Write + Drop>(
    alloc: Global,
    reader: R,
    writer: W,
) -> Result<(Exit<R, W>, Vec<u8>), Fail> {
    let mut words = Vec::new(alloc);
    words.push(String::from_str(alloc, "play")?)?;
    let mut errors = Vec::new(alloc);
    let exit = run(alloc, Ok(words), reader, writer, &mut errors);
    Ok((exit, errors))
}

#[test]
fn a_run_has_its_number_its_line_and_its_text(rt: HostRuntime) -> Result<(), Fail> {
    let alloc = rt.alloc();
    let cases = [
        ("play", SHORT, 0, "", SHORT_TEXT),
        ("walk", SHORT, 1, "apexplay: usage\n", ""),
        (
            "play",
            "scale small\nboot 0 1\n",
            2,
            "apexplay: script line 2 bad-place\n",
            "",
        ),
        (
            "play",
            "scale medium\n",
            2,
            "apexplay: script line 1 bad-word 2\n",
            "",
        ),
    ];
    for (command, script, number, line, text) in cases {
        let mut words = Vec::new(alloc);
        words.push(String::from_str(alloc, command)?)?;
        let mut errors = Vec::new(alloc);
        let exit = run(
            alloc,
            Ok(words),
            script.as_bytes(),
            Vec::new(alloc),
            &mut errors,
        );
        assert_eq!(rt; exit.number, number, "of {script}");
        assert_eq!(rt; errors.as_slice(), line.as_bytes(), "of {script}");
        assert_eq!(rt; exit.writer.as_slice(), text.as_bytes(), "of {script}");
    }
    Ok(())
}

#[test]
fn a_run_without_its_words_says_why(rt: HostRuntime) {
    let alloc = rt.alloc();
    let cases = [
        (Status::Usage, 1, "apexplay: usage\n"),
        (Status::Memory, 5, "apexplay: no memory\n"),
    ];
    for (status, number, line) in cases {
        let mut errors = Vec::new(alloc);
        let exit = run(
            alloc,
            Err(status),
            SHORT.as_bytes(),
            Vec::new(alloc),
            &mut errors,
        );
        assert_eq!(rt; exit.number, number);
        assert_eq!(rt; errors.as_slice(), line.as_bytes());
        assert_eq!(rt; exit.writer.len(), 0);
    }
}

/// A reader that gives three bytes at a time, and then ends or fails.
#[derive(Drop)]
struct Slow {
    left: &'static [u8],
    fails: bool,
}

impl Read for Slow {
    fn read(&mut self, buf: &mut [u8]) -> io::Result<usize> {
        if self.left.is_empty() && self.fails {
            return Err(io::Error::from(ErrorKind::TimedOut));
        }
        let most = buf.len().min(3);
        self.left.read(&mut buf[..most])
    }
}

#[test]
fn a_reader_is_read_to_its_end(rt: HostRuntime) -> Result<(), Fail> {
    let slow = Slow {
        left: SHORT.as_bytes(),
        fails: false,
    };
    let (exit, errors) = play(rt.alloc(), slow, Vec::new(rt.alloc()))?;
    assert_eq!(rt; exit.number, 0);
    assert_eq!(rt; errors.len(), 0);
    assert_eq!(rt; exit.writer.as_slice(), SHORT_TEXT.as_bytes());
    Ok(())
}

#[test]
fn a_reader_that_fails_is_a_source_fault(rt: HostRuntime) -> Result<(), Fail> {
    let failing = Slow {
        left: SHORT.as_bytes(),
        fails: true,
    };
    let (exit, errors) = play(rt.alloc(), failing, Vec::new(rt.alloc()))?;
    assert_eq!(rt; exit.number, 3);
    assert_eq!(rt; errors.as_slice(), b"apexplay: source fault\n".as_slice());
    assert_eq!(rt; exit.writer.len(), 0);
    Ok(())
}

/// How many calls a long script has.
const CALLS: u64 = 9000;

/// A script of many calls on a session that isn't there, and its text by docs/formats/text.md.
fn long_script(alloc: Global) -> Result<(Vec<u8>, Vec<u8>), Fail> {
    let mut script = SHORT.as_bytes().to_vec(alloc)?;
    let mut text = b"1.0.0 boot 1\nactive a 1 pre\n".to_vec(alloc)?;
    for step in 1..=CALLS {
        script.extend_from_slice(b"ready 1\n")?;
        writeln!(text, "1.0.{step} refused no-session 1")?;
    }
    writeln!(text, "end {}", CALLS + 1)?;
    Ok((script, text))
}

#[test]
fn a_long_script_has_its_whole_text(rt: HostRuntime) -> Result<(), Fail> {
    let (script, text) = long_script(rt.alloc())?;
    assert!(rt; script.len() > 65536 && text.len() > 65536);
    let (exit, errors) = play(rt.alloc(), script.as_slice(), Vec::new(rt.alloc()))?;
    assert_eq!(rt; exit.number, 0);
    assert_eq!(rt; errors.len(), 0);
    assert!(rt; exit.writer.as_slice() == text.as_slice());
    Ok(())
}

/// A writer that has room for so many bytes, and counts its calls. Every second call is interrupted.
#[derive(Drop)]
struct Full {
    held: Vec<u8>,
    room: usize,
    calls: u64,
}

impl Full {
    fn with_room(alloc: Global, room: usize) -> Full {
        Full {
            held: Vec::new(alloc),
            room,
            calls: 0,
        }
    }
}

impl Write for Full {
    fn write(&mut self, buf: &[u8]) -> io::Result<usize> {
        self.calls = self.calls.saturating_add(1);
        if self.calls % 2 == 0 {
            return Err(io::Error::from(ErrorKind::Interrupted));
        }
        let n = buf.len().min(self.room.saturating_sub(self.held.len()));
        if n == 0 {
            return Err(io::Error::from(ErrorKind::StorageFull));
        }
        self.held.extend_from_slice(&buf[..n])?;
        Ok(n)
    }

    fn flush(&mut self) -> io::Result<()> {
        Ok(())
    }
}

#[test]
fn a_writer_that_is_full_holds_a_front_of_the_text(rt: HostRuntime) -> Result<(), Fail> {
    let (script, text) = long_script(rt.alloc())?;
    // Full on its first byte, within the first write, in a later one, and at the last byte of all.
    for room in [0, 5, 70000, text.len().saturating_sub(1)] {
        let full = Full::with_room(rt.alloc(), room);
        let (exit, errors) = play(rt.alloc(), script.as_slice(), full)?;
        assert_eq!(rt; exit.number, 4);
        assert_eq!(rt; errors.as_slice(), b"apexplay: sink fault\n".as_slice());
        let held = exit.writer.held;
        assert_eq!(rt; held.len(), room);
        assert!(rt; text.starts_with(&held));
    }
    Ok(())
}

#[test]
fn a_last_write_that_fails_is_a_sink_fault(rt: HostRuntime) -> Result<(), Fail> {
    for (room, number) in [(0, 4), (SHORT_TEXT.len() - 1, 4), (SHORT_TEXT.len(), 0)] {
        let full = Full::with_room(rt.alloc(), room);
        let (exit, _) = play(rt.alloc(), SHORT.as_bytes(), full)?;
        assert_eq!(rt; exit.number, number, "with room {room}");
        let held = exit.writer.held;
        assert_eq!(rt; held.len(), room);
        assert!(rt; SHORT_TEXT.as_bytes().starts_with(&held));
    }
    Ok(())
}

#[test]
fn lines_are_gathered_into_one_write(rt: HostRuntime) -> Result<(), Fail> {
    let roomy = Full::with_room(rt.alloc(), 100);
    let (exit, _) = play(rt.alloc(), SHORT.as_bytes(), roomy)?;
    let writer = exit.writer;
    assert_eq!(rt; writer.calls, 1);
    assert_eq!(rt; writer.held.as_slice(), SHORT_TEXT.as_bytes());
    Ok(())
}

#[test]
fn a_line_that_is_not_written_changes_no_number(rt: HostRuntime) {
    let mut errors = Full::with_room(rt.alloc(), 3);
    let exit = run(
        rt.alloc(),
        Err(Status::Usage),
        SHORT.as_bytes(),
        Vec::new(rt.alloc()),
        &mut errors,
    );
    assert_eq!(rt; exit.number, 1);
    assert!(rt; !exit.said);
    assert_eq!(rt; errors.held.as_slice(), b"ape".as_slice());
}
