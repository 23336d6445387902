ghost use Rattle.std.specs.Prelude.{◌<◌};

use crate::{Failed, FileShelf, MemShelf, MemSink, ReadFault, StreamSink, read_whole, write_whole};
use std::alloc::{AllocError, Global};
use std::process::Abort;
use std::test::Fail;
use std::{fs, io};

const TEXT: &[u8] = b"hello world";

// Two files, and one that has the name of the first.
fn shelf(alloc: Global, step: usize, fail: &[u64]) -> Result<MemShelf, AllocError>
    requires { 0 < step }
{
    let mut files = Vec::new(alloc);
    for (name, bytes) in [("greeting", TEXT), ("empty", b""), ("greeting", b"bye")] {
        let name = String::from_str(alloc, name)?;
        files.push((name, bytes.to_vec(alloc)?))?;
    }
    Ok(MemShelf::new(files, step, fail.to_vec(alloc)?))
}

// What a read of a whole file answered.
fn expect_read(rt: &impl Abort, read: Result<Vec<u8>, ReadFault>, want: Result<&[u8], ReadFault>) {
    match (read, want) {
        (Ok(bytes), Ok(want)) => assert_eq!(rt; bytes.as_slice(), want),
        (Err(fault), Err(want)) => assert_eq!(rt; fault, want),
        _ => assert!(rt; false, "one is a fault"),
    }
}

#[test]
fn reads_in_steps(rt: HostRuntime) -> Result<(), Fail> {
    let alloc = rt.alloc();
    for (name, step, limit, want) in [
        ("greeting", 4, 11, Ok(TEXT)),
        ("greeting", 1, 10, Ok(TEXT)),
        ("greeting", 4, 5, Ok(b"hello wo".as_slice())),
        ("greeting", 100, 0, Ok(TEXT)),
        ("empty", 4, 0, Ok(b"".as_slice())),
        ("absent", 4, 11, Err(ReadFault::Failed)),
    ] {
        let mut shelf = shelf(alloc, step, &[])?;
        expect_read(&rt, read_whole(alloc, &mut shelf, name, limit), want);
    }
    Ok(())
}

#[test]
fn reads_fail(rt: HostRuntime) -> Result<(), Fail> {
    let alloc = rt.alloc();
    // A start and four reads: the last one finds the end.
    for number in 0..7 {
        let mut shelf = shelf(alloc, 4, &[number])?;
        let want = if number < 5 {
            Err(ReadFault::Failed)
        } else {
            Ok(TEXT)
        };
        expect_read(&rt, read_whole(alloc, &mut shelf, "greeting", 20), want);
    }
    Ok(())
}

#[test]
fn writes_into_rooms(rt: HostRuntime) -> Result<(), Fail> {
    let alloc = rt.alloc();
    for room in 0..13 {
        let mut sink = MemSink::new(alloc, room, Vec::new(alloc))?;
        let want = if room < 11 { Err(Failed) } else { Ok(()) };
        assert_eq!(rt; write_whole(&mut sink, TEXT), want, "at {room}");
        assert_eq!(rt; sink.taken(), &TEXT[..room.min(11)], "at {room}");
    }
    Ok(())
}

#[test]
fn writes_fail(rt: HostRuntime) -> Result<(), Fail> {
    let alloc = rt.alloc();
    let mut sink = MemSink::new(alloc, 100, [1].to_vec(alloc)?)?;
    assert_eq!(rt; write_whole(&mut sink, b"one "), Ok(()));
    assert_eq!(rt; write_whole(&mut sink, b"two "), Err(Failed));
    assert_eq!(rt; write_whole(&mut sink, b"three"), Ok(()));
    assert_eq!(rt; sink.taken(), b"one three".as_slice());
    Ok(())
}

#[test]
fn reads_real_files(rt: HostRuntime) -> Result<(), Fail> {
    let alloc = rt.alloc();
    fs::write(&rt, "greeting", TEXT)?;
    fs::create_dir(&rt, "folder")?;
    let mut shelf = FileShelf::new(&rt);
    for (name, want) in [
        ("greeting", Ok(TEXT)),
        ("absent", Err(ReadFault::Failed)),
        ("folder", Err(ReadFault::Failed)),
        ("greeting", Ok(TEXT)),
    ] {
        expect_read(&rt, read_whole(alloc, &mut shelf, name, 20), want);
    }
    Ok(())
}

// A stream that takes at most three bytes in a write, and fails at its last flushes.
#[derive(Drop)]
struct Slow<'a> {
    taken: &'a mut Vec<u8>,
    flushes: u8,
}

impl io::Write for Slow<'_> {
    fn write(&mut self, buf: &[u8]) -> io::Result<usize> {
        let count = buf.len().min(3);
        self.taken.extend_from_slice(&buf[..count])?;
        Ok(count)
    }

    fn flush(&mut self) -> io::Result<()> {
        if self.flushes == 0 {
            return Err(io::Error::from(io::ErrorKind::BrokenPipe));
        }
        self.flushes -= 1;
        Ok(())
    }
}

#[test]
fn writes_to_streams(rt: HostRuntime) -> Result<(), Fail> {
    let alloc = rt.alloc();
    for (flushes, want, length) in [(4, Ok(()), 11), (3, Err(Failed), 11), (0, Err(Failed), 3)] {
        let mut taken = Vec::new(alloc);
        let mut sink = StreamSink::new(Slow {
            taken: &mut taken,
            flushes,
        });
        assert_eq!(rt; write_whole(&mut sink, TEXT), want);
        drop(sink);
        assert_eq!(rt; taken.as_slice(), &TEXT[..length]);
    }
    let mut room = [0; 5];
    let mut sink = StreamSink::new(room.as_mut_slice());
    assert_eq!(rt;
        write_whole(&mut sink, TEXT),
        Err(Failed),
        "no room is a write of no bytes"
    );
    Ok(())
}
