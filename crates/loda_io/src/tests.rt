//! What no clause says: how much is asked for at a time, the real files and output, and that calls succeed.

ghost use Rattle.std.specs.Prelude.{None};
ghost use Rattle.loda_io.specs.Memory.{known_files};

use super::*;
use std::fs;
use std::test::Fail;

// Files in memory, with the most bytes that were asked for at a time and what the last read gave.
#[derive(Drop)]
struct Watched {
    shelf: MemoryShelf,
    most: usize,
    last: usize,
}

impl Shelf for Watched {
    ghost known = { λ s. known_files s.shelf };

    fn read(&mut self, name: &str, at: u64, buf: &mut [u8]) -> Result<usize, Failed> {
        self.most = self.most.max(buf.len());
        let n = self.shelf.read(name, at, buf)?;
        self.last = n;
        Ok(n)
    }
}

// A file of line feeds that never ends.
#[derive(Drop)]
struct Endless;

impl Shelf for Endless {
    ghost known = { λ s. record { bytes = λ name. None; faults = λ name. 0 } };

    fn read(&mut self, _name: &str, _at: u64, buf: &mut [u8]) -> Result<usize, Failed> {
        for byte in buf.iter_mut() {
            *byte = b'\n';
        }
        Ok(buf.len())
    }
}

// The first lines, then a line of so many bytes, and the end.
fn text(alloc: Global, first: &str, len: usize, end: &str) -> Result<Vec<u8>, AllocError> {
    let mut bytes = vec![in alloc; b'x'; len]?;
    bytes.extend_from_slice(end.as_bytes())?;
    let mut whole = Vec::from_slice(alloc, first.as_bytes())?;
    whole.extend_from_slice(bytes.as_slice())?;
    Ok(whole)
}

fn shelf_of(alloc: Global, bytes: &[u8], fail_at: &[u64]) -> Result<MemoryShelf, Fail> {
    let file = File::of(
        String::from_str(alloc, "a")?,
        Vec::from_slice(alloc, bytes)?,
    );
    let other = File::of(
        String::from_str(alloc, "a")?,
        Vec::from_slice(alloc, b"second")?,
    );
    let mut files = Vec::new(alloc);
    files.push(file)?;
    files.push(other)?;
    Ok(MemoryShelf::new(files, Vec::from_slice(alloc, fail_at)?))
}

#[test]
fn asks_for_pieces_until_the_end(rt: HostRuntime) -> Result<(), Fail> {
    let alloc = rt.alloc();
    for len in [0, 1, 65_535, 65_536] {
        let bytes = text(alloc, "\n\n", len, "\r\nlast")?;
        let mut shelf = Watched {
            shelf: shelf_of(alloc, bytes.as_slice(), &[])?,
            most: 0,
            last: 1,
        };
        match read_file(alloc, &mut shelf, "a") {
            Ok(read) => assert_eq!(rt; read.as_slice(), bytes.as_slice(), "of {len}"),
            Err(error) => assert_eq!(rt;
                (error, len),
                (ReadError::LineTooLong { line: 3 }, 65_536)
            ),
        }
        assert_eq!(rt; shelf.most, 65_536);
        assert!(rt; shelf.last == 0 || len == 65_536);
    }
    Ok(())
}

#[test]
fn long_line(rt: HostRuntime) -> Result<(), Fail> {
    let alloc = rt.alloc();
    let too_long = |line: u64| Err(ReadError::LineTooLong { line });
    for (first, len, end, want) in [
        ("", 65_536, "\n", Ok(65_537)),
        ("", 65_537, "\n", too_long(1)),
        ("", 65_536, "", Ok(65_536)),
        ("", 65_537, "", too_long(1)),
        ("", 65_535, "\r\n", Ok(65_537)),
        ("", 65_536, "\r\n", too_long(1)),
        ("a\n\nb\n", 65_536, "\n", Ok(65_542)),
        ("a\n\nb\n", 65_537, "\n", too_long(4)),
    ] {
        let bytes = text(alloc, first, len, end)?;
        let mut shelf = shelf_of(alloc, bytes.as_slice(), &[])?;
        let got = read_file(alloc, &mut shelf, "a").map(|read| read.len());
        assert_eq!(rt; got, want, "{len} bytes");
    }
    Ok(())
}

#[test]
fn endless_lines(rt: HostRuntime) {
    let got = read_file(rt.alloc(), &mut Endless, "a").map(|read| read.len());
    assert_eq!(rt; got, Err(ReadError::FileTooLarge { size: 268_435_457 }));
}

#[test]
fn memory_shelves(rt: HostRuntime) -> Result<(), Fail> {
    let alloc = rt.alloc();
    for (name, fail_at, want) in [
        ("a", [9, 9], Ok(3)),
        ("a", [0, 9], Err(ReadError::Failed)),
        ("a", [9, 1], Err(ReadError::Failed)),
        ("a", [2, 3], Ok(3)),
        ("b", [9, 9], Err(ReadError::Failed)),
    ] {
        let mut shelf = shelf_of(alloc, b"one", &fail_at)?;
        let got = read_file(alloc, &mut shelf, name).map(|read| read.len());
        assert_eq!(rt; got, want, "{name} {fail_at:?}");
    }
    let mut files = Vec::new(alloc);
    files.push(File::of(
        String::from_str(alloc, "a")?,
        Vec::from_slice(alloc, b"one")?,
    ))?;
    let mut honest = HonestShelf::new(files);
    for (name, want) in [("a", 3), ("b", 0)] {
        let got = read_file(alloc, &mut honest, name).map(|read| read.len());
        assert_eq!(rt; got, Ok(want), "{name}");
    }
    Ok(())
}

// The lists are the calls that fail and those that take nothing. All is offered at each call, so a sink that
// takes all is called once.
#[test]
fn memory_sinks(rt: HostRuntime) -> Result<(), Fail> {
    let alloc = rt.alloc();
    for (room, take, fail_at, empty_at, want, taken) in [
        (40, 16, 9, 9, Ok(()), 36),
        // all at the first call: offered a byte at a time they would come to a second one, which fails
        (36, 36, 1, 1, Ok(()), 36),
        (35, 16, 9, 9, Err(Failed), 35),
        (40, 16, 2, 9, Err(Failed), 32),
        (40, 16, 9, 2, Err(Failed), 32),
        (40, 16, 1, 1, Err(Failed), 16),
        (40, 0, 9, 9, Err(Failed), 0),
        (0, 16, 9, 9, Err(Failed), 0),
    ] {
        let fail_at = Vec::from_slice(alloc, &[fail_at])?;
        let empty_at = Vec::from_slice(alloc, &[empty_at])?;
        let mut sink = MemorySink::new(alloc, room, take, fail_at, empty_at)?;
        assert_eq!(rt; sink.bytes().len(), 0);
        let bytes = b"a line of the output, and then more.";
        assert_eq!(rt;
            write_all(&mut sink, bytes),
            want,
            "room {room} take {take}"
        );
        let front = bytes.get(..taken).ok_or("too many")?;
        assert_eq!(rt; sink.bytes(), front, "room {room} take {take}");
    }
    Ok(())
}

#[test]
fn real_file_and_output(rt: HostRuntime) -> Result<(), Fail> {
    let alloc = rt.alloc();
    let bytes = text(alloc, "one\n", 60_000, "\ntwo\n")?;
    fs::write(&rt, "loda_io_test", bytes.as_slice())?;
    let mut shelf = FileShelf::new(rt.clone()?);
    let read = read_file(alloc, &mut shelf, "loda_io_test");
    fs::remove_file(&rt, "loda_io_test")?;
    assert!(rt; matches!(&read, Ok(all) if all.as_slice() == bytes.as_slice()));
    let absent = read_file(alloc, &mut shelf, "loda_io_test").map(|all| all.len());
    assert_eq!(rt; absent, Err(ReadError::Failed));
    assert_eq!(rt;
        write_all(&mut StdSink::new(rt.clone()?), b"an output\n"),
        Ok(())
    );
    Ok(())
}
