//! Real files and writers, of which no clause tells the bytes.

use orca_io::{FileShelf, Shelf, ShelfFault, Sink, SinkFault, WriterSink};
use std::alloc::Global;
use std::fs;
use std::io::{self, ErrorKind, Write};
use std::test::Fail;

// Reads through the trait.
fn read<F: Shelf>(
    shelf: &mut F,
    alloc: Global,
    name: &str,
    limit: u32,
) -> Result<Vec<u8>, ShelfFault> {
    shelf.read_all(alloc, name, limit)
}

// Puts through the trait.
fn put<K: Sink>(sink: &mut K, piece: &[u8]) -> Result<(), SinkFault> {
    sink.put(piece)
}

#[test]
fn file_shelf_reads_files(rt: HostRuntime) -> Result<(), Fail> {
    fs::create_dir_all(&rt, "shelf_test/drawer")?;
    fs::write(&rt, "shelf_test/greeting.txt", "good morning\n")?;
    let mut shelf = FileShelf::new(&rt);
    let greeting = read(&mut shelf, rt.alloc(), "shelf_test/greeting.txt", 13)?;
    for (name, limit, want) in [
        ("shelf_test/gone.txt", 13, ShelfFault::Absent),
        ("gone/greeting.txt", 13, ShelfFault::Absent),
        ("", 13, ShelfFault::Absent),
        ("shelf_test/greeting.txt", 12, ShelfFault::TooLong),
        ("shelf_test/greeting.txt", 0, ShelfFault::TooLong),
        ("shelf_test/drawer", 13, ShelfFault::Failed),
        ("shelf_test/greeting.txt/under", 13, ShelfFault::Failed),
    ] {
        assert_eq!(rt;
            read(&mut shelf, rt.alloc(), name, limit).err(),
            Some(want),
            "{name} {limit}"
        );
    }
    fs::remove_dir_all(&rt, "shelf_test")?;
    assert_eq!(rt; greeting.as_slice(), b"good morning\n".as_slice());
    Ok(())
}

#[test]
fn writer_sink_writes(rt: HostRuntime) -> Result<(), Fail> {
    let mut bytes = Vec::new(rt.alloc());
    {
        let mut sink = WriterSink::new(&mut bytes);
        put(&mut sink, b"6")?;
        put(&mut sink, b"\n")?;
    }
    assert_eq!(rt; bytes.as_slice(), b"6\n".as_slice());
    Ok(())
}

// A writer that takes no byte, as at a full disk or for want of memory.
#[derive(Drop)]
struct Broken(ErrorKind);

impl Write for Broken {
    fn write(&mut self, _bytes: &[u8]) -> io::Result<usize> {
        Err(io::Error::from(self.0))
    }

    fn flush(&mut self) -> io::Result<()> {
        Ok(())
    }
}

#[test]
fn writer_sink_tells_faults(rt: HostRuntime) {
    for (kind, want) in [
        (ErrorKind::StorageFull, SinkFault::Failed),
        (ErrorKind::BrokenPipe, SinkFault::Failed),
        (ErrorKind::OutOfMemory, SinkFault::NoMemory),
    ] {
        let mut sink = WriterSink::new(Broken(kind));
        assert_eq!(rt; put(&mut sink, b"6").err(), Some(want));
        assert_eq!(rt; put(&mut sink, b"").err(), None);
    }
}
