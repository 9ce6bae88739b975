//! What the outside in memory and the adapters do when they run.

ghost use Rattle.std.specs.Prelude.{◌≡◌, ◌<◌, false, length};

use map_main::{
    FileShelf, InputSource, Loading, MemShelf, MemSink, MemSource, OutputSink, Shelf, ShelfFault,
    Sink, SinkFault, Source, SourceFault, Words, put,
};
use std::alloc::{AllocError, Global};

fn file(alloc: Global, name: &str, bytes: &[u8]) -> Result<(String, Vec<u8>), AllocError> {
    let name = String::from_str(alloc, name)?;
    let bytes = Vec::from_slice(alloc, bytes)?;
    Ok((name, bytes))
}

/// A read of a source that has not told its end.
fn read_on<I: Source>(source: &mut I, buf: &mut [u8]) -> Result<usize, SourceFault>
    requires room { 0 < length buf.old }
    requires more { I.ended source.old ≡ false }
{
    source.read(buf)
}

/// The name of a file, the most bytes that are taken of it, the answer, and the bytes that are given.
type Load = (
    &'static str,
    usize,
    Result<Loading, ShelfFault>,
    &'static [u8],
);

fn loads_so<S: Shelf>(alloc: Global, shelf: &mut S, wanted: &Load) -> bool {
    let (name, most, answer, bytes) = *wanted;
    let mut into = Vec::new(alloc);
    shelf.load(name, &mut into, most) == answer && into.as_slice() == bytes
}

static LOADS: [Load; 5] = [
    ("p", 3, Ok(Loading::Whole), b"one"),
    ("p", 2, Ok(Loading::TooLong), b""),
    ("p", 3, Err(ShelfFault::Failed), b""),
    ("absent", 3, Err(ShelfFault::Failed), b""),
    ("p", 9, Ok(Loading::Whole), b"one"),
];

#[test]
fn shelf_in_memory(rt: HostRuntime) -> Result<(), AllocError> {
    let alloc = rt.alloc();
    let files = vec![in alloc; file(alloc, "p", b"one")?, file(alloc, "p", b"two")?]?;
    let mut shelf = MemShelf::new(files, vec![in alloc; 3]?);
    for wanted in LOADS.iter() {
        assert!(rt; loads_so(alloc, &mut shelf, wanted));
    }
    assert!(rt; shelf.faults == 2 && shelf.failed.as_str() == "absent");
    Ok(())
}

#[test]
fn sink_in_memory(rt: HostRuntime) -> Result<(), AllocError> {
    let alloc = rt.alloc();
    let mut sink = MemSink::new(Vec::new(alloc), 2, vec![in alloc; 5]?);
    assert!(rt; put(&mut sink, b"hello") == Ok(()));
    assert!(rt; put(&mut sink, b"hello") == Err(SinkFault::Failed));
    assert!(rt; sink.taken.as_slice() == b"hellohe".as_slice() && sink.faults == 1);
    Ok(())
}

/// The answer of a read, and the buffer after it.
type Reading = (Result<usize, SourceFault>, &'static [u8]);

/// Whether the source has not told its end, and a read of it goes so.
fn reads_so(source: &mut MemSource, wanted: &Reading) -> bool {
    if source.ended {
        return false;
    }
    let (answer, bytes) = *wanted;
    let mut buf = [0u8; 4];
    source.read(&mut buf) == answer && buf.as_slice() == bytes
}

static READS: [Reading; 5] = [
    (Ok(2), b"ab\0\0"),
    (Err(SourceFault::Failed), b"\0\0\0\0"),
    (Ok(2), b"cd\0\0"),
    (Ok(1), b"e\0\0\0"),
    (Ok(0), b"\0\0\0\0"),
];

#[test]
fn source_in_memory(rt: HostRuntime) -> Result<(), AllocError> {
    let alloc = rt.alloc();
    let mut source = MemSource::new(Vec::from_slice(alloc, b"abcde")?, 2, vec![in alloc; 2]?);
    for wanted in READS.iter() {
        assert!(rt; reads_so(&mut source, wanted));
    }
    assert!(rt; source.ended && source.faults == 1);
    Ok(())
}

static REAL_LOADS: [Load; 3] = [
    ("/dev/null", 5, Ok(Loading::Whole), b""),
    ("/dev/zero", 5, Ok(Loading::TooLong), b""),
    ("no such file", 5, Err(ShelfFault::Failed), b""),
];

#[test]
fn shelf_of_files(rt: HostRuntime) -> Result<(), AllocError> {
    let mut shelf = FileShelf::new(&rt);
    for wanted in REAL_LOADS.iter() {
        assert!(rt; loads_so(rt.alloc(), &mut shelf, wanted));
    }
    Ok(())
}

#[test]
fn writer_and_reader(rt: HostRuntime) -> Result<(), AllocError> {
    let mut out = OutputSink::new(Vec::new(rt.alloc()));
    assert!(rt; put(&mut out, b"hello") == Ok(()));
    let mut input = InputSource::new(b"x".as_slice());
    let mut buf = [0u8; 4];
    assert!(rt; read_on(&mut input, &mut buf) == Ok(1));
    assert!(rt; buf[0] == b'x');
    Ok(())
}

#[test]
fn words_in_order(rt: HostRuntime) -> Result<(), AllocError> {
    let mut words = Words::new(rt.alloc());
    assert!(rt; words.push("map").is_ok() && words.push("").is_ok());
    assert!(rt; words.get(0) == Some("map") && words.get(1) == Some("") && words.len() == 2);
    Ok(())
}
