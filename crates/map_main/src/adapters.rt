//! The outside over real files, standard input and standard output. It tells no content.

ghost use Rattle.std.specs.Prelude.{◌≡◌, ◌≢◌, ◌<◌, ◌≤◌, ◌↔◌, false, [], None, Ok, Err, IfOk, IfErr, OnOk, OnErr, length, take, string_bytes, vec_len};
ghost use Rattle.std.specs.IoError.{error_kind};
ghost use Rattle.std.specs.Io.KnownBytes.{Appends, Consumes, IsAtEnd, Keeps};
ghost use Rattle.map_base.specs.Outside.{IsAllOf, IsLongerThan, Rose, Tells, TellsLonger, raised, tells_end};

use map_base::{Loading, Shelf, ShelfFault, Sink, SinkFault, Source, SourceFault};
use std::fs;
use std::io::{self, ErrorKind, Read, Write};
use std::rt::Files;

/// The files of the system.
#[derive(Drop)]
pub struct FileShelf<'a, R: AllocGlobal> {
    rt: &'a R,
    faults: u64,
    failed: String,
}

impl<'a, R: Files + AllocGlobal> FileShelf<'a, R> {
    /// The files that this runtime opens.
    pub fn new(rt: &'a R) -> FileShelf<'a, R>
        ensures faults { ⟦<FileShelf<'a, R> as Shelf>⟧.faults result ≡ 0 }
        ensures failed { ⟦<FileShelf<'a, R> as Shelf>⟧.failed result ≡ [] }
    {
        FileShelf {
            rt,
            faults: 0,
            failed: String::new(rt.alloc()),
        }
    }
}

impl<R: AllocGlobal> FileShelf<'_, R> {
    /// Answers this. A load that has failed is counted once, and its name is kept.
    fn counted(
        &mut self,
        name: String,
        answer: Result<Loading, ShelfFault>,
    ) -> Result<Loading, ShelfFault>
        ensures same { result ≡ answer }
        ensures counted { answer ≡ Err ShelfFault.Failed → (self.new.faults ≡ raised self.old.faults)
            × (string_bytes self.new.failed ≡ string_bytes name) }
        ensures quiet { answer ≢ Err ShelfFault.Failed → (self.new.faults ≡ self.old.faults)
            × (string_bytes self.new.failed ≡ string_bytes self.old.failed) }
        ensures later { self.old.faults ≤ self.new.faults }
    {
        if answer == Err(ShelfFault::Failed) {
            self.faults = self.faults.saturating_add(1);
            self.failed = name;
        }
        answer
    }
}

impl<R: Files + AllocGlobal> Shelf for FileShelf<'_, R> {
    ghost files = { λ _. None };

    ghost faults = { λ s. s.faults };

    ghost failed = { λ s. string_bytes s.failed };

    // What it gives is all of some file as it was opened, and of one that is too long there were more than `most` bytes.
    fn load(&mut self, name: &str, into: &mut Vec<u8>, most: usize) -> Result<Loading, ShelfFault>
        requires { into.old.items ≡ [] }
        ensures read { result ≡ Ok Loading.Whole →
            (file : R.File) × IsAllOf (R.File.remaining file) into.new.items }
        ensures past { result ≡ Ok Loading.TooLong →
            (file : R.File) × IsLongerThan (R.File.remaining file) most }
        ensures whole { result ≡ Ok Loading.Whole →
            (vec_len into.new ≤ most) × Tells None name.now into.new.items }
        ensures long { result ≡ Ok Loading.TooLong → TellsLonger None name.now most }
        ensures empty { result ≢ Ok Loading.Whole → into.new.items ≡ [] }
        ensures counted { result ≡ Err ShelfFault.Failed → self.new.faults ≡ raised self.old.faults }
        ensures cause { result ≡ Err ShelfFault.Failed →
            Rose self.old.faults self.new.faults × (string_bytes self.new.failed ≡ name.now) }
        ensures quiet { result ≢ Err ShelfFault.Failed → (self.new.faults ≡ self.old.faults)
            × (string_bytes self.new.failed ≡ string_bytes self.old.failed) }
        ensures later { self.old.faults ≤ self.new.faults }
    {
        let Ok(copy) = String::from_str(self.rt.alloc(), name) else {
            return Err(ShelfFault::NoMemory);
        };
        let answer = read_opened(fs::open(self.rt, name), into, most);
        self.counted(copy, answer)
    }
}

/// Reads what was opened, once, where it has at most `most` bytes, and else gives nothing.
fn read_opened<F: Read + Drop>(
    opened: io::Result<F>,
    into: &mut Vec<u8>,
    most: usize,
) -> Result<Loading, ShelfFault>
    requires { into.old.items ≡ [] }
    ensures whole { result ≡ Ok Loading.Whole → (vec_len into.new ≤ most)
        × ((file : F) × (opened ≡ Ok file) × IsAllOf (F.remaining file) into.new.items) }
    ensures long { result ≡ Ok Loading.TooLong →
        (file : F) × (opened ≡ Ok file) × IsLongerThan (F.remaining file) most }
    ensures empty { result ≢ Ok Loading.Whole → into.new.items ≡ [] }
    ensures absent { IfErr opened (λ e. error_kind e ≢ ErrorKind.OutOfMemory
        → result ≡ Err ShelfFault.Failed) }
    ensures no_memory { IfErr opened (λ e. error_kind e ≡ ErrorKind.OutOfMemory
        → result ≡ Err ShelfFault.NoMemory) }
{
    let mut file = match opened {
        Ok(file) => file,
        Err(absent) => return Err(shelf_fault(&absent)),
    };
    let answer = read_whole(&mut file, into, most);
    if answer != Ok(Loading::Whole) {
        into.clear();
    }
    answer
}

/// Reads from where the file stands to its end, or past `most` bytes.
fn read_whole<F: Read>(file: &mut F, into: &mut Vec<u8>, most: usize) -> Result<Loading, ShelfFault>
    requires { into.old.items ≡ [] }
    ensures whole { result ≡ Ok Loading.Whole →
        (vec_len into.new ≤ most) × IsAllOf (F.remaining file.old) into.new.items }
    ensures long { result ≡ Ok Loading.TooLong → IsLongerThan (F.remaining file.old) most }
{
    let mut buf = [0u8; 4096];
    while into.len() <= most {
        let n = match file.read(&mut buf) {
            Ok(n) => n,
            Err(error) => return Err(shelf_fault(&error)),
        };
        if n == 0 {
            return Ok(Loading::Whole);
        }
        if into.extend_from_slice(&buf[..n]).is_err() {
            return Err(ShelfFault::NoMemory);
        }
    }
    Ok(Loading::TooLong)
}

/// Want of memory where the system says so, and a fault for all else.
fn shelf_fault(error: &io::Error) -> ShelfFault
    ensures { (result ≡ ShelfFault.NoMemory) ↔ (error_kind error.now ≡ ErrorKind.OutOfMemory) }
{
    if error.kind() == ErrorKind::OutOfMemory {
        ShelfFault::NoMemory
    } else {
        ShelfFault::Failed
    }
}

/// The input of the system, or another reader.
#[derive(Drop)]
pub struct InputSource<R> {
    inner: R,
    faults: u64,
    ended: bool,
}

impl<R: Read> InputSource<R> {
    /// What this reader gives.
    pub fn new(inner: R) -> InputSource<R>
        ensures faults { ⟦<InputSource<R> as Source>⟧.faults result ≡ 0 }
        ensures ended { ⟦<InputSource<R> as Source>⟧.ended result ≡ false }
    {
        InputSource {
            inner,
            faults: 0,
            ended: false,
        }
    }
}

impl<R: Read> InputSource<R> {
    /// The answer of the reader. A read that has failed is counted once.
    fn counted(&mut self, answer: io::Result<usize>) -> Result<usize, SourceFault>
        ensures given { IfOk answer (λ n. result ≡ Ok n) }
        ensures failed { OnErr answer (result ≡ Err SourceFault.Failed) }
        ensures counted { OnErr answer (self.new.faults ≡ raised self.old.faults) }
        ensures quiet { OnOk answer (self.new.faults ≡ self.old.faults) }
        ensures later { self.old.faults ≤ self.new.faults }
        ensures keeps { (self.new.inner ≡ self.old.inner) × (self.new.ended ≡ self.old.ended) }
    {
        match answer {
            Ok(n) => Ok(n),
            Err(_) => {
                self.faults = self.faults.saturating_add(1);
                Err(SourceFault::Failed)
            }
        }
    }
}

impl<R: Read> Source for InputSource<R> {
    ghost left = { λ _. None };

    ghost ended = { λ s. s.ended };

    ghost faults = { λ s. s.faults };

    // What it gives is what the reader gave.
    fn read(&mut self, buf: &mut [u8]) -> Result<usize, SourceFault>
        requires room { 0 < length buf.old }
        requires more { self.old.ended ≡ false }
        ensures passes { IfOk result (λ n.
            Consumes (R.remaining self.old.inner) (R.remaining self.new.inner) (take n buf.new)) }
        ensures end { IfOk result (λ n. n ≡ 0 → IsAtEnd (R.remaining self.new.inner)) }
        ensures err { OnErr result (Keeps (R.remaining self.old.inner) (R.remaining self.new.inner)) }
        ensures count { IfOk result (λ n. n ≤ length buf.new) }
        ensures told { self.new.ended ≡ tells_end result }
        ensures counted { OnErr result (self.new.faults ≡ raised self.old.faults) }
        ensures quiet { OnOk result (self.new.faults ≡ self.old.faults) }
        ensures later { self.old.faults ≤ self.new.faults }
    {
        let answer = self.inner.read(buf);
        let given = self.counted(answer);
        self.ended = given == Ok(0);
        given
    }
}

/// The output of the system, or another writer.
#[derive(Drop)]
pub struct OutputSink<W> {
    inner: W,
    faults: u64,
}

impl<W: Write> OutputSink<W> {
    /// What this writer takes.
    pub fn new(inner: W) -> OutputSink<W>
        ensures { ⟦<OutputSink<W> as Sink>⟧.faults result ≡ 0 }
    {
        OutputSink { inner, faults: 0 }
    }
}

impl<W: Write> OutputSink<W> {
    /// The answer of the writer, which has failed where it took nothing. A write that has failed is counted once.
    fn counted(&mut self, answer: io::Result<usize>) -> Result<usize, SinkFault>
        ensures taken { IfOk answer (λ n. 0 < n → result ≡ Ok n) }
        ensures nothing { IfOk answer (λ n. n ≡ 0 → result ≡ Err SinkFault.Failed) }
        ensures failed { IfErr answer (λ e. error_kind e ≢ ErrorKind.OutOfMemory
            → result ≡ Err SinkFault.Failed) }
        ensures no_memory { IfErr answer (λ e. error_kind e ≡ ErrorKind.OutOfMemory
            → result ≡ Err SinkFault.NoMemory) }
        ensures counted { result ≡ Err SinkFault.Failed → self.new.faults ≡ raised self.old.faults }
        ensures quiet { result ≢ Err SinkFault.Failed → self.new.faults ≡ self.old.faults }
        ensures later { self.old.faults ≤ self.new.faults }
        ensures keeps { self.new.inner ≡ self.old.inner }
    {
        match answer {
            Ok(n) if n > 0 => Ok(n),
            Err(error) if error.kind() == ErrorKind::OutOfMemory => Err(SinkFault::NoMemory),
            _ => {
                self.faults = self.faults.saturating_add(1);
                Err(SinkFault::Failed)
            }
        }
    }
}

impl<W: Write> Sink for OutputSink<W> {
    ghost taken = { λ _. None };

    ghost faults = { λ s. s.faults };

    // What it takes the writer took.
    fn write(&mut self, piece: &[u8]) -> Result<usize, SinkFault>
        requires { 0 < length piece.now }
        ensures passes { IfOk result (λ n.
            Appends (W.contents self.old.inner) (W.contents self.new.inner) (take n piece.now)) }
        ensures err { OnErr result (Keeps (W.contents self.old.inner) (W.contents self.new.inner)) }
        ensures count { IfOk result (λ n. (0 < n) × (n ≤ length piece.now)) }
        ensures counted { result ≡ Err SinkFault.Failed → self.new.faults ≡ raised self.old.faults }
        ensures quiet { result ≢ Err SinkFault.Failed → self.new.faults ≡ self.old.faults }
        ensures later { self.old.faults ≤ self.new.faults }
    {
        let answer = self.inner.write(piece);
        self.counted(answer)
    }
}
