//! The outside in memory: a shelf, a source and a sink that tell everything, and fail at chosen calls.

ghost use Rattle.std.specs.Prelude.{◌≡◌, ◌≢◌, ◌<◌, ◌≤◌, ◌++◌, ◌↔◌, ◌⊎◌, ℕ, List, true, false, [], Some, None, Ok, Err, IsTrue, IfOk, OnOk, OnErr, length, take, drop, min, string_bytes, vec_len};
ghost use Rattle.std.specs.Option.{option_copied};
ghost use Rattle.map_base.specs.Outside.{file_of, tells_end, raised};
ghost use Rattle.map_base.specs.Memory.{files_of, lists, fails_next};

use crate::outside::{Loading, Shelf, ShelfFault, Sink, SinkFault, Source, SourceFault};

/// Files in memory. Where a name stands more than once, its file is the first.
#[derive(Debug, Drop)]
pub struct MemShelf {
    /// Names and bytes.
    pub files: Vec<(String, Vec<u8>)>,
    /// The numbers, from 1, of the loads that fail.
    pub fail: Vec<u32>,
    /// How many loads there were.
    pub calls: u64,
    /// How many loads have failed.
    pub faults: u64,
    /// The name of the last failed load, empty at first.
    pub failed: String,
}

impl MemShelf {
    /// A shelf of these files, whose loads fail at these numbers, counted from 1.
    pub fn new(files: Vec<(String, Vec<u8>)>, fail: Vec<u32>) -> MemShelf
        ensures files { ⟦<MemShelf as Shelf>⟧.files result ≡ Some (files_of files.items) }
        ensures faults { ⟦<MemShelf as Shelf>⟧.faults result ≡ 0 }
        ensures failed { ⟦<MemShelf as Shelf>⟧.failed result ≡ [] }
        ensures fail { result.fail ≡ fail }
        ensures calls { result.calls ≡ 0 }
    {
        let failed = String::new(*files.allocator());
        MemShelf {
            files,
            fail,
            calls: 0,
            faults: 0,
            failed,
        }
    }
}

impl Shelf for MemShelf {
    ghost files = { λ s. Some (files_of s.files.items) };

    ghost faults = { λ s. s.faults };

    ghost failed = { λ s. string_bytes s.failed };

    // It fails only at the listed calls and where no file has the name.
    fn load(&mut self, name: &str, into: &mut Vec<u8>, most: usize) -> Result<Loading, ShelfFault>
        requires { into.old.items ≡ [] }
        ensures fails { result ≡ Err ShelfFault.Failed →
            (lists self.old.fail.items (raised self.old.calls) ≡ true)
            ⊎ (file_of (files_of self.old.files.items) name.now ≡ None) }
        ensures listed { OnOk result (lists self.old.fail.items (raised self.old.calls) ≡ false) }
        ensures whole { result ≡ Ok Loading.Whole → (vec_len into.new ≤ most)
            × (file_of (files_of self.old.files.items) name.now ≡ Some into.new.items) }
        ensures long { result ≡ Ok Loading.TooLong → (bytes : List ℕ)
            × (file_of (files_of self.old.files.items) name.now ≡ Some bytes)
            × (most < length bytes) }
        ensures empty { result ≢ Ok Loading.Whole → into.new.items ≡ [] }
        ensures counted { result ≡ Err ShelfFault.Failed →
            (self.new.faults ≡ raised self.old.faults) × (string_bytes self.new.failed ≡ name.now) }
        ensures quiet { result ≢ Err ShelfFault.Failed → (self.new.faults ≡ self.old.faults)
            × (string_bytes self.new.failed ≡ string_bytes self.old.failed) }
        ensures later { self.old.faults ≤ self.new.faults }
        ensures calls { self.new.calls ≡ raised self.old.calls }
        ensures stays { (self.new.files.items ≡ self.old.files.items)
            × (self.new.fail.items ≡ self.old.fail.items) }
    {
        self.calls = self.calls.saturating_add(1);
        let Ok(copy) = String::from_str(*self.files.allocator(), name) else {
            return Err(ShelfFault::NoMemory);
        };
        let found = if is_listed(&self.fail, self.calls) {
            None
        } else {
            first_file(&self.files, name)
        };
        let Some(bytes) = found else {
            self.faults = self.faults.saturating_add(1);
            self.failed = copy;
            return Err(ShelfFault::Failed);
        };
        if bytes.len() > most {
            return Ok(Loading::TooLong);
        }
        if into.extend_from_slice(bytes).is_err() {
            return Err(ShelfFault::NoMemory);
        }
        Ok(Loading::Whole)
    }
}

/// The bytes of the first file of this name.
fn first_file<'a>(files: &'a [(String, Vec<u8>)], name: &str) -> Option<&'a [u8]>
    ensures { option_copied result ≡ file_of (files_of files.now) name.now }
{
    for file in files {
        if file.0.as_str() == name {
            return Some(file.1.as_slice());
        }
    }
    None
}

/// Whether this call is one of those that fail.
fn is_listed(fail: &[u32], call: u64) -> bool
    ensures { result ≡ lists fail.now call }
{
    fail.iter().any(|number| u64::from(*number) == call)
}

/// Bytes in memory that are read in order.
#[derive(Debug, Drop)]
pub struct MemSource {
    /// All the bytes, those that were read among them.
    pub bytes: Vec<u8>,
    /// The greatest number of bytes that one read gives.
    pub most: usize,
    /// The numbers, from 1, of the reads that fail.
    pub fail: Vec<u32>,
    /// How many reads there were.
    pub calls: u64,
    /// How many reads have failed.
    pub faults: u64,
    /// How many bytes were read.
    pub place: usize,
    /// Whether a read has told the end.
    pub ended: bool,
}

impl MemSource {
    /// A source of these bytes, which gives at most `most` in one read, and whose reads fail at
    /// these numbers, counted from 1.
    pub fn new(bytes: Vec<u8>, most: usize, fail: Vec<u32>) -> MemSource
        requires { 0 < most }
        ensures left { ⟦<MemSource as Source>⟧.left result ≡ Some bytes.items }
        ensures ended { ⟦<MemSource as Source>⟧.ended result ≡ false }
        ensures faults { ⟦<MemSource as Source>⟧.faults result ≡ 0 }
        ensures bytes { result.bytes ≡ bytes }
        ensures most { result.most ≡ most }
        ensures fail { result.fail ≡ fail }
        ensures calls { result.calls ≡ 0 }
    {
        MemSource {
            bytes,
            most,
            fail,
            calls: 0,
            faults: 0,
            place: 0,
            ended: false,
        }
    }
}

impl Source for MemSource {
    ghost left = { λ s. Some (drop s.place s.bytes.items) };

    ghost ended = { λ s. s.ended };

    ghost faults = { λ s. s.faults };

    // It fails exactly at the listed calls, and otherwise gives all that it may.
    fn read(&mut self, buf: &mut [u8]) -> Result<usize, SourceFault>
        requires room { 0 < length buf.old }
        requires more { self.old.ended ≡ false }
        ensures fails { (result ≡ Err SourceFault.Failed)
            ↔ IsTrue (fails_next self.old.most self.old.fail.items self.old.calls) }
        ensures within { IfOk result (λ n. n ≤ length buf.new) }
        ensures count { IfOk result (λ n. n ≡ min (min
            (length (drop self.old.place self.old.bytes.items)) (length buf.old)) self.old.most) }
        ensures takes { IfOk result (λ n. drop self.old.place self.old.bytes.items
            ≡ take n buf.new ++ drop self.new.place self.new.bytes.items) }
        ensures end { IfOk result (λ n. n ≡ 0 → drop self.old.place self.old.bytes.items ≡ []) }
        ensures told { self.new.ended ≡ tells_end result }
        ensures err { OnErr result (self.new.place ≡ self.old.place) }
        ensures counted { OnErr result (self.new.faults ≡ raised self.old.faults) }
        ensures quiet { OnOk result (self.new.faults ≡ self.old.faults) }
        ensures later { self.old.faults ≤ self.new.faults }
        ensures calls { self.new.calls ≡ raised self.old.calls }
        ensures stays { (self.new.bytes.items ≡ self.old.bytes.items)
            × (self.new.most ≡ self.old.most) × (self.new.fail.items ≡ self.old.fail.items) }
    {
        self.calls = self.calls.saturating_add(1);
        if self.most == 0 || is_listed(&self.fail, self.calls) {
            self.faults = self.faults.saturating_add(1);
            return Err(SourceFault::Failed);
        }
        let left = rest(&self.bytes, self.place);
        let n = left.len().min(buf.len()).min(self.most);
        buf[..n].copy_from_slice(&left[..n]);
        self.place += n;
        self.ended = n == 0;
        Ok(n)
    }
}

/// The bytes from this place on.
fn rest(bytes: &[u8], place: usize) -> &[u8]
    ensures { result.now ≡ drop place bytes.now }
{
    if place < bytes.len() {
        &bytes[place..]
    } else {
        &[]
    }
}

/// A sink that keeps what it takes.
#[derive(Debug, Drop)]
pub struct MemSink {
    /// The bytes that were taken.
    pub taken: Vec<u8>,
    /// The greatest number of bytes that one write takes.
    pub most: usize,
    /// The numbers, from 1, of the writes that fail.
    pub fail: Vec<u32>,
    /// How many writes there were.
    pub calls: u64,
    /// How many writes have failed.
    pub faults: u64,
}

impl MemSink {
    /// A sink that has taken these bytes, takes at most `most` in one write, and whose writes fail
    /// at these numbers, counted from 1.
    pub fn new(taken: Vec<u8>, most: usize, fail: Vec<u32>) -> MemSink
        requires { 0 < most }
        ensures taken { ⟦<MemSink as Sink>⟧.taken result ≡ Some taken.items }
        ensures faults { ⟦<MemSink as Sink>⟧.faults result ≡ 0 }
        ensures most { result.most ≡ most }
        ensures fail { result.fail ≡ fail }
        ensures calls { result.calls ≡ 0 }
    {
        MemSink {
            taken,
            most,
            fail,
            calls: 0,
            faults: 0,
        }
    }
}

impl Sink for MemSink {
    ghost taken = { λ s. Some s.taken.items };

    ghost faults = { λ s. s.faults };

    // It fails exactly at the listed calls, and otherwise takes all that it may.
    fn write(&mut self, piece: &[u8]) -> Result<usize, SinkFault>
        requires { 0 < length piece.now }
        ensures fails { (result ≡ Err SinkFault.Failed)
            ↔ IsTrue (fails_next self.old.most self.old.fail.items self.old.calls) }
        ensures count { IfOk result (λ n. (0 < n) × (n ≡ min (length piece.now) self.old.most)) }
        ensures takes { IfOk result (λ n.
            self.new.taken.items ≡ self.old.taken.items ++ take n piece.now) }
        ensures err { OnErr result (self.new.taken.items ≡ self.old.taken.items) }
        ensures counted { result ≡ Err SinkFault.Failed → self.new.faults ≡ raised self.old.faults }
        ensures quiet { result ≢ Err SinkFault.Failed → self.new.faults ≡ self.old.faults }
        ensures later { self.old.faults ≤ self.new.faults }
        ensures calls { self.new.calls ≡ raised self.old.calls }
        ensures stays { (self.new.most ≡ self.old.most)
            × (self.new.fail.items ≡ self.old.fail.items) }
    {
        self.calls = self.calls.saturating_add(1);
        if self.most == 0 || is_listed(&self.fail, self.calls) {
            self.faults = self.faults.saturating_add(1);
            return Err(SinkFault::Failed);
        }
        let n = piece.len().min(self.most);
        if self.taken.extend_from_slice(&piece[..n]).is_err() {
            return Err(SinkFault::NoMemory);
        }
        Ok(n)
    }
}
