//! What is asked of the outside: files by their names, bytes to read, and a place for bytes.

ghost use Rattle.std.specs.Prelude.{◌≡◌, ◌≢◌, ◌<◌, ◌≤◌, ℕ, Bool, false, List, [], length, take, Option, Ok, Err, IfOk, OnErr, vec_len};
ghost use Rattle.std.specs.Io.KnownBytes.{append_known, prepend_known};
ghost use Rattle.map_base.specs.Outside.{Rose, Files, Tells, TellsLonger, NothingLeft, tells_end};

/// How a load went.
#[derive(Clone, Copy, Debug, PartialEq, Eq)]
pub enum Loading {
    /// The whole file was loaded.
    Whole,
    /// The file has more bytes than were allowed, and none was loaded.
    TooLong,
}

/// Why a load gave no answer.
#[derive(Clone, Copy, Debug, PartialEq, Eq)]
pub enum ShelfFault {
    /// There is no such file, or it cannot be read. The shelf has counted this.
    Failed,
    /// There is no memory for the file.
    NoMemory,
}

/// Why a read gave no answer: the source has failed, and has counted this.
#[derive(Clone, Copy, Debug, PartialEq, Eq)]
pub enum SourceFault {
    Failed,
}

/// Why a write took nothing.
#[derive(Clone, Copy, Debug, PartialEq, Eq)]
pub enum SinkFault {
    /// The sink has failed, and has counted this.
    Failed,
    /// There is no memory for the bytes.
    NoMemory,
}

/// Files by their names.
pub trait Shelf {
    /// The files, where the shelf tells them.
    ghost files: { Self → Option Files };

    /// How often a load has failed.
    ghost faults: { Self → ℕ };

    /// The name of the last failed load.
    ghost failed: { Self → List ℕ };

    /// Loads the file of this name into `into`, which is empty, where it has at most `most` bytes.
    fn load(&mut self, name: &str, into: &mut Vec<u8>, most: usize) -> Result<Loading, ShelfFault>
        requires { into.old.items ≡ [] }
        ensures whole { result ≡ Ok Loading.Whole →
            (vec_len into.new ≤ most) × Tells (files self.old) name.now into.new.items }
        ensures long { result ≡ Ok Loading.TooLong → TellsLonger (files self.old) name.now most }
        ensures empty { result ≢ Ok Loading.Whole → into.new.items ≡ [] }
        ensures keeps { files self.new ≡ files self.old }
        ensures cause { result ≡ Err ShelfFault.Failed →
            Rose (faults self.old) (faults self.new) × (failed self.new ≡ name.now) }
        ensures quiet { result ≢ Err ShelfFault.Failed →
            (faults self.new ≡ faults self.old) × (failed self.new ≡ failed self.old) }
        ensures later { faults self.old ≤ faults self.new };
}

/// Bytes to read, up to an end.
pub trait Source {
    /// The bytes that are left, where the source tells them.
    ghost left: { Self → Option (List ℕ) };

    /// Whether the source has told its end.
    ghost ended: { Self → Bool };

    /// How often a read has failed.
    ghost faults: { Self → ℕ };

    /// Takes the next bytes into the front of `buf`, and says how many. None is the end.
    fn read(&mut self, buf: &mut [u8]) -> Result<usize, SourceFault>
        requires room { 0 < length buf.old }
        requires more { ended self.old ≡ false }
        ensures count { IfOk result (λ n. n ≤ length buf.new) }
        ensures takes { IfOk result (λ n.
            left self.old ≡ prepend_known (take n buf.new) (left self.new)) }
        ensures end { IfOk result (λ n. n ≡ 0 → NothingLeft (left self.old)) }
        ensures told { ended self.new ≡ tells_end result }
        ensures err { OnErr result (left self.new ≡ left self.old) }
        ensures cause { OnErr result (Rose (faults self.old) (faults self.new)) }
        ensures quiet { IfOk result (λ _. faults self.new ≡ faults self.old) }
        ensures later { faults self.old ≤ faults self.new };
}

/// A place for bytes.
pub trait Sink {
    /// The bytes that were taken, where the sink tells them.
    ghost taken: { Self → Option (List ℕ) };

    /// How often a write has failed.
    ghost faults: { Self → ℕ };

    /// Takes one or more bytes from the front of the piece, and says how many.
    fn write(&mut self, piece: &[u8]) -> Result<usize, SinkFault>
        requires { 0 < length piece.now }
        ensures count { IfOk result (λ n. (0 < n) × (n ≤ length piece.now)) }
        ensures takes { IfOk result (λ n.
            taken self.new ≡ append_known (taken self.old) (take n piece.now)) }
        ensures err { OnErr result (taken self.new ≡ taken self.old) }
        ensures cause { result ≡ Err SinkFault.Failed → Rose (faults self.old) (faults self.new) }
        ensures quiet { result ≢ Err SinkFault.Failed → faults self.new ≡ faults self.old }
        ensures later { faults self.old ≤ faults self.new };
}
