//! Writing whole texts to a sink that takes them piece by piece.

ghost use Rattle.std.specs.Prelude.{◌≡◌, ◌≢◌, ◌≤◌, Err, OnOk, OnErr};
ghost use Rattle.std.specs.Io.KnownBytes.{append_known};
ghost use Rattle.map_base.specs.Outside.{Rose, TakesPrefix};

use map_base::{Sink, SinkFault};

/// Writes all the bytes. After an error the sink has taken a beginning of them.
pub fn put<O: Sink>(out: &mut O, bytes: &[u8]) -> Result<(), SinkFault>
    ensures all { OnOk result (O.taken out.new ≡ append_known (O.taken out.old) bytes.now) }
    ensures some { OnErr result (TakesPrefix (O.taken out.old) (O.taken out.new) bytes.now) }
    ensures cause { result ≡ Err SinkFault.Failed → Rose (O.faults out.old) (O.faults out.new) }
    ensures quiet { result ≢ Err SinkFault.Failed → O.faults out.new ≡ O.faults out.old }
    ensures later { O.faults out.old ≤ O.faults out.new }
{
    let mut at = 0;
    while at < bytes.len() {
        match out.write(&bytes[at..]) {
            Ok(n) => at += n,
            Err(e) => return Err(e),
        }
    }
    Ok(())
}
