//! Writing reports.
ghost use Rattle.std.specs.Prelude.{◌≡◌, ℕ, ◌<◌, ◌≤◌, List, [], Option, length, OnOk, OnErr};
ghost use Rattle.std.specs.Prelude.{IsErrOf};
ghost use Rattle.std.specs.Io.KnownBytes.{Appends};
ghost use Rattle.slot_io.specs.Bytes.{AppendsPart};
ghost use Rattle.slot_io.specs.Faults.{Rose};
ghost use Rattle.slot_io.specs.Refusals.{faults_after};
ghost use Rattle.slot_io.specs.Sinks.{at_sink, IsWrite};

use crate::refusal::IoRefusal;

/// Where the report is written to.
pub trait Sink {
    /// The bytes held, where the sink tells them.
    ghost held: { Self → Option (List ℕ) };
    /// How often the writes have failed, up to the last value of a 64-bit counter.
    ghost faults: { Self → ℕ };
    /// That a write may lack memory.
    ghost may_lack: { Type 0 };

    /// Appends the first bytes of the piece, and answers how many: at least one. A device that
    /// takes none has failed. A refused write appends nothing.
    fn write(&mut self, piece: &[u8]) -> Result<usize, IoRefusal>
        requires { 0 < length piece.now }
        ensures { IsWrite may_lack (at_sink held faults self.old) (at_sink held faults self.new)
            piece.now result };
}

/// Appends all the bytes in order. Where there are none, it makes no call, and succeeds.
pub fn write_all<K: Sink>(sink: &mut K, bytes: &[u8]) -> Result<(), IoRefusal>
    ensures whole { OnOk result (Appends (K.held sink.old) (K.held sink.new) bytes.now) }
    ensures part { OnErr result (AppendsPart (K.held sink.old) (K.held sink.new) bytes.now) }
    ensures nothing { bytes.now ≡ [] → (sink.new ≡ sink.old) }
    ensures counts { K.faults sink.old ≤ K.faults sink.new }
    ensures failed { IsErrOf result IoRefusal.Failed
        → Rose (K.faults sink.old) (K.faults sink.new) }
    ensures counted { K.faults sink.new ≡ faults_after result (K.faults sink.old) }
    ensures memory { IsErrOf result IoRefusal.OutOfMemory → K.may_lack }
{
    let mut written = 0;
    while written < bytes.len() {
        written += sink.write(&bytes[written..])?;
    }
    Ok(())
}
