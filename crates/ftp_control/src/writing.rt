//! Text for a sink.

ghost use Rattle.std.specs.Prelude.{ℕ, ◌≤◌, OnOk, OnErr, IsErrOf};
ghost use Rattle.ftp_base.specs.declared.fault.Failed.TheVariants.{Fault};
ghost use Rattle.ftp_base.specs.Outside.{HasRisen, Writes};
ghost use Rattle.ftp_control.specs.Writing.{WritesFront};

use ftp_base::{Failed, Sink};

/// Writes all of the bytes, in as many calls as the sink needs.
///
/// # Proved
///
/// - All bytes are written, or a part from the front and an error that is the sink's (`wrote`, `front`, `fault_rose`,
///   `count`).
pub fn write_all<K: Sink>(sink: &mut K, bytes: &[u8]) -> Result<(), Failed>
    ensures wrote { OnOk result (Writes (K.written sink.old) (K.written sink.new) bytes.now) }
    ensures fault_rose { IsErrOf result Fault → HasRisen (K.faults sink.old) (K.faults sink.new) }
    ensures count { K.faults sink.old ≤ K.faults sink.new }

    // After an error a part from the front was written.
    ensures front { OnErr result (WritesFront (K.written sink.old) (K.written sink.new) bytes.now) }
{
    let mut rest = bytes;
    while !rest.is_empty() {
        let n = sink.write(rest)?;
        rest = &rest[n..];
    }
    Ok(())
}
