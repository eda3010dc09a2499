//! A whole script: bytes in, and out what its users moved.

ghost use Rattle.std.specs.Prelude.{◌≡◌, ℕ, ◌≤◌, ◌<◌, ◌∷◌, ◌++◌, [], true, List, Option, Some, None, IfSome, IfNone, OnOk, OnErr, IsErrOf, length};
ghost use Rattle.ftp_base.specs.Outside.{HasRisen};
ghost use Rattle.ftp_base.specs.declared.fault.Failed.TheVariants.{Fault};
ghost use Rattle.ftp_options.specs.declared.options.Options.{Options};
ghost use Rattle.ftp_events.specs.declared.entry.Entry.{Entry};
ghost use Rattle.ftp_text.specs.declared.setup.Item.{Item};
ghost use Rattle.ftp_script_run.specs.Script.{may_stand};
ghost use Rattle.ftp_script_run.specs.ScriptReader.{IsLawful};
ghost use Rattle.ftp_script_run.specs.Statuses.{TellsFaults};
ghost use Rattle.ftp_audit.specs.Heard.{HasHeard, Stands};
ghost use Rattle.ftp_script_run.specs.Outcome.{bad_line};
ghost use Rattle.ftp_script_run.specs.Runs.{Keeps, MayTake};
ghost use Rattle.ftp_script_run.specs.Audited.{IsNoted, Hearing, Reports, ReportsPart, AuditOutcome};

use crate::run::Run;
use crate::status::Status;
use crate::{ScriptError, ScriptReader};
use ftp_audit::Audit;
use ftp_base::{Failed, Sink, Source};
use ftp_control::write_all;
use ftp_text::Item;
use std::alloc::Global;

/// Runs the script line by line, by way of a buffer in which any line fits, and writes a line for each user.
pub fn audit_lines<S: Source, K: Sink>(
    alloc: Global,
    buffer: &mut [u8],
    source: &mut S,
    sink: &mut K,
) -> Status
    requires { length buffer.old ≡ 65537 }
    ensures outcome { IfSome (S.left source.old) (λ bytes.
        AuditOutcome result (HasRisen (S.faults source.old) (S.faults source.new)) bytes (S.left source.new) (K.written sink.old) (K.written sink.new)) }
    ensures faults { TellsFaults (Some result) (S.faults source.old) (S.faults source.new) (K.faults sink.old) (K.faults sink.new) }
{
    let mut reader = ScriptReader::new(alloc);
    let mut run = Run::new(alloc);
    let mut audit = Audit::new(alloc);
    let status = hear_all(
        alloc,
        &mut reader,
        &mut run,
        &mut audit,
        buffer,
        source,
        sink,
    );
    drop(audit);
    drop(run);
    drop(reader);
    status
}

// Reads line after line, up to the end, and has the audit hear what they ask for.
fn hear_all<S: Source, K: Sink>(
    alloc: Global,
    reader: &mut ScriptReader,
    run: &mut Run,
    audit: &mut Audit,
    buffer: &mut [u8],
    source: &mut S,
    sink: &mut K,
) -> Status
    requires lawful { IsLawful reader.old buffer.old }
    requires hearing { Hearing (S.left source.old) reader.old run.old audit.old buffer.old (S.left source.old) }
    ensures outcome { IfSome (S.left source.old) (λ bytes.
        AuditOutcome result (HasRisen (S.faults source.old) (S.faults source.new)) bytes (S.left source.new) (K.written sink.old) (K.written sink.new)) }
    ensures faults { TellsFaults (Some result) (S.faults source.old) (S.faults source.new) (K.faults sink.old) (K.faults sink.new) }
{
    loop {
        if let Some(status) = hear(alloc, reader, run, audit, buffer, source, sink) {
            return status;
        }
    }
}

// Reads a line, and has the audit hear what it asks for. It gives the status where the run is at its end.
fn hear<S: Source, K: Sink>(
    alloc: Global,
    reader: &mut ScriptReader,
    run: &mut Run,
    audit: &mut Audit,
    buffer: &mut [u8],
    source: &mut S,
    sink: &mut K,
) -> Option<Status>
    requires lawful { IsLawful reader.old buffer.old }
    requires hearing { (all : Option (List ℕ)) × Hearing all reader.old run.old audit.old buffer.old (S.left source.old) }
    ensures goes_on { IfNone result ((all : Option (List ℕ)) → Hearing all reader.old run.old audit.old buffer.old (S.left source.old) →
        Hearing all reader.new run.new audit.new buffer.new (S.left source.new)) }
    ensures quiet { IfNone result (sink.new ≡ sink.old) }
    ensures ended { IfSome result (λ status. (all : Option (List ℕ)) → Hearing all reader.old run.old audit.old buffer.old (S.left source.old) →
        IfSome all (λ bytes. AuditOutcome status (HasRisen (S.faults source.old) (S.faults source.new)) bytes (S.left source.new) (K.written sink.old) (K.written sink.new))) }
    ensures faults { TellsFaults result (S.faults source.old) (S.faults source.new) (K.faults sink.old) (K.faults sink.new) }
    ensures lawful { IfNone result (IsLawful reader.new buffer.new) }
    ensures moved { IfNone result (reader.old.taken < reader.new.taken) }
{
    match reader.next_item(alloc, buffer, source, run.storage()) {
        Ok(Some(item)) => noted(run, item, audit),
        Ok(None) => Some(Status::Done.after(write_report(audit, sink))),
        Err(ScriptError::BadLine(k)) => Some(Status::BadLine(k).after(write_to(
            audit, run, k, sink,
        ))),
        Err(ScriptError::Fault) => Some(Status::ReadFault.after(write_report(audit, sink))),
        Err(ScriptError::Memory) => Some(Status::OutOfMemory),
    }
}

// Takes the item, and has the audit hear its entry. It gives the status where that fails.
fn noted(run: &mut Run, item: Item, audit: &mut Audit) -> Option<Status>
    requires { MayTake run.old item }
    ensures noted { IfNone result ((items : List Item) (log : List Entry) → Keeps None run.old items log → may_stand items item ≡ true → HasHeard audit.old log →
        IsNoted run.new (items ++ item ∷ []) log audit.new) }
    ensures only_memory { IfSome result (λ s. s ≡ Status.OutOfMemory) }
{
    match run.note(item, audit) {
        Ok(()) => None,
        Err(failed) => Some(Status::stopped_by(failed)),
    }
}

// Writes a line for each user, and the line that names a bad line.
fn write_to<K: Sink>(audit: &Audit, run: &mut Run, number: u64, sink: &mut K) -> Result<(), Failed>
    ensures wrote { OnOk result ((o : Options) (log : List Entry) → Stands o audit.now log → Reports o log (bad_line number) (K.written sink.old) (K.written sink.new)) }
    ensures fault_rose { IsErrOf result Fault → HasRisen (K.faults sink.old) (K.faults sink.new) }
    ensures count { K.faults sink.old ≤ K.faults sink.new }

    // After an error a part from the front was written.
    ensures front { OnErr result ((o : Options) (log : List Entry) → Stands o audit.now log → ReportsPart o log (bad_line number) (K.written sink.old) (K.written sink.new)) }
{
    write_report(audit, sink)?;
    run.bad_line(number, sink)
}

// Writes a line for each user.
fn write_report<K: Sink>(audit: &Audit, sink: &mut K) -> Result<(), Failed>
    ensures wrote { OnOk result ((o : Options) (log : List Entry) → Stands o audit.now log → Reports o log [] (K.written sink.old) (K.written sink.new)) }
    ensures fault_rose { IsErrOf result Fault → HasRisen (K.faults sink.old) (K.faults sink.new) }
    ensures count { K.faults sink.old ≤ K.faults sink.new }

    // After an error a part from the front was written.
    ensures front { OnErr result ((o : Options) (log : List Entry) → Stands o audit.now log → ReportsPart o log [] (K.written sink.old) (K.written sink.new)) }
{
    match audit.report() {
        Ok(report) => write_all(sink, report.as_slice()),
        Err(_) => Err(Failed::Memory),
    }
}
