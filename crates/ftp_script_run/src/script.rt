//! A whole script: bytes in, lines out.

ghost use Rattle.std.specs.Prelude.{◌≡◌, ◌≢◌, ℕ, ◌≤◌, ◌<◌, ◌↔◌, ◌⊎◌, ◌∷◌, ◌++◌, [], true, List, Option, Some, None, IfSome, IfNone, length, map};
ghost use Rattle.std.specs.Option.{OnSome};
ghost use Rattle.ftp_base.specs.Outside.{HasRisen, Writes};
ghost use Rattle.ftp_events.specs.declared.entry.Entry.{Entry};
ghost use Rattle.ftp_text.specs.declared.setup.Item.{Item};
ghost use Rattle.ftp_script_run.specs.Script.{IsScriptOf};
ghost use Rattle.ftp_script_run.specs.ScriptReader.{IsLawful};
ghost use Rattle.ftp_script_run.specs.Statuses.{IsCutShort, HasNotRisen, TellsFaults};
ghost use Rattle.ftp_script_run.specs.declared.command.Command.{Command};
ghost use Rattle.ftp_script_run.specs.declared.command.Command.TheVariants as command;
ghost use Rattle.ftp_script_run.specs.declared.command.Command.TheVariants.{Audit, Resume, Tell};
ghost use Rattle.ftp_script_run.specs.declared.command.Ending.{Ending};
ghost use Rattle.ftp_script_run.specs.declared.command.Told.{Told};
ghost use Rattle.ftp_script_run.specs.declared.command.Told.TheVariants.{Stress};
ghost use Rattle.ftp_script_run.specs.CommandOutcome.{CommandOutcome};
ghost use Rattle.ftp_script_run.specs.Commands as commands;
ghost use Rattle.ftp_script_run.specs.Commands.{Asks, text_of};
ghost use Rattle.ftp_control.specs.Writing.{WritesFront};
ghost use Rattle.ftp_script_run.specs.Stress.{stress_lines};
ghost use Rattle.ftp_script_run.specs.Outcome.{IsDone, HasBadLine, WritesWhole, WritesPart, Outcome};
ghost use Rattle.ftp_script_run.specs.Resumed.{HasBadResumedLine, IsResumed};
ghost use Rattle.ftp_script_run.specs.Resuming.{IsResumeCut};
ghost use Rattle.ftp_script_run.specs.Audited.{IsAudited, IsAuditedTo, AuditsWhole, AuditsPart};
ghost use Rattle.ftp_script_run.specs.Runs.{Before, Keeps, MayCome, MayTake, IsTaken, IsPartlyTaken, Running};

use crate::auditing::audit_lines;
use crate::command::{Command, Ending, command_of};
use crate::resuming::resume_lines;
use crate::run::Run;
use crate::status::Status;
use crate::telling::tell;
use crate::{BUFFER_SIZE, ScriptError, ScriptReader};
use ftp_base::{Sink, Source};
use ftp_text::Item;
use std::alloc::Global;

/// Does what the words ask for: runs the script that the source gives, anew or from a state on, event by event, and
/// writes its printed log, with links and files or the state of the hub behind it, or in place of it a line for each user on what it moved and how
/// often it came and went; or writes how often each decision came in a run of drawn events, the commands, or the version.
///
/// A line has at most 65,536 bytes, its line feed not counted, and a script 16,777,216. An entry is let go as soon as it
/// is written or heard.
///
/// # Proved
///
/// - Done: all bytes were read and are a script; what was written is the printed log of its events, each decided and
///   done as is due under the options of its line, or the builder's defaults where it has none, then a line for each
///   link in order of number and for each file in byte order of paths, of the links and the storage that its events
///   leave; or, where the state is asked for, the text of a state that answers each question as this log does, and whose
///   lists have the order and the form of a state's lines (`IsEnd` in `ftp_script_run/specs/Outcome.antt`) (`done`).
/// - A script's storage and links are at first as its lines set them up; each transfer is run at its end, on that
///   storage and on the link that it started on, each header is read from the link of its connection, and nothing else
///   changes them; of the storage and of each link no more calls fail than their lines list (`done`, `bad_line`,
///   `read_whole`, `front`).
/// - A bad line is the script's first; what was written is the printed log of the lines before it, then `bad line k`;
///   behind these lines at most one buffer of the source was taken (`ReadsAhead`) (`bad_line`).
/// - A read fault only where the source's count rose; what was written is exactly the printed log of the whole lines
///   that were read, and of what stands behind them at most one buffer was taken (`read_fault`, `read_whole`).
/// - A write fault only where the sink's count rose (`write_fault`).
/// - After a write fault or want of memory what was written is a front of the log, as the whole lines that were read give
///   it, or the log and a front of what stands behind it: links and files, or the state, only where all was read, and the
///   line of a bad line where it was read; behind the lines of the items at most one buffer was taken (`front`).
/// - Usage exactly where the words are no command; nothing is read or written (`usage`, `usage_idle`).
/// - A stress run: what was written is how often each decision came in the right log of its drawn events, a line each;
///   after a write fault or want of memory a front of that (`stress`, `stress_front`).
/// - An audit: done, the report on the legal log of the script was written and nothing else (`IsReport` in
///   `ftp_script_run/specs/Audited.antt`: a line for each user whom a notification names, with the sums of what was
///   decided); with a bad line the report on the lines before it and then that line's; after a read fault that on the
///   whole lines; after a write fault or want of memory nothing, or a front of it (`audit_done`, `audit_bad_line`,
///   `audit_whole`, `audit_front`).
/// - A script that goes on from a state: what is read is an options line or none, the text of a state that the options do
///   not refuse, a line of two hyphens and a script without options; what was written is the printed log of its events,
///   each decided and done as is due behind every right and acted log that has the state, and then the lines on the
///   links and files that they leave (`resume_done`; `IsLegalBehind` in `ftp_script_run/specs/Resumed.antt`). A bad line
///   is the first: none of the state's, the line of two hyphens behind a state that is refused, the one that is missing,
///   or one of the script; among these are an event before the links that the state names and one at the end of the
///   count (`resume_bad_line`). After a fault or want of memory a part from the front was written (`resume_cut`).
/// - Where nothing fails an audit of a script is done, and of other bytes the first bad line is named, unless memory
///   runs out (`audit_complete`, `audit_first_bad`).
/// - The same of the commands and the version; in none of the three is the source touched, and each ends with done, or
///   with a write fault or want of memory (`told`, `told_front`, `told_idle`, `told_ends`, `told_complete`).
/// - Where nothing fails, a script is run to its end, and of other bytes the first bad line is named, unless memory
///   runs out (`complete`, `first_bad`).
/// - No count of faults falls (`source_count`, `sink_count`).
pub fn run_script<S: Source, K: Sink>(
    alloc: Global,
    words: &[Vec<u8>],
    source: &mut S,
    sink: &mut K,
) -> Status
    ensures usage { (result ≡ Status.Usage) ↔ ((c : Command) → Asks (map (λ w. w.items) words.now) c → ⊥) }
    ensures usage_idle { result ≡ Status.Usage → (source.new ≡ source.old) × (sink.new ≡ sink.old) }

    // All was read and is a script, and its log was written, with links and files or the state behind it.
    ensures done { (e : Ending) → Asks (map (λ w. w.items) words.now) (command.Run e) → result ≡ Status.Done →
        IfSome (S.left source.old) (λ bytes. IsDone e bytes (S.left source.new) (K.written sink.old) (K.written sink.new)) }
    ensures bad_line { (e : Ending) → Asks (map (λ w. w.items) words.now) (command.Run e) → (k : ℕ) → result ≡ Status.BadLine k → IfSome (S.left source.old) (λ bytes. HasBadLine k bytes (S.left source.new) (K.written sink.old) (K.written sink.new)) }

    // After a fault of the source the log of the whole lines that were read was written.
    ensures read_fault { result ≡ Status.ReadFault → HasRisen (S.faults source.old) (S.faults source.new) }
    ensures read_whole { (e : Ending) → Asks (map (λ w. w.items) words.now) (command.Run e) → result ≡ Status.ReadFault → IfSome (S.left source.old) (λ bytes. WritesWhole bytes (S.left source.new) (K.written sink.old) (K.written sink.new)) }

    // After a fault of the sink, or where memory ran out, a part from the front was written.
    ensures write_fault { result ≡ Status.WriteFault → HasRisen (K.faults sink.old) (K.faults sink.new) }
    ensures front { (e : Ending) → Asks (map (λ w. w.items) words.now) (command.Run e) → IsCutShort result →
        IfSome (S.left source.old) (λ bytes. WritesPart e bytes (S.left source.new) (K.written sink.old) (K.written sink.new)) }

    // Where nothing fails, a script is run to its end, and the first bad line is named.
    ensures complete { (e : Ending) → Asks (map (λ w. w.items) words.now) (command.Run e) → IfSome (S.left source.old) (λ bytes. (items : List Item) → IsScriptOf bytes items None →
        HasNotRisen (S.faults source.old) (S.faults source.new) → HasNotRisen (K.faults sink.old) (K.faults sink.new) →
        (result ≡ Status.Done) ⊎ (result ≡ Status.OutOfMemory)) }
    ensures first_bad { (e : Ending) → Asks (map (λ w. w.items) words.now) (command.Run e) → (k : ℕ) → IfSome (S.left source.old) (λ bytes. (items : List Item) → IsScriptOf bytes items (Some k) →
        HasNotRisen (S.faults source.old) (S.faults source.new) → HasNotRisen (K.faults sink.old) (K.faults sink.new) →
        (result ≡ Status.BadLine k) ⊎ (result ≡ Status.OutOfMemory)) }

    // The same of an audit: in place of the log the report on it is written, a line for each user.
    ensures audit_done { Asks (map (λ w. w.items) words.now) Audit → result ≡ Status.Done →
        IfSome (S.left source.old) (λ bytes. IsAudited bytes (S.left source.new) (K.written sink.old) (K.written sink.new)) }
    ensures audit_bad_line { Asks (map (λ w. w.items) words.now) Audit → (k : ℕ) → result ≡ Status.BadLine k →
        IfSome (S.left source.old) (λ bytes. IsAuditedTo k bytes (S.left source.new) (K.written sink.old) (K.written sink.new)) }
    ensures audit_whole { Asks (map (λ w. w.items) words.now) Audit → result ≡ Status.ReadFault →
        IfSome (S.left source.old) (λ bytes. AuditsWhole bytes (S.left source.new) (K.written sink.old) (K.written sink.new)) }
    ensures audit_front { Asks (map (λ w. w.items) words.now) Audit → IsCutShort result →
        IfSome (S.left source.old) (λ bytes. AuditsPart (HasRisen (S.faults source.old) (S.faults source.new)) bytes (S.left source.new) (K.written sink.old) (K.written sink.new)) }
    ensures audit_complete { Asks (map (λ w. w.items) words.now) Audit → IfSome (S.left source.old) (λ bytes. (items : List Item) → IsScriptOf bytes items None →
        HasNotRisen (S.faults source.old) (S.faults source.new) → HasNotRisen (K.faults sink.old) (K.faults sink.new) →
        (result ≡ Status.Done) ⊎ (result ≡ Status.OutOfMemory)) }
    ensures audit_first_bad { Asks (map (λ w. w.items) words.now) Audit → (k : ℕ) → IfSome (S.left source.old) (λ bytes. (items : List Item) → IsScriptOf bytes items (Some k) →
        HasNotRisen (S.faults source.old) (S.faults source.new) → HasNotRisen (K.faults sink.old) (K.faults sink.new) →
        (result ≡ Status.BadLine k) ⊎ (result ≡ Status.OutOfMemory)) }

    // The same of a script that goes on from a state: its log stands behind each that has the state.
    ensures resume_done { Asks (map (λ w. w.items) words.now) Resume → result ≡ Status.Done →
        IfSome (S.left source.old) (λ bytes. IsResumed bytes (S.left source.new) (K.written sink.old) (K.written sink.new)) }
    ensures resume_bad_line { Asks (map (λ w. w.items) words.now) Resume → (k : ℕ) → result ≡ Status.BadLine k →
        IfSome (S.left source.old) (λ bytes. HasBadResumedLine k bytes (K.written sink.old) (K.written sink.new)) }
    ensures resume_cut { Asks (map (λ w. w.items) words.now) Resume → (result ≡ Status.ReadFault) ⊎ IsCutShort result →
        IfSome (S.left source.old) (λ bytes. IsResumeCut bytes (K.written sink.old) (K.written sink.new)) }

    // The counts of exactly the drawn events were written, or a part from the front.
    ensures stress { (seed sessions : ℕ) → Asks (map (λ w. w.items) words.now) (Tell (Stress seed sessions)) → result ≡ Status.Done →
        Writes (K.written sink.old) (K.written sink.new) (stress_lines seed sessions) }
    ensures stress_front { (seed sessions : ℕ) → Asks (map (λ w. w.items) words.now) (Tell (Stress seed sessions)) → IsCutShort result →
        WritesFront (K.written sink.old) (K.written sink.new) (stress_lines seed sessions) }

    // The same of every text that is told where nothing is read.
    ensures told { (t : Told) → Asks (map (λ w. w.items) words.now) (Tell t) → result ≡ Status.Done → Writes (K.written sink.old) (K.written sink.new) (text_of t) }
    ensures told_front { (t : Told) → Asks (map (λ w. w.items) words.now) (Tell t) → IsCutShort result → WritesFront (K.written sink.old) (K.written sink.new) (text_of t) }
    ensures told_idle { (t : Told) → Asks (map (λ w. w.items) words.now) (Tell t) → source.new ≡ source.old }

    // Without a fault of the sink all of it is written.
    ensures told_ends { (t : Told) → Asks (map (λ w. w.items) words.now) (Tell t) → (result ≡ Status.Done) ⊎ IsCutShort result }
    ensures told_complete { (t : Told) → Asks (map (λ w. w.items) words.now) (Tell t) → HasNotRisen (K.faults sink.old) (K.faults sink.new) →
        (result ≡ Status.Done) ⊎ (result ≡ Status.OutOfMemory) }

    ensures source_count { S.faults source.old ≤ S.faults source.new }
    ensures sink_count { K.faults sink.old ≤ K.faults sink.new }
{
    match command_of(words) {
        Some(command) => run_command(alloc, command, source, sink),
        None => Status::Usage,
    }
}

// Does what the command asks for.
fn run_command<S: Source, K: Sink>(
    alloc: Global,
    command: Command,
    source: &mut S,
    sink: &mut K,
) -> Status
    requires { commands.IsLawful command }
    ensures outcome { CommandOutcome command result (HasRisen (S.faults source.old) (S.faults source.new)) (S.left source.old) (S.left source.new) (K.written sink.old) (K.written sink.new) }
    ensures no_usage { result ≢ Status.Usage }
    ensures read_fault { result ≡ Status.ReadFault → HasRisen (S.faults source.old) (S.faults source.new) }
    ensures write_fault { result ≡ Status.WriteFault → HasRisen (K.faults sink.old) (K.faults sink.new) }
    ensures idle { (t : Told) → command ≡ Tell t → source.new ≡ source.old }
    ensures source_count { S.faults source.old ≤ S.faults source.new }
    ensures sink_count { K.faults sink.old ≤ K.faults sink.new }
{
    let mut buffer = [0u8; BUFFER_SIZE];
    match command {
        Command::Run(ending) => run_lines(alloc, ending, &mut buffer, source, sink),
        Command::Resume => resume_lines(alloc, &mut buffer, source, sink),
        Command::Audit => audit_lines(alloc, &mut buffer, source, sink),
        Command::Tell(told) => Status::Done.after(tell(alloc, told, sink)),
    }
}

// Runs the script line by line, by way of a buffer in which any line fits.
fn run_lines<S: Source, K: Sink>(
    alloc: Global,
    ending: Ending,
    buffer: &mut [u8],
    source: &mut S,
    sink: &mut K,
) -> Status
    requires { length buffer.old ≡ 65537 }
    ensures outcome { IfSome (S.left source.old) (λ bytes. Outcome ending result bytes (S.left source.new) (K.written sink.old) (K.written sink.new)) }
    ensures faults { TellsFaults (Some result) (S.faults source.old) (S.faults source.new) (K.faults sink.old) (K.faults sink.new) }
{
    let mut reader = ScriptReader::new(alloc);
    let mut run = Run::new(alloc);
    let status = run_all(alloc, ending, &mut reader, &mut run, buffer, source, sink);
    drop(run);
    drop(reader);
    status
}

// Runs line after line, up to the end.
fn run_all<S: Source, K: Sink>(
    alloc: Global,
    ending: Ending,
    reader: &mut ScriptReader,
    run: &mut Run,
    buffer: &mut [u8],
    source: &mut S,
    sink: &mut K,
) -> Status
    requires lawful { IsLawful reader.old buffer.old }
    requires running { Running None (S.left source.old) reader.old run.old buffer.old (S.left source.old) (K.written sink.old) (K.written sink.old) }
    ensures outcome { IfSome (S.left source.old) (λ bytes. Outcome ending result bytes (S.left source.new) (K.written sink.old) (K.written sink.new)) }
    ensures faults { TellsFaults (Some result) (S.faults source.old) (S.faults source.new) (K.faults sink.old) (K.faults sink.new) }
{
    loop {
        if let Some(status) = advance(alloc, ending, reader, run, buffer, source, sink) {
            return status;
        }
    }
}

// Reads a line and does what it asks for. It gives the status where the run is at its end.
fn advance<S: Source, K: Sink>(
    alloc: Global,
    ending: Ending,
    reader: &mut ScriptReader,
    run: &mut Run,
    buffer: &mut [u8],
    source: &mut S,
    sink: &mut K,
) -> Option<Status>
    requires lawful { IsLawful reader.old buffer.old }
    requires running { (all : Option (List ℕ)) × (before : Option (List ℕ)) × Running None all reader.old run.old buffer.old (S.left source.old) before (K.written sink.old) }
    ensures goes_on { IfNone result ((all before : Option (List ℕ)) → Running None all reader.old run.old buffer.old (S.left source.old) before (K.written sink.old) →
        Running None all reader.new run.new buffer.new (S.left source.new) before (K.written sink.new)) }
    ensures ended { IfSome result (λ status. (all before : Option (List ℕ)) → Running None all reader.old run.old buffer.old (S.left source.old) before (K.written sink.old) →
        IfSome all (λ bytes. Outcome ending status bytes (S.left source.new) before (K.written sink.new))) }
    ensures faults { TellsFaults result (S.faults source.old) (S.faults source.new) (K.faults sink.old) (K.faults sink.new) }
    ensures lawful { IfNone result (IsLawful reader.new buffer.new) }
    ensures moved { IfNone result (reader.old.taken < reader.new.taken) }
{
    match reader.next_item(alloc, buffer, source, run.storage()) {
        Ok(Some(item)) => taken(run, item, sink),
        Ok(None) => Some(Status::Done.after(run.close(ending, sink))),
        Err(ScriptError::BadLine(k)) => Some(Status::BadLine(k).after(run.bad_line(k, sink))),
        Err(ScriptError::Fault) => Some(Status::ReadFault),
        Err(ScriptError::Memory) => Some(Status::OutOfMemory),
    }
}

/// Takes the item. It gives the status where that fails.
pub(crate) fn taken<K: Sink>(run: &mut Run, item: Item, sink: &mut K) -> Option<Status>
    requires { MayTake run.old item }
    ensures took { IfNone result ((before : Before) (items : List Item) (log : List Entry) → Keeps before run.old items log → MayCome before run.old items item →
        IsTaken before run.new (items ++ item ∷ []) log (K.written sink.old) (K.written sink.new)) }
    ensures front { OnSome result ((before : Before) (items : List Item) (log : List Entry) → Keeps before run.old items log → MayCome before run.old items item →
        IsPartlyTaken before run.new (items ++ item ∷ []) log (K.written sink.old) (K.written sink.new)) }
    ensures cut_short { IfSome result IsCutShort }
    ensures write_fault { result ≡ Some Status.WriteFault → HasRisen (K.faults sink.old) (K.faults sink.new) }
    ensures sink_count { K.faults sink.old ≤ K.faults sink.new }
{
    match run.take(item, sink) {
        Ok(()) => None,
        Err(failed) => Some(Status::stopped_by(failed)),
    }
}
