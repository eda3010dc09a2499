//! A whole check: bytes in, a line out.

ghost use Rattle.std.specs.Prelude.{◌≡◌, ◌≢◌, ℕ, ◌≤◌, ◌↔◌, ◌⊎◌, map, IfSome};
ghost use Rattle.ftp_base.specs.Outside.{HasRisen};
ghost use Rattle.ftp_check_log.specs.declared.verdict.Verdict.{Verdict};
ghost use Rattle.ftp_check_log.specs.Verdicts.{TellsOfText};
ghost use Rattle.ftp_check_log.specs.declared.command.CheckCommand.{CheckCommand};
ghost use Rattle.ftp_check_log.specs.declared.command.CheckCommand.TheVariants.{Check, Why};
ghost use Rattle.ftp_check_log.specs.CheckCommands.{AsksFor, text_told};
ghost use Rattle.ftp_check_log.specs.CheckStatuses.{status_due};
ghost use Rattle.ftp_check_log.specs.CheckOutcome.{TellsRight, TellsEvidence, TellsNoEntry, TellsWrong, TellsBad, TellsPart, TellsWhyPart, TellsText, OutcomeOfCommand};

use crate::command::{CheckCommand, check_command};
use crate::status::CheckStatus;
use crate::telling::{CHECK_HELP, CHECK_VERSION, tell, tell_explanation};
use crate::{check, explain};
use ftp_base::{Failed, Sink, Source};
use ftp_control::write_all;
use std::alloc::Global;

/// Does what the words ask for: checks the printed log that the source gives, entry by entry, and writes what that comes
/// to in a line, or why one of its entries was decided as it was; or writes the commands, or the version.
///
/// A log has at most 67,108,864 bytes. It is read in pieces, and by `check` an entry is let go as soon as it is checked;
/// `why` keeps them.
///
/// # Proved
///
/// - Done, of `check`: the bytes of the source are an options line or none and the print of a right and acted log, and
///   `right N` was written, with the number of its entries (`done`); of `why K`: they are so and the log has an entry K,
///   and the evidence for it was written, beside which there is no other (`explained`).
/// - No entry: `why K` was asked of a right and acted log with at most K entries, and nothing was written (`no_entry`).
/// - Wrong, by either command: so many entries are right and acted; the next has another decision, and
///   `wrong M due NAME` was written, or the due decision and other actions, and `actions M` was (`wrong`).
/// - A bad text, by either command: the line is the first that no printed log with the lines before it has, or with
///   which the log is too long, all before it is due, and nothing was written (`bad_text`).
/// - Each of these exactly where it is so: where nothing fails, the status is the one that is due for the command by the
///   verdict that the bytes have, unless memory runs out (`complete`).
/// - A read fault only where the source's count rose, and nothing was written (`read_fault`, `read_idle`); a write fault
///   only where the sink's count rose (`write_fault`); then, or where memory ran out, at most a part of the line was
///   written (`front`, `why_front`).
/// - Usage exactly where the words are no command; nothing is read or written (`usage`, `usage_idle`).
/// - The commands and the version: all of the text was written, or a part and a write fault or want of memory, and
///   nothing is read (`told`, `told_idle`).
/// - No count of faults falls (`source_count`, `sink_count`).
pub fn run_check<S: Source, K: Sink>(
    alloc: Global,
    words: &[Vec<u8>],
    source: &mut S,
    sink: &mut K,
) -> CheckStatus
    ensures usage { (result ≡ CheckStatus.Usage) ↔ ((c : CheckCommand) → AsksFor (map (λ w. w.items) words.now) c → ⊥) }
    ensures usage_idle { result ≡ CheckStatus.Usage → (source.new ≡ source.old) × (sink.new ≡ sink.old) }

    // The log is right and acted.
    ensures done { AsksFor (map (λ w. w.items) words.now) Check → result ≡ CheckStatus.Done →
        IfSome (S.left source.old) (λ bytes. TellsRight bytes (K.written sink.old) (K.written sink.new)) }

    // The log is right and acted, and has the entry.
    ensures explained { (k : ℕ) → AsksFor (map (λ w. w.items) words.now) (Why k) → result ≡ CheckStatus.Done →
        IfSome (S.left source.old) (λ bytes. TellsEvidence k bytes (K.written sink.old) (K.written sink.new)) }

    // It has none there.
    ensures no_entry { result ≡ CheckStatus.NoEntry → (k : ℕ) × AsksFor (map (λ w. w.items) words.now) (Why k) ×
        IfSome (S.left source.old) (λ bytes. TellsNoEntry k bytes (K.written sink.old) (K.written sink.new)) }

    // An entry has another decision than the due one, or other actions.
    ensures wrong { result ≡ CheckStatus.Wrong →
        IfSome (S.left source.old) (λ bytes. TellsWrong bytes (K.written sink.old) (K.written sink.new)) }

    // The line is the first bad one.
    ensures bad_text { (k : ℕ) → result ≡ CheckStatus.BadText k →
        IfSome (S.left source.old) (λ bytes. TellsBad k bytes (K.written sink.old) (K.written sink.new)) }

    // What is so of the log is answered where nothing fails, unless memory runs out.
    ensures complete { (c : CheckCommand) → AsksFor (map (λ w. w.items) words.now) c → IfSome (S.left source.old) (λ bytes. (v : Verdict) → TellsOfText v bytes →
        (HasRisen (S.faults source.old) (S.faults source.new) → ⊥) → (HasRisen (K.faults sink.old) (K.faults sink.new) → ⊥) →
        IfSome (status_due c v) (λ due. (result ≡ due) ⊎ (result ≡ CheckStatus.OutOfMemory))) }
    ensures read_fault { result ≡ CheckStatus.ReadFault → HasRisen (S.faults source.old) (S.faults source.new) }
    ensures read_idle { result ≡ CheckStatus.ReadFault → sink.new ≡ sink.old }

    // After a fault of the sink, or where memory ran out, at most a part of the line was written.
    ensures write_fault { result ≡ CheckStatus.WriteFault → HasRisen (K.faults sink.old) (K.faults sink.new) }
    ensures front { AsksFor (map (λ w. w.items) words.now) Check → (result ≡ CheckStatus.WriteFault) ⊎ (result ≡ CheckStatus.OutOfMemory) →
        IfSome (S.left source.old) (λ bytes. TellsPart bytes (K.written sink.old) (K.written sink.new)) }
    ensures why_front { (k : ℕ) → AsksFor (map (λ w. w.items) words.now) (Why k) → (result ≡ CheckStatus.WriteFault) ⊎ (result ≡ CheckStatus.OutOfMemory) →
        IfSome (S.left source.old) (λ bytes. TellsWhyPart k bytes (K.written sink.old) (K.written sink.new)) }

    // The commands and the version are told.
    ensures told { (c : CheckCommand) → AsksFor (map (λ w. w.items) words.now) c → IfSome (text_told c) (λ text. TellsText result text (K.written sink.old) (K.written sink.new)) }
    ensures told_idle { (c : CheckCommand) → AsksFor (map (λ w. w.items) words.now) c → IfSome (text_told c) (λ _. source.new ≡ source.old) }
    ensures source_count { S.faults source.old ≤ S.faults source.new }
    ensures sink_count { K.faults sink.old ≤ K.faults sink.new }
{
    match check_command(words) {
        Some(command) => run_command(alloc, command, source, sink),
        None => CheckStatus::Usage,
    }
}

// Does what the command asks for.
fn run_command<S: Source, K: Sink>(
    alloc: Global,
    command: CheckCommand,
    source: &mut S,
    sink: &mut K,
) -> CheckStatus
    ensures outcome { OutcomeOfCommand command result (S.left source.old) (K.written sink.old) (K.written sink.new) }
    ensures complete { IfSome (S.left source.old) (λ bytes. (v : Verdict) → TellsOfText v bytes →
        (HasRisen (S.faults source.old) (S.faults source.new) → ⊥) → (HasRisen (K.faults sink.old) (K.faults sink.new) → ⊥) →
        IfSome (status_due command v) (λ due. (result ≡ due) ⊎ (result ≡ CheckStatus.OutOfMemory))) }
    ensures idle { IfSome (text_told command) (λ _. source.new ≡ source.old) }
    ensures no_usage { result ≢ CheckStatus.Usage }
    ensures no_entry { result ≡ CheckStatus.NoEntry → (k : ℕ) × (command ≡ Why k) }
    ensures read_fault { result ≡ CheckStatus.ReadFault → HasRisen (S.faults source.old) (S.faults source.new) }
    ensures read_idle { result ≡ CheckStatus.ReadFault → sink.new ≡ sink.old }
    ensures write_fault { result ≡ CheckStatus.WriteFault → HasRisen (K.faults sink.old) (K.faults sink.new) }
    ensures source_count { S.faults source.old ≤ S.faults source.new }
    ensures sink_count { K.faults sink.old ≤ K.faults sink.new }
{
    match command {
        CheckCommand::Check => match check(alloc, source) {
            Ok(verdict) => CheckStatus::of(verdict).after(tell(alloc, verdict, sink)),
            Err(Failed::Fault) => CheckStatus::ReadFault,
            Err(Failed::Memory) => CheckStatus::OutOfMemory,
        },
        CheckCommand::Why(k) => match explain(alloc, source, k) {
            Ok(found) => CheckStatus::of_explanation(&found).after(tell_explanation(
                alloc, &found, sink,
            )),
            Err(Failed::Fault) => CheckStatus::ReadFault,
            Err(Failed::Memory) => CheckStatus::OutOfMemory,
        },
        CheckCommand::Help => told(CHECK_HELP, sink),
        CheckCommand::Version => told(CHECK_VERSION, sink),
    }
}

// Writes the text, and says how the run ends.
fn told<K: Sink>(text: &[u8], sink: &mut K) -> CheckStatus
    ensures outcome { TellsText result text.now (K.written sink.old) (K.written sink.new) }
    ensures no_usage { result ≢ CheckStatus.Usage }
    ensures no_entry { result ≢ CheckStatus.NoEntry }
    ensures no_read { result ≢ CheckStatus.ReadFault }
    ensures write_fault { result ≡ CheckStatus.WriteFault → HasRisen (K.faults sink.old) (K.faults sink.new) }
    ensures sink_count { K.faults sink.old ≤ K.faults sink.new }
{
    match write_all(sink, text) {
        Ok(()) => CheckStatus::Done,
        Err(Failed::Fault) => CheckStatus::WriteFault,
        Err(Failed::Memory) => CheckStatus::OutOfMemory,
    }
}
