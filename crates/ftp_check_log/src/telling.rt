//! What the program writes.

ghost use Rattle.std.specs.Prelude.{◌≡◌, ◌≤◌, ◌++◌, OnOk, OnErr, IsErrOf};
ghost use Rattle.ftp_base.specs.declared.fault.Failed.TheVariants.{Fault};
ghost use Rattle.ftp_base.specs.Outside.{HasRisen, Writes};
ghost use Rattle.ftp_control.specs.Writing.{WritesFront};
ghost use Rattle.ftp_check_log.specs.VerdictLines.{number_line, due_line, verdict_text, explanation_text};

use crate::{Explanation, Verdict, put_evidence};
use ftp_base::{Failed, Sink};
use ftp_control::write_all;
use ftp_events::Decision;
use ftp_text::decision_text;
use ftp_text::writing::{put, put_byte, put_field, put_number};
use std::alloc::{AllocError, Global};

/// The commands, in plain words.
pub const CHECK_HELP: &[u8] = b"ftp_check check
    checks the printed log that standard input gives, behind an options line or
    none and without the lines on links and files, and prints `right N` for a
    right log of N entries; else `wrong M due NAME` for the first entry with
    another decision than the due one, or `actions M` for one with other
    actions; entries are counted from 0
ftp_check why K
    checks the log too, and prints why entry K of a right one was decided as it
    was: `held G` if entry G granted the port, `free R` if entry R released it
    last, `free -` if no entry granted it, `full` and the entries that granted
    each port of the range, or `plain` if the decision rests on no port; of a
    log without an entry K it prints nothing
ftp_check --help
    prints the commands
ftp_check --version
    prints the version
";

/// The name and the version of the program.
pub const CHECK_VERSION: &[u8] = b"ftp_check 0.1.0\n";

/// Writes the line that tells the verdict: none for a bad text.
pub fn tell<K: Sink>(alloc: Global, verdict: Verdict, sink: &mut K) -> Result<(), Failed>
    ensures wrote { OnOk result (Writes (K.written sink.old) (K.written sink.new) (verdict_text verdict)) }
    ensures fault_rose { IsErrOf result Fault → HasRisen (K.faults sink.old) (K.faults sink.new) }
    ensures count { K.faults sink.old ≤ K.faults sink.new }

    // After an error a part from the front was written.
    ensures front { OnErr result (WritesFront (K.written sink.old) (K.written sink.new) (verdict_text verdict)) }
{
    let mut text = Vec::new(alloc);
    match put_verdict(&mut text, verdict) {
        Ok(()) => write_all(sink, text.as_slice()),
        Err(_) => Err(Failed::Memory),
    }
}

/// Writes the line that tells the explanation: none where there is no entry.
pub fn tell_explanation<K: Sink>(
    alloc: Global,
    explanation: &Explanation,
    sink: &mut K,
) -> Result<(), Failed>
    ensures wrote { OnOk result (Writes (K.written sink.old) (K.written sink.new) (explanation_text explanation.now)) }
    ensures fault_rose { IsErrOf result Fault → HasRisen (K.faults sink.old) (K.faults sink.new) }
    ensures count { K.faults sink.old ≤ K.faults sink.new }

    // After an error a part from the front was written.
    ensures front { OnErr result (WritesFront (K.written sink.old) (K.written sink.new) (explanation_text explanation.now)) }
{
    let mut text = Vec::new(alloc);
    match put_explanation(&mut text, explanation) {
        Ok(()) => write_all(sink, text.as_slice()),
        Err(_) => Err(Failed::Memory),
    }
}

fn put_explanation(out: &mut Vec<u8>, explanation: &Explanation) -> Result<(), AllocError>
    ensures { OnOk result (out.new.items ≡ out.old.items ++ explanation_text explanation.now) }
{
    match explanation {
        Explanation::Found(evidence) => {
            put_evidence(out, evidence)?;
            put_byte(out, b'\n')
        }
        Explanation::NoEntry => Ok(()),
        Explanation::Wrong(verdict) => put_verdict(out, *verdict),
    }
}

fn put_verdict(out: &mut Vec<u8>, verdict: Verdict) -> Result<(), AllocError>
    ensures { OnOk result (out.new.items ≡ out.old.items ++ verdict_text verdict) }
{
    match verdict {
        Verdict::Right { entries } => put_count(out, b"right", entries),
        Verdict::Decided { entries, due } => put_due(out, entries, due),
        Verdict::Acted { entries } => put_count(out, b"actions", entries),
        Verdict::BadText { .. } => Ok(()),
    }
}

fn put_count(out: &mut Vec<u8>, word: &[u8], n: u64) -> Result<(), AllocError>
    ensures { OnOk result (out.new.items ≡ out.old.items ++ number_line word.now n) }
{
    put(out, word)?;
    put_number(out, n)?;
    put_byte(out, b'\n')
}

fn put_due(out: &mut Vec<u8>, entry: u64, due: Decision) -> Result<(), AllocError>
    ensures { OnOk result (out.new.items ≡ out.old.items ++ due_line entry due) }
{
    put(out, b"wrong")?;
    put_number(out, entry)?;
    put_field(out, b"due")?;
    put_field(out, decision_text(due))?;
    put_byte(out, b'\n')
}
