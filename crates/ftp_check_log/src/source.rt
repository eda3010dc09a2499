//! The check of what a source gives.

ghost use Rattle.std.specs.Prelude.{◌≡◌, ℕ, ◌<◌, ◌≤◌, List, [], Option, IfOk, IfSome, IfNone, IsErrOf};
ghost use Rattle.ftp_base.specs.declared.fault.Failed.TheVariants.{Fault};
ghost use Rattle.ftp_base.specs.Outside.{HasRisen};
ghost use Rattle.ftp_text.specs.Place.{IsLawful};
ghost use Rattle.ftp_check_log.specs.Checks.{Checks, TellsBy, KeepsRight};
ghost use Rattle.ftp_check_log.specs.Pending.{unread, IsInBounds, ShowsLine};
ghost use Rattle.ftp_check_log.specs.ReadsOn.{ReadsOn};
ghost use Rattle.ftp_check_log.specs.Verdicts.{IsRightText, TellsOfText, IsOnlyVerdict};

use crate::checker::Checker;
use crate::pending::Pending;
use crate::verdict::Verdict;
use ftp_base::{Failed, Source};
use ftp_text::LineFault;
use std::alloc::Global;

/// Checks the log that the source gives against what is due, entry by entry, up to the first place that is not as it is due.
///
/// A log has at most 67,108,864 bytes: the line that passes them is a bad one. It is read in pieces of 65,536 bytes, and
/// an entry is let go as soon as it is checked: beside the longest line only the sessions and what they hold are kept.
///
/// # Proved
///
/// - Whatever verdict is answered is so of the bytes of the source: right, another decision than the due one, other
///   actions, or a line that no printed log has there; and a right log is answered so, unless the source fails or memory
///   runs out (`tells`, `right`).
/// - No second verdict fits the bytes (`only`).
/// - A fault only where the source's count rose (`fault_rose`, `count`).
pub fn check<S: Source>(alloc: Global, source: &mut S) -> Result<Verdict, Failed>
    // What is answered is so of the bytes.
    ensures tells { IfOk result (λ v. IfSome (S.left source.old) (λ bytes. TellsOfText v bytes)) }

    // No other verdict is so of them.
    ensures only { IfOk result (λ v. IfSome (S.left source.old) (λ bytes. IsOnlyVerdict v bytes)) }

    // A right log is called right, unless the source fails or memory runs out.
    ensures right { IfSome (S.left source.old) (λ bytes. (n : ℕ) → IsRightText n bytes → IfOk result (λ v. v ≡ Verdict.Right n)) }
    ensures fault_rose { IsErrOf result Fault → HasRisen (S.faults source.old) (S.faults source.new) }
    ensures count { S.faults source.old ≤ S.faults source.new }
{
    let mut checker = Checker::new(alloc, false);
    let verdict = verdict_of(alloc, &mut checker, source);
    drop(checker);
    verdict
}

/// What the check of all that the source gives comes to, by a checker that has read nothing.
pub(crate) fn verdict_of<S: Source>(
    alloc: Global,
    checker: &mut Checker,
    source: &mut S,
) -> Result<Verdict, Failed>
    requires lawful { IsLawful checker.old.place }
    requires start { Checks checker.old [] [] [] }
    ensures tells { IfOk result (λ v. IfSome (S.left source.old) (λ bytes. TellsBy v checker.new bytes)) }
    ensures kept { IfOk result (λ v. KeepsRight v checker.new) }
    ensures keeps { checker.new.keeps ≡ checker.old.keeps }
    ensures fault_rose { IsErrOf result Fault → HasRisen (S.faults source.old) (S.faults source.new) }
    ensures count { S.faults source.old ≤ S.faults source.new }
{
    let mut pending = Pending::new(alloc);
    loop {
        match advance(checker, &mut pending, source) {
            Ok(None) => {}
            Ok(Some(verdict)) => return Ok(verdict),
            Err(failed) => return Err(failed),
        }
    }
}

// Reads the next line and checks it: None where it is as it is due.
fn advance<S: Source>(
    checker: &mut Checker,
    pending: &mut Pending,
    source: &mut S,
) -> Result<Option<Verdict>, Failed>
    requires lawful { IsLawful checker.old.place }
    requires kept { IsInBounds pending.old }
    requires reads { (all : Option (List ℕ)) × ReadsOn all checker.old (unread pending.old) (S.left source.old) }
    ensures goes_on { IfOk result (λ ended. IfNone ended ((all : Option (List ℕ)) → ReadsOn all checker.old (unread pending.old) (S.left source.old) →
        ReadsOn all checker.new (unread pending.new) (S.left source.new))) }
    ensures ended { IfOk result (λ ended. IfSome ended (λ v. (all : Option (List ℕ)) → ReadsOn all checker.old (unread pending.old) (S.left source.old) →
        IfSome all (λ bytes. TellsBy v checker.new bytes))) }
    ensures kept_right { IfOk result (λ ended. IfSome ended (λ v. KeepsRight v checker.new)) }
    ensures fault_rose { IsErrOf result Fault → HasRisen (S.faults source.old) (S.faults source.new) }
    ensures count { S.faults source.old ≤ S.faults source.new }

    // The next line can be read, and the check is further on.
    ensures lawful { IfOk result (λ ended. IfNone ended (IsLawful checker.new.place)) }
    ensures kept { IfOk result (λ ended. IfNone ended (IsInBounds pending.new)) }
    ensures moved { IfOk result (λ ended. IfNone ended (checker.old.place.taken < checker.new.place.taken)) }
    ensures keeps { checker.new.keeps ≡ checker.old.keeps }
{
    match pending.fill(source) {
        Ok(()) => check_line(checker, pending),
        Err(failed) => Err(failed),
    }
}

// Checks the next line of what was read, which shows it: None where it is as it is due.
fn check_line(checker: &mut Checker, pending: &mut Pending) -> Result<Option<Verdict>, Failed>
    requires lawful { IsLawful checker.old.place }
    requires kept { IsInBounds pending.old }
    requires reads { (all left : Option (List ℕ)) × ReadsOn all checker.old (unread pending.old) left }
    ensures goes_on { IfOk result (λ ended. IfNone ended ((all left : Option (List ℕ)) → ReadsOn all checker.old (unread pending.old) left →
        ReadsOn all checker.new (unread pending.new) left)) }
    ensures ended { IfOk result (λ ended. IfSome ended (λ v. (all left : Option (List ℕ)) → ReadsOn all checker.old (unread pending.old) left →
        ShowsLine (unread pending.old) left → IfSome all (λ bytes. TellsBy v checker.new bytes))) }
    ensures no_fault { IsErrOf result Fault → ⊥ }
    ensures lawful { IfOk result (λ ended. IfNone ended (IsLawful checker.new.place)) }
    ensures kept { IfOk result (λ ended. IfNone ended (IsInBounds pending.new)) }
    ensures moved { IfOk result (λ ended. IfNone ended (checker.old.place.taken < checker.new.place.taken)) }
    ensures keeps { checker.new.keeps ≡ checker.old.keeps }
{
    let alloc = checker.alloc;
    let bytes = pending.unread();
    if bytes.is_empty() {
        return Ok(Some(checker.end()));
    }
    match checker.place.read(alloc, bytes) {
        Ok((line, behind)) => {
            let rest = behind.len();
            pending.take_to(rest);
            match checker.take(line) {
                Ok(ended) => Ok(ended),
                Err(_) => Err(Failed::Memory),
            }
        }
        Err(LineFault::Bad) => Ok(Some(Verdict::BadText {
            line: checker.place.lines,
        })),
        Err(LineFault::Memory) => Err(Failed::Memory),
    }
}
