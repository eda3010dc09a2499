//! Why an entry of a printed log was decided as it was.

ghost use Rattle.std.specs.Prelude.{◌≡◌, ◌≤◌, [], true, IfOk, IfSome, IsErrOf};
ghost use Rattle.ftp_base.specs.declared.fault.Failed.TheVariants.{Fault};
ghost use Rattle.ftp_base.specs.Outside.{HasRisen};
ghost use Rattle.ftp_events.specs.Right.{IsRight};
ghost use Rattle.ftp_text.specs.Place.{IsLawful};
ghost use Rattle.ftp_check_log.specs.Checks.{Checks};
ghost use Rattle.ftp_check_log.specs.Explanations.{TellsWhy, Explains, TellsOfLog, TellsOfRight, IsRightAsSaid};
ghost use Rattle.ftp_check_log.specs.declared.verdict.Verdict.{Verdict};
ghost use Rattle.ftp_check_log.specs.Verdicts.{TellsOfText};

use crate::checker::Checker;
use crate::evidence::{Evidence, why};
use crate::source::verdict_of;
use crate::verdict::Verdict;
use ftp_base::{Failed, Source};
use ftp_events::Log;
use ftp_options::Options;
use std::alloc::Global;

/// What a printed log tells of one of its entries.
#[derive(Debug, PartialEq, Eq, Drop)]
pub enum Explanation {
    /// The log is right and acted, and this is the evidence for the entry.
    Found(Evidence),
    /// The log is right and acted, and has no such entry.
    NoEntry,
    /// The log is not right and acted.
    Wrong(Verdict),
}

/// Checks the log that the source gives as `check` does, and says why its entry at place `k` was decided as it was, counted
/// from 0 with the oldest entry first.
///
/// The entries are kept until the log is read.
///
/// # Proved
///
/// - Whatever is answered is so of the bytes of the source: the evidence for the entry of a right and acted log, by the
///   options of its options line; or that such a log has no such entry; or the verdict on any other log (`tells`).
/// - Which of the three is answered goes by the verdict that the bytes have (`verdict`).
/// - A fault only where the source's count rose (`fault_rose`, `count`).
pub fn explain<S: Source>(alloc: Global, source: &mut S, k: u64) -> Result<Explanation, Failed>
    ensures tells { IfOk result (λ x. IfSome (S.left source.old) (λ bytes. TellsWhy k x bytes)) }
    ensures verdict { IfOk result (λ x. IfSome (S.left source.old) (λ bytes. (v : Verdict) → TellsOfText v bytes → Explains k x v)) }
    ensures fault_rose { IsErrOf result Fault → HasRisen (S.faults source.old) (S.faults source.new) }
    ensures count { S.faults source.old ≤ S.faults source.new }
{
    let mut checker = Checker::new(alloc, true);
    let explanation = explain_by(alloc, &mut checker, source, k);
    drop(checker);
    explanation
}

// What the log that the source gives tells of its entry at place `k`, by a checker that has read nothing and keeps entries.
fn explain_by<S: Source>(
    alloc: Global,
    checker: &mut Checker,
    source: &mut S,
    k: u64,
) -> Result<Explanation, Failed>
    requires lawful { IsLawful checker.old.place }
    requires start { Checks checker.old [] [] [] }
    requires keeps { checker.old.keeps ≡ true }
    ensures tells { IfOk result (λ x. IfSome (S.left source.old) (λ bytes. TellsWhy k x bytes)) }
    ensures verdict { IfOk result (λ x. IfSome (S.left source.old) (λ bytes. (v : Verdict) → TellsOfText v bytes → Explains k x v)) }
    ensures fault_rose { IsErrOf result Fault → HasRisen (S.faults source.old) (S.faults source.new) }
    ensures count { S.faults source.old ≤ S.faults source.new }
{
    match verdict_of(alloc, checker, source) {
        Ok(verdict) => explained(alloc, checker.hub.options(), &checker.log, verdict, k),
        Err(failed) => Err(failed),
    }
}

// Why the entry at place `k` of a log with this verdict was decided as it was.
fn explained(
    alloc: Global,
    options: &Options,
    log: &Log,
    verdict: Verdict,
    k: u64,
) -> Result<Explanation, Failed>
    requires right { IsRightAsSaid verdict options.now log.now.entries }
    ensures tells { IfOk result (TellsOfLog verdict options.now log.now.entries k) }
    ensures no_fault { IsErrOf result Fault → ⊥ }
{
    match verdict {
        Verdict::Right { .. } => found(alloc, options, log, k),
        Verdict::Decided { .. } | Verdict::Acted { .. } | Verdict::BadText { .. } => {
            Ok(Explanation::Wrong(verdict))
        }
    }
}

// The evidence for the entry at place `k` of a right log, where it has one.
fn found(alloc: Global, options: &Options, log: &Log, k: u64) -> Result<Explanation, Failed>
    requires right { IsRight options.now log.now.entries }
    ensures tells { IfOk result (TellsOfRight options.now log.now.entries k) }
    ensures no_fault { IsErrOf result Fault → ⊥ }
{
    if k >= log.len() {
        return Ok(Explanation::NoEntry);
    }
    match why(alloc, options, log, k) {
        Ok(evidence) => Ok(Explanation::Found(evidence)),
        Err(_) => Err(Failed::Memory),
    }
}
