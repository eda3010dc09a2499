//! What holds of the lines. The function does nothing: its clauses are the laws.

ghost use Rattle.std.specs.Prelude.{◌≡◌, true, Contains};
ghost use Rattle.ftp_events.specs.declared.decision.Decision.{Decision};
ghost use Rattle.ftp_text.specs.Printing.{decision_text};
ghost use Rattle.ftp_script_run.specs.Counts.{names, are_ascending};

/// The lines come in ascending order of names, and each decision has its name among them.
pub fn every_decision_is_counted()
    ensures ascending { are_ascending names ≡ true }
    ensures every { (d : Decision) → Contains names (decision_text d) }
{}
