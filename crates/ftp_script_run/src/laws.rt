//! What holds of the legal logs of scripts. The functions do nothing: their clauses are the laws.

ghost use Rattle.ftp_script_run.specs.Clean.{TakenTransfersAreDone, HeadersAreRead};
ghost use Rattle.ftp_script_run.specs.Determined.{SettledRunsAreDetermined, ReadHeadersAreDetermined};
ghost use Rattle.ftp_script_run.specs.Saved.{SavedScriptsAreOne, SavedScriptsGoOn, SavedStatesAreRead};
ghost use Rattle.ftp_script_run.specs.Listed.{ToldFaultsAreListed, ToldHeaderFaultsAreListed};

/// Where a script lists no call that fails, a transfer that is run, and of which the storage's rule refuses no call, is
/// done, or memory ran out; a header that is read is what the line at the front of its connection says.
///
/// # Proved
///
/// - Where a script lists no call that fails, a transfer that is run, and of which the storage's rule refuses no call,
///   is done, or memory ran out; the rule is that of the storage that the script sets up, once the files were begun
///   that were begun before (`transfers`).
/// - Where a script lists no call that fails, a header that is read is what the line at the front of its connection
///   says (`headers`).
pub fn taken_transfers_are_done()
    ensures transfers { TakenTransfersAreDone }
    ensures headers { HeadersAreRead }
{}

/// A whole transfer over a storage and a link in memory, of which no call failed and which nothing cut short, has one
/// outcome and leaves the same files whoever runs it; a header that is read without a fault has one answer, and leaves the same
/// bytes behind it.
///
/// # Proved
///
/// - Two runs of a transfer of which no piece moved before, over the same storage and link in memory, that nothing
///   stopped have the same outcome and leave the same files: no call failed, memory was found, no file would have been
///   too long and no budget passed, and the count of bytes is not at its end (`transfers`).
/// - Two readings of the header of one connection in memory, neither of which met a fault, give one answer and leave
///   the same bytes (`headers`).
pub fn settled_runs_are_determined()
    ensures transfers { SettledRunsAreDetermined }
    ensures headers { ReadHeadersAreDetermined }
{}

/// A fault that an entry tells, of a transfer or of a header, is one that the script lists for a call of its link that was
/// still to come.
///
/// # Proved
///
/// - Each fault that the end of a transfer, or the piece that was its last, tells in a script's log is one that the
///   script lists for a call of the link of that transfer, a call that was still to come before it (`transfers`).
/// - Each fault of a header that a script's log tells is one that the script lists for a call of the link of its
///   connection, a call that was still to come before it (`headers`).
pub fn told_faults_are_listed()
    ensures transfers { ToldFaultsAreListed }
    ensures headers { ToldHeaderFaultsAreListed }
{}

/// Where one script leaves off, by the text of its state, another goes on.
///
/// # Proved
///
/// - The text that is written of the state behind a script's log is read as that state and as no other, and options with the same
///   settings do not refuse it (`read`).
/// - Behind the log of a script all is due that another says which goes on from that text by the same settings (`go_on`).
/// - Where the second sets up the storage and the links that the first left, both logs in a row are due for the events of
///   both, from what the first sets up (`one`).
pub fn saved_scripts_go_on()
    ensures read { SavedStatesAreRead }
    ensures go_on { SavedScriptsGoOn }
    ensures one { SavedScriptsAreOne }
{}
