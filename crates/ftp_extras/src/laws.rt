//! Laws of all words. The functions do nothing: their clauses are the laws.

ghost use Rattle.ftp_extras.specs.Laws.{WordsWaitForLogin, RenamesWhatWasNamed};

/// Before the login only the open words are answered.
///
/// # Proved
///
/// - Before the login each word but FEAT, OPTS, SYST, HELP, CLNT, PBSZ and PROT is refused, whatever stands behind it, and what
///   RNFR named is forgotten (`waits`).
pub fn words_wait_for_login()
    ensures waits { WordsWaitForLogin }
{}

/// A rename follows the look of RNFR at once.
///
/// # Proved
///
/// - A rename is told only of the path that was kept from the line before, so not without an RNFR right before (`renames`).
pub fn renames_follow_looks()
    ensures renames { RenamesWhatWasNamed }
{}
