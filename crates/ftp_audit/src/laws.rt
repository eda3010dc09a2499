//! What notifications tell. The function does nothing: its clause is the law.

ghost use Rattle.ftp_audit.specs.Laws.{NoticesTellWhatWasDecided};

/// What listeners are told of a user over any stretch of a right and acted log is what was decided and completed for the
/// sessions of that user.
///
/// # Proved
///
/// - Over any stretch of a right and acted log, what listeners are told of a user is what was decided and completed for
///   the sessions of that user: a file and its bytes for each end of a RETR, STOR or APPE that succeeded and was told
///   to its session, a login for each that was let in, a logout for each session that an entry ended.
pub fn notices_tell_what_was_decided()
    ensures { NoticesTellWhatWasDecided }
{}
