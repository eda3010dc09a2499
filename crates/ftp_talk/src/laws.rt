//! Laws of talks with extras. The functions do nothing: their clauses are the laws.

ghost use Rattle.ftp_talk.specs.ExtendedLaws.{IsTalkWithoutExtras, KeepsSession, SaysReplies};

/// Without extras it is the talk.
///
/// # Proved
///
/// - A talk on each of whose lines was done what the profile does is a talk of the profile, also where it was cut short
///   (`without_extras`).
pub fn without_extras_it_is_the_talk()
    ensures without_extras { IsTalkWithoutExtras }
{}

/// Extras add to what is said.
///
/// # Proved
///
/// - What was said on the lines left out, what is to be said are the replies of the turns in their order, with their delays, where
///   the one to an EPSV shows the port that was granted; without an EPSV they are those of a talk. What was said on the lines is
///   whole and in its order too (`struck_out`).
pub fn struck_out_it_is_the_talk()
    ensures struck_out { SaysReplies }
{}

/// Extras leave the session as it is.
///
/// # Proved
///
/// - Where the desk vouches for its entries, login, name, working directory, offset, slot and count of transfers are those of
///   the turns without the lines on which a message was told or bytes were said (`same_session`).
pub fn extras_leave_the_session()
    ensures same_session { KeepsSession }
{}
