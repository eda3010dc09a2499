//! Reading a notification.

ghost use Rattle.std.specs.Prelude.{◌≡◌, Some};
ghost use Rattle.ftp_text.specs.Reading.{Gives};
ghost use Rattle.ftp_text.specs.ActionReading.{has_bytes, has_path, has_two, suits, notice_with, about_at, told_by, notify_at};

use crate::fault::{LineFault, Parsed};
use crate::field::{number, text_to_end, word_value};
use crate::trace::trace;
use crate::word::NOTICE_WORDS;
use ftp_base::{Bytes, DataEvent, EventMeta, Notice, PresenceEvent, TraceId};
use ftp_events::Action;
use std::alloc::Global;

/// The word of a notice.
#[derive(Clone, Copy, Debug, PartialEq, Eq)]
pub enum NoticeWord {
    Login,
    Logout,
    Got,
    Put,
    Deleted,
    MadeDir,
    RemovedDir,
    Renamed,
}

impl NoticeWord {
    fn has_bytes(self) -> bool
        ensures { result ≡ has_bytes self }
    {
        matches!(self, NoticeWord::Got | NoticeWord::Put)
    }

    fn has_path(self) -> bool
        ensures { result ≡ has_path self }
    {
        !matches!(self, NoticeWord::Login | NoticeWord::Logout)
    }

    fn has_two(self) -> bool
        ensures { result ≡ has_two self }
    {
        matches!(self, NoticeWord::Renamed)
    }
}

/// What stands before the text of a notification: whom it is about, its word, how many bytes it tells of, and the
/// lengths of the user name and of the first path.
#[derive(Clone, Copy, Debug, PartialEq, Eq)]
pub struct About {
    pub session: u64,
    pub place: u64,
    pub trace: u64,
    pub word: NoticeWord,
    pub bytes: u64,
    pub user: u64,
    pub path: u64,
}

/// A notification behind its word, up to the end of the line.
#[tactic(auto, unfolding(crate::specs::ActionReading::notify_at))]
pub fn notify(alloc: Global, bytes: &[u8]) -> Parsed<'_, Action>
    ensures { Gives (λ x. (x.0, x.1.now)) result (notify_at bytes.now) }
{
    let (about, rest) = before_text(alloc, bytes)?;
    let (text, rest) = text_to_end(alloc, rest)?;
    let action = told(alloc, about, text.as_slice())?;
    Ok((action, rest))
}

#[tactic(auto, unfolding(crate::specs::ActionReading::about_at, crate::specs::Reading::word_value))]
fn before_text(alloc: Global, bytes: &[u8]) -> Parsed<'_, About>
    ensures { Gives (λ x. (x.0, x.1.now)) result (about_at bytes.now) }
{
    let (session, rest) = number(bytes)?;
    let (place, rest) = number(rest)?;
    let (trace, rest) = trace(alloc, rest)?;
    let (word, rest) = word_value(&NOTICE_WORDS, rest)?;
    let (bytes, rest) = number(rest)?;
    let (user, rest) = number(rest)?;
    let (path, rest) = number(rest)?;
    let about = About {
        session,
        place,
        trace,
        word,
        bytes,
        user,
        path,
    };
    Ok((about, rest))
}

// The notification with this text.
fn told(alloc: Global, about: About, text: &[u8]) -> Result<Action, LineFault>
    ensures { Gives (λ x. x) result (told_by about text.now) }
{
    if about.user > text.len() as u64 {
        return Err(LineFault::Bad);
    }
    let (user, paths) = text.split_at(about.user as usize);
    if about.path > paths.len() as u64 {
        return Err(LineFault::Bad);
    }
    let (first, second) = paths.split_at(about.path as usize);
    if !suits(about.word, about.bytes, first, second) {
        return Err(LineFault::Bad);
    }
    let meta = EventMeta {
        username: Bytes::from_slice(alloc, user)?,
        trace_id: TraceId(about.trace),
        sequence_number: about.place,
    };
    let what = notice(alloc, about.word, about.bytes, first, second)?;
    Ok(Action::Notify {
        session: about.session,
        meta,
        what,
    })
}

// Whether a notice of this word says no more than such notices say.
fn suits(word: NoticeWord, bytes: u64, first: &[u8], second: &[u8]) -> bool
    ensures { result ≡ suits word bytes first.now second.now }
{
    (word.has_bytes() || bytes == 0)
        && (word.has_path() || first.is_empty())
        && (word.has_two() || second.is_empty())
}

// The notice of this word.
fn notice(
    alloc: Global,
    word: NoticeWord,
    bytes: u64,
    first: &[u8],
    second: &[u8],
) -> Result<Notice, LineFault>
    ensures { Gives (λ x. x) result (Some (notice_with word bytes first.now second.now)) }
{
    match word {
        NoticeWord::Login => Ok(Notice::Presence(PresenceEvent::LoggedIn)),
        NoticeWord::Logout => Ok(Notice::Presence(PresenceEvent::LoggedOut)),
        NoticeWord::Got => {
            let path = Bytes::from_slice(alloc, first)?;
            Ok(Notice::Data(DataEvent::Got { path, bytes }))
        }
        NoticeWord::Put => {
            let path = Bytes::from_slice(alloc, first)?;
            Ok(Notice::Data(DataEvent::Put { path, bytes }))
        }
        NoticeWord::Deleted => {
            let path = Bytes::from_slice(alloc, first)?;
            Ok(Notice::Data(DataEvent::Deleted { path }))
        }
        NoticeWord::MadeDir => {
            let path = Bytes::from_slice(alloc, first)?;
            Ok(Notice::Data(DataEvent::MadeDir { path }))
        }
        NoticeWord::RemovedDir => {
            let path = Bytes::from_slice(alloc, first)?;
            Ok(Notice::Data(DataEvent::RemovedDir { path }))
        }
        NoticeWord::Renamed => {
            let from = Bytes::from_slice(alloc, first)?;
            let to = Bytes::from_slice(alloc, second)?;
            Ok(Notice::Data(DataEvent::Renamed { from, to }))
        }
    }
}
