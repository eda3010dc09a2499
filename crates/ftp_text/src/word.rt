//! The words that stand for values, in tables.

ghost use Rattle.std.specs.Prelude.{◌≡◌, map};
ghost use Rattle.ftp_base.specs.Reply.{code_text};
ghost use Rattle.ftp_text.specs.Fields.{word_in};
ghost use Rattle.ftp_text.specs.Reading.{find_word, named_or_none};

use crate::notice::NoticeWord;
use ftp_base::{AuthAnswer, ErrorKind, LinkFault, LockState, ReplyCode, value_named};
use ftp_events::CommandWord;
use ftp_hub::LoginState;
use ftp_options::{ActivePassiveMode, FailedLoginsBlock};
use ftp_proxy::{ProxyError, ReadError};
use ftp_transfer::Completion;

/// The word of the value in the table.
pub(crate) fn word_in<'a, V: Copy + PartialEq>(table: &[(&'a [u8], V)], value: V) -> &'a [u8]
    ensures { result.now ≡ word_in V.eq (map (λ row. (row.0.now, row.1)) table.now) value }
{
    match table.iter().find(|row| row.1 == value) {
        Some(row) => row.0,
        None => b"",
    }
}

/// The value of the word in the table, where one word stands for no value.
pub(crate) fn value_or_none<V: Copy>(
    none: &[u8],
    table: &[(&[u8], V)],
    word: &[u8],
) -> Option<Option<V>>
    ensures { result ≡ named_or_none none.now table.now word.now }
{
    if none == word {
        return Some(None);
    }
    match value_named(table, word) {
        Some(value) => Some(Some(value)),
        None => None,
    }
}

/// The code in the table whose digits are the word.
pub(crate) fn code_named(table: &[ReplyCode], word: &[u8]) -> Option<ReplyCode>
    ensures { result ≡ find_word code_text table.now word.now }
{
    table.iter().copied().find(|code| code.digits() == word)
}

pub(crate) const ANSWERS: [(&[u8], AuthAnswer); 5] = [
    (b"good", AuthAnswer::Good),
    (b"disabled", AuthAnswer::Disabled),
    (b"notentered", AuthAnswer::NotEntered),
    (b"baduser", AuthAnswer::BadUser),
    (b"refused", AuthAnswer::Refused),
];

pub(crate) const KINDS: [(&[u8], ErrorKind); 12] = [
    (b"transientfile", ErrorKind::TransientFileNotAvailable),
    (b"permanentfile", ErrorKind::PermanentFileNotAvailable),
    (b"permanentdir", ErrorKind::PermanentDirectoryNotAvailable),
    (b"dirnotempty", ErrorKind::PermanentDirectoryNotEmpty),
    (b"permission", ErrorKind::PermissionDenied),
    (b"closed", ErrorKind::ConnectionClosed),
    (b"local", ErrorKind::LocalError),
    (b"pagetype", ErrorKind::PageTypeUnknown),
    (b"space", ErrorKind::InsufficientStorageSpaceError),
    (b"exceeded", ErrorKind::ExceededStorageAllocationError),
    (b"badname", ErrorKind::FileNameNotAllowedError),
    (b"notimplemented", ErrorKind::CommandNotImplemented),
];

pub(crate) const FAULTS: [(&[u8], LinkFault); 4] = [
    (b"reset", LinkFault::Reset),
    (b"pipe", LinkFault::BrokenPipe),
    (b"aborted", LinkFault::Aborted),
    (b"other", LinkFault::Other),
];

pub(crate) const PROXY_ERRORS: [(&[u8], ProxyError); 8] = [
    (b"size", ProxyError::HeaderSize),
    (b"crlf", ProxyError::CrlfError),
    (b"notproxy", ProxyError::NotProxyHdr),
    (b"decode", ProxyError::DecodeError),
    (b"ipv4", ProxyError::IPv4Required),
    (b"version", ProxyError::UnsupportedVersion),
    (b"eof", ProxyError::ReadError(ReadError::UnexpectedEof)),
    (b"fault", ProxyError::ReadError(ReadError::Fault)),
];

pub(crate) const LOCKS: [(&[u8], LockState); 2] = [
    (b"reached", LockState::MaxFailuresReached),
    (b"locked", LockState::AlreadyLocked),
];

pub(crate) const COMMAND_WORDS: [(&[u8], CommandWord); 6] = [
    (b"retr", CommandWord::Retr),
    (b"stor", CommandWord::Stor),
    (b"appe", CommandWord::Appe),
    (b"list", CommandWord::List),
    (b"nlst", CommandWord::Nlst),
    (b"mlsd", CommandWord::Mlsd),
];

pub(crate) const LOGIN_STATES: [(&[u8], LoginState); 4] = [
    (b"new", LoginState::New),
    (b"pass", LoginState::Pass),
    (b"out", LoginState::Out),
    (b"cmd", LoginState::Cmd),
];

// The ends of transfers that are no refusals.
pub(crate) const ENDS: [(&[u8], Completion); 5] = [
    (b"sent", Completion::Sent),
    (b"written", Completion::Written),
    (b"listed", Completion::Listed),
    (b"writefailed", Completion::WriteFailed),
    (b"memory", Completion::OutOfMemory),
];

pub(crate) const NOTICE_WORDS: [(&[u8], NoticeWord); 8] = [
    (b"login", NoticeWord::Login),
    (b"logout", NoticeWord::Logout),
    (b"got", NoticeWord::Got),
    (b"put", NoticeWord::Put),
    (b"deleted", NoticeWord::Deleted),
    (b"madedir", NoticeWord::MadeDir),
    (b"removeddir", NoticeWord::RemovedDir),
    (b"renamed", NoticeWord::Renamed),
];

pub(crate) const ACTIVES: [(&[u8], ActivePassiveMode); 3] = [
    (b"passive", ActivePassiveMode::PassiveOnly),
    (b"active", ActivePassiveMode::ActiveOnly),
    (b"both", ActivePassiveMode::ActiveAndPassive),
];

pub(crate) const BLOCKS: [(&[u8], FailedLoginsBlock); 3] = [
    (b"both", FailedLoginsBlock::UserAndIP),
    (b"ip", FailedLoginsBlock::IP),
    (b"user", FailedLoginsBlock::User),
];

pub(crate) const RESTARTS: [(&[u8], bool); 2] = [(b"restart", true), (b"norestart", false)];

pub(crate) const DELIVERIES: [(&[u8], bool); 2] = [(b"delivered", true), (b"lost", false)];

pub(crate) const REPLY_CODES: [ReplyCode; 25] = [
    ReplyCode::FileStatusOkay,
    ReplyCode::CommandOkay,
    ReplyCode::ServiceReady,
    ReplyCode::ClosingControlConnection,
    ReplyCode::ClosingDataConnection,
    ReplyCode::EnteringPassiveMode,
    ReplyCode::UserLoggedIn,
    ReplyCode::FileActionOkay,
    ReplyCode::DirCreated,
    ReplyCode::NeedPassword,
    ReplyCode::FileActionPending,
    ReplyCode::CantOpenDataConnection,
    ReplyCode::ConnectionClosed,
    ReplyCode::TransientFileError,
    ReplyCode::LocalError,
    ReplyCode::OutOfSpace,
    ReplyCode::CommandSyntaxError,
    ReplyCode::ParameterSyntaxError,
    ReplyCode::CommandNotImplemented,
    ReplyCode::BadCommandSequence,
    ReplyCode::NotLoggedIn,
    ReplyCode::FileError,
    ReplyCode::PageTypeUnknown,
    ReplyCode::ExceededStorageAllocation,
    ReplyCode::BadFileName,
];
