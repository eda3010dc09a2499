//! What is done on a line once the archive has answered, and what is kept for the next line.

ghost use Rattle.std.specs.Prelude.{◌≡◌, ◌++◌, decimal, IfOk};
ghost use Rattle.std.specs.List.{flat_map};
ghost use Rattle.ftp_extras.specs.ReplyLines.{line_with_end};
ghost use Rattle.ftp_extras.specs.Texts.{resolved, sent_text};
ghost use Rattle.ftp_extras.specs.Answers.{refuses_by, date_fact, facts_line, size_reply, date_reply, facts_reply, found_reply, dated_reply, done_reply, looked_at, word_reply, refusal_for, refused_for, transfer_reply, reply_by, named_by, kept_for_next};

use crate::archive::{Found, Request, Response};
use crate::extra::{Extra, ExtraResult};
use crate::reply_lines::{put_line, say, say_many, tell};
use crate::text::{resolved, sent};
use crate::word::{ExtraWord, word_of};
use ftp_base::{Bytes, ControlChanMsg, DataChanCmd, ErrorKind, ReplyCode};
use ftp_control::Command;
use ftp_transfer::format_facts;
use std::alloc::{AllocError, Global};

// A refusal of the storage is told.
fn refuses_by(kind: ErrorKind) -> Extra
    ensures { result ≡ refuses_by kind }
{
    Extra::Tell(ControlChanMsg::StorageError(kind))
}

// The path that a path leads to, as it is sent.
fn sent_path(alloc: Global, path: &[u8]) -> Result<Vec<u8>, AllocError>
    ensures { IfOk result (λ text. text.items ≡ sent_text (resolved path.now)) }
{
    let path = resolved(alloc, path)?;
    sent(alloc, path.as_slice())
}

// The fact of a date that is known.
fn date_fact(alloc: Global, modified: Option<[u8; 14]>) -> Result<Vec<u8>, AllocError>
    ensures { IfOk result (λ text. text.items ≡ date_fact modified) }
{
    let mut text = Vec::new(alloc);
    if let Some(at) = modified {
        text.extend_from_slice(b"modify=")?;
        text.extend_from_slice(&at)?;
        text.extend_from_slice(b";")?;
    }
    Ok(text)
}

// The line of facts of MLST.
fn facts_line(alloc: Global, path: &[u8], found: Found) -> Result<Vec<u8>, AllocError>
    ensures { IfOk result (λ line. line.items ≡ facts_line path.now found) }
{
    let facts = format_facts(alloc, &found.meta)?;
    let date = date_fact(alloc, found.modified)?;
    let path = sent_path(alloc, path)?;
    let mut line = Vec::from_slice(alloc, b" ")?;
    line.extend_from_slice(facts.as_slice())?;
    line.extend_from_slice(date.as_slice())?;
    line.extend_from_slice(b" ")?;
    line.extend_from_slice(path.as_slice())?;
    Ok(line)
}

// MLST.
fn facts_reply(alloc: Global, path: &[u8], found: Found) -> ExtraResult
    ensures { IfOk result (λ x. x ≡ facts_reply path.now found) }
{
    let line = facts_line(alloc, path, found)?;
    let mut lines = Vec::new(alloc);
    put_line(&mut lines, line.as_slice())?;
    let reply = say_many(alloc, b"250", b"Facts", lines.as_slice(), b"End")?;
    Ok(reply)
}

fn digits_of(alloc: Global, n: u64) -> Result<Vec<u8>, AllocError>
    ensures { IfOk result (λ digits. digits.items ≡ decimal n) }
{
    Ok(format!(in alloc; "{n}")?.into_bytes())
}

// SIZE.
fn size_reply(alloc: Global, found: Found) -> ExtraResult
    ensures { IfOk result (λ x. x ≡ size_reply found) }
{
    if found.meta.is_dir {
        return tell(alloc, ReplyCode::FileError, b"Not a file");
    }
    let digits = digits_of(alloc, found.meta.len)?;
    say(alloc, b"213", digits.as_slice())
}

// MDTM.
fn date_reply(alloc: Global, modified: Option<[u8; 14]>) -> ExtraResult
    ensures { IfOk result (λ x. x ≡ date_reply modified) }
{
    match modified {
        Some(at) => say(alloc, b"213", &at),
        None => tell(alloc, ReplyCode::FileError, b"Date not known"),
    }
}

// What is told of what stands at a path.
fn found_reply(alloc: Global, word: ExtraWord, path: &[u8], found: Found) -> ExtraResult
    ensures { IfOk result (λ x. x ≡ found_reply word path.now found) }
{
    match word {
        ExtraWord::Rnfr => tell(alloc, ReplyCode::FileActionPending, b"Ready for RNTO"),
        ExtraWord::Size => size_reply(alloc, found),
        ExtraWord::Mdtm => date_reply(alloc, found.modified),
        ExtraWord::Mlst => facts_reply(alloc, path, found),
        _ => Ok(Extra::Pass),
    }
}

// MFMT.
fn dated_reply(alloc: Global, path: &[u8], at: &[u8]) -> ExtraResult
    ensures { IfOk result (λ x. x ≡ dated_reply path.now at.now) }
{
    let path = sent_path(alloc, path)?;
    let mut text = Vec::from_slice(alloc, b"Modify=")?;
    text.extend_from_slice(at)?;
    text.extend_from_slice(b"; ")?;
    text.extend_from_slice(path.as_slice())?;
    say(alloc, b"213", text.as_slice())
}

// What is told of a change.
fn done_reply(alloc: Global, request: Request) -> ExtraResult
    ensures { IfOk result (λ x. x ≡ done_reply request) }
{
    match request {
        Request::Look { .. } => Ok(Extra::Pass),
        Request::Remove { path } => Ok(Extra::Tell(ControlChanMsg::DelFileSuccess { path })),
        Request::MakeDirectory { path } => Ok(Extra::Tell(ControlChanMsg::MkDirSuccess { path })),
        Request::RemoveDirectory { path } => Ok(Extra::Tell(ControlChanMsg::RmDirSuccess { path })),
        Request::Rename { from, to } => Ok(Extra::Tell(ControlChanMsg::RenameSuccess {
            old_path: from,
            new_path: to,
        })),
        Request::SetModified { path, at } => dated_reply(alloc, path.as_slice(), at.as_slice()),
    }
}

// The path that a look is for.
fn looked_at(request: &Request) -> &[u8]
    ensures { result.now ≡ looked_at request.now }
{
    match request {
        Request::Look { path } => path.as_slice(),
        _ => b"",
    }
}

// What is told on a word.
fn word_reply(alloc: Global, word: ExtraWord, request: Request, response: Response) -> ExtraResult
    ensures { IfOk result (λ x. x ≡ word_reply word request response) }
{
    match response {
        Response::Found(found) => found_reply(alloc, word, looked_at(&request), found),
        Response::Done => done_reply(alloc, request),
        Response::Refused(kind) => Ok(refuses_by(kind)),
        Response::Failed => Ok(refuses_by(ErrorKind::LocalError)),
    }
}

// How a transfer is refused for want of what was looked at.
fn refusal_for(command: &DataChanCmd, kind: ErrorKind) -> ErrorKind
    ensures { result ≡ refusal_for command.now kind }
{
    match (command, kind) {
        (DataChanCmd::Retr { .. }, _) => kind,
        (_, ErrorKind::PermanentFileNotAvailable) => ErrorKind::PermanentDirectoryNotAvailable,
        _ => kind,
    }
}

// How a transfer is refused for what was found.
fn refused_for(command: &DataChanCmd, is_dir: bool) -> Extra
    ensures { result ≡ refused_for command.now is_dir }
{
    match command {
        DataChanCmd::Retr { .. } if is_dir => refuses_by(ErrorKind::PermanentFileNotAvailable),
        DataChanCmd::Stor { .. } | DataChanCmd::Appe { .. } | DataChanCmd::Mlsd { .. } if !is_dir =>
            { refuses_by(ErrorKind::PermanentDirectoryNotAvailable) }
        _ => Extra::Pass,
    }
}

// What is done on a transfer: it is refused, or goes on.
fn transfer_reply(command: &DataChanCmd, response: Response) -> Extra
    ensures { result ≡ transfer_reply command.now response }
{
    match response {
        Response::Found(found) => refused_for(command, found.meta.is_dir),
        Response::Refused(kind) => refuses_by(refusal_for(command, kind)),
        Response::Done | Response::Failed => Extra::Pass,
    }
}

/// What is done on the line of a command.
pub(crate) fn reply_by(
    alloc: Global,
    command: &Command,
    request: Request,
    response: Response,
) -> ExtraResult
    ensures { IfOk result (λ x. x ≡ reply_by command.now request response) }
{
    match command {
        Command::Other { word } => match word_of(word.as_slice()) {
            Some(known) => word_reply(alloc, known, request, response),
            None => Ok(Extra::Pass),
        },
        Command::Data(command) => Ok(transfer_reply(command, response)),
        _ => Ok(Extra::Pass),
    }
}

// What a word keeps for the next line.
fn named_by(
    alloc: Global,
    word: ExtraWord,
    request: &Request,
    response: Response,
) -> Result<Option<Bytes>, AllocError>
    ensures { IfOk result (λ path. path ≡ named_by word request.now response) }
{
    match (word, request, response) {
        (ExtraWord::Rnfr, Request::Look { path }, Response::Found(_)) => {
            let path = path.copy(alloc)?;
            Ok(Some(path))
        }
        _ => Ok(None),
    }
}

/// What is kept for the next line.
pub(crate) fn kept_for_next(
    alloc: Global,
    command: &Command,
    request: &Request,
    response: Response,
) -> Result<Option<Bytes>, AllocError>
    ensures { IfOk result (λ path. path ≡ kept_for_next command.now request.now response) }
{
    match command {
        Command::Other { word } => match word_of(word.as_slice()) {
            Some(known) => named_by(alloc, known, request, response),
            None => Ok(None),
        },
        _ => Ok(None),
    }
}
