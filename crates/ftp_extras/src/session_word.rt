//! The words that are about the session or the server (RFC 959; RFC 2389 for FEAT and OPTS; RFC 2428 for EPSV;
//! RFC 4217 for PBSZ and PROT).

ghost use Rattle.std.specs.Prelude.{◌≡◌, ◌++◌, IfOk, OnOk};
ghost use Rattle.std.specs.List.{flat_map};
ghost use Rattle.ftp_extras.specs.Extra.{seen};
ghost use Rattle.ftp_extras.specs.ReplyLines.{line_with_end};
ghost use Rattle.ftp_extras.specs.Plan.{is_spelled, directory_reply, up_extra, features, feature_reply, option_reply, user_line, place_line, status_lines, session_status, status_reply, only_one, epsv_extra, protection_reply, session_extra};

use crate::extra::{Asker, Extra, ExtraResult};
use crate::plan::Offers;
use crate::reply_lines::{put_line, say, say_many, tell};
use crate::text::{put_quoted, resolved, sent};
use crate::word::ExtraWord;
use ftp_base::{Bytes, ReplyCode};
use ftp_control::{Command, cut_word};
use ftp_transfer::join_path;
use std::alloc::{AllocError, Global};

// Says whether the bytes are this word, in any case.
fn is_spelled(name: &[u8], bytes: &[u8]) -> bool
    ensures { result ≡ is_spelled name.now bytes.now }
{
    name.eq_ignore_ascii_case(bytes)
}

// PWD.
fn directory_reply(alloc: Global, asker: &Asker<'_>) -> ExtraResult
    ensures { IfOk result (λ x. x ≡ directory_reply (seen asker.now)) }
{
    let path = resolved(alloc, asker.cwd.as_slice())?;
    let mut text = Vec::new(alloc);
    put_quoted(&mut text, path.as_slice())?;
    text.extend_from_slice(b" is the current directory")?;
    say(alloc, b"257", text.as_slice())
}

// CDUP.
fn up_extra(alloc: Global, asker: &Asker<'_>) -> ExtraResult
    ensures { IfOk result (λ x. x ≡ up_extra (seen asker.now)) }
{
    let up = Bytes::from_slice(alloc, b"..")?;
    let path = join_path(alloc, asker.cwd, &up)?;
    let path = resolved(alloc, path.as_slice())?;
    Ok(Extra::As(Command::Cwd {
        path: Bytes::from_vec(path),
    }))
}

// The lines of FEAT between the first and the last one.
fn features(alloc: Global, offers: Offers) -> Result<Vec<u8>, AllocError>
    ensures { IfOk result (λ text. text.items ≡ flat_map line_with_end (features offers)) }
{
    let mut text = Vec::new(alloc);
    put_line(&mut text, b" EPSV")?;
    put_line(&mut text, b" MDTM")?;
    put_line(&mut text, b" MFMT")?;
    put_line(&mut text, b" MLST type*;size*;modify*;")?;
    if offers.can_restart {
        put_line(&mut text, b" REST STREAM")?;
    }
    put_line(&mut text, b" SIZE")?;
    put_line(&mut text, b" UTF8")?;
    if offers.is_behind_tls {
        put_line(&mut text, b" PBSZ")?;
        put_line(&mut text, b" PROT")?;
    }
    Ok(text)
}

// FEAT.
fn feature_reply(alloc: Global, offers: Offers) -> ExtraResult
    ensures { IfOk result (λ x. x ≡ feature_reply offers) }
{
    let lines = features(alloc, offers)?;
    let reply = say_many(
        alloc,
        b"211",
        b"Extensions supported",
        lines.as_slice(),
        b"End",
    )?;
    Ok(reply)
}

// OPTS: names are always UTF-8, and MLST always shows all its facts.
fn option_reply(alloc: Global, parameter: &[u8]) -> ExtraResult
    ensures { IfOk result (λ x. x ≡ option_reply parameter.now) }
{
    if is_spelled(b"utf8", parameter) || is_spelled(b"utf8 on", parameter) {
        return tell(alloc, ReplyCode::CommandOkay, b"Always in UTF8 mode");
    }
    let (name, _) = cut_word(parameter);
    if is_spelled(b"mlst", name) {
        return tell(
            alloc,
            ReplyCode::CommandOkay,
            b"MLST OPTS type;size;modify;",
        );
    }
    tell(
        alloc,
        ReplyCode::ParameterSyntaxError,
        b"Option not understood",
    )
}

// The line of STAT on the user.
fn user_line(alloc: Global, asker: &Asker<'_>) -> Result<Vec<u8>, AllocError>
    ensures { IfOk result (λ line. line.items ≡ user_line (seen asker.now)) }
{
    let mut line = Vec::from_slice(alloc, b" Logged in as ")?;
    if let Some(name) = asker.name {
        let name = sent(alloc, name.as_slice())?;
        line.extend_from_slice(name.as_slice())?;
    }
    Ok(line)
}

// The line of STAT on the working directory.
fn place_line(alloc: Global, asker: &Asker<'_>) -> Result<Vec<u8>, AllocError>
    ensures { IfOk result (λ line. line.items ≡ place_line (seen asker.now)) }
{
    let path = resolved(alloc, asker.cwd.as_slice())?;
    let mut line = Vec::from_slice(alloc, b" In the directory ")?;
    put_quoted(&mut line, path.as_slice())?;
    Ok(line)
}

// The lines of STAT between the first and the last one.
fn status_lines(alloc: Global, asker: &Asker<'_>) -> Result<Vec<u8>, AllocError>
    ensures { IfOk result (λ text. text.items ≡ flat_map line_with_end (status_lines (seen asker.now))) }
{
    let user = user_line(alloc, asker)?;
    let place = place_line(alloc, asker)?;
    let mut text = Vec::new(alloc);
    put_line(&mut text, user.as_slice())?;
    put_line(&mut text, place.as_slice())?;
    put_line(&mut text, b" Transfers: binary, in stream mode, of files")?;
    Ok(text)
}

// STAT: the status of the session.
fn session_status(alloc: Global, asker: &Asker<'_>) -> ExtraResult
    ensures { IfOk result (λ x. x ≡ session_status (seen asker.now)) }
{
    let lines = status_lines(alloc, asker)?;
    let reply = say_many(alloc, b"211", b"Status", lines.as_slice(), b"End")?;
    Ok(reply)
}

// STAT tells of the session, and not of files.
fn status_reply(alloc: Global, asker: &Asker<'_>, parameter: &[u8]) -> ExtraResult
    ensures { IfOk result (λ x. x ≡ status_reply (seen asker.now) parameter.now) }
{
    if parameter.is_empty() {
        return session_status(alloc, asker);
    }
    tell(alloc, ReplyCode::CommandNotImplemented, b"Use LIST")
}

// MODE and STRU: there is one.
fn only_one(alloc: Global, letter: &[u8], parameter: &[u8]) -> ExtraResult
    ensures { IfOk result (λ x. x ≡ only_one letter.now parameter.now) }
{
    if is_spelled(letter, parameter) {
        return tell(alloc, ReplyCode::CommandOkay, b"As always");
    }
    say(alloc, b"504", b"Not implemented for that parameter")
}

// EPSV: as a PASV, over IP version 4.
fn epsv_extra(alloc: Global, parameter: &[u8]) -> ExtraResult
    ensures { IfOk result (λ x. x ≡ epsv_extra parameter.now) }
{
    if parameter.is_empty() || is_spelled(b"1", parameter) {
        return Ok(Extra::Epsv);
    }
    if is_spelled(b"all", parameter) {
        return tell(alloc, ReplyCode::CommandOkay, b"Noted");
    }
    say(alloc, b"522", b"Network protocol not supported, use (1)")
}

// PROT: a proxy protects each connection.
fn protection_reply(alloc: Global, parameter: &[u8]) -> ExtraResult
    ensures { IfOk result (λ x. x ≡ protection_reply parameter.now) }
{
    if is_spelled(b"p", parameter) {
        return tell(alloc, ReplyCode::CommandOkay, b"Protection level set to P");
    }
    say(alloc, b"536", b"Only P is supported")
}

/// What is done on a word that is about the session or the server.
pub(crate) fn session_extra(
    alloc: Global,
    offers: Offers,
    asker: &Asker<'_>,
    word: ExtraWord,
    parameter: &[u8],
) -> ExtraResult
    ensures { IfOk result (λ x. x ≡ session_extra offers (seen asker.now) word parameter.now) }
{
    match word {
        ExtraWord::Pwd | ExtraWord::Xpwd => directory_reply(alloc, asker),
        ExtraWord::Cdup | ExtraWord::Xcup => up_extra(alloc, asker),
        ExtraWord::Feat => feature_reply(alloc, offers),
        ExtraWord::Opts => option_reply(alloc, parameter),
        ExtraWord::Syst => say(alloc, b"215", b"UNIX Type: L8"),
        ExtraWord::Stat => status_reply(alloc, asker, parameter),
        ExtraWord::Help => say(alloc, b"214", b"See RFC 959"),
        ExtraWord::Allo => say(alloc, b"202", b"No storage has to be allocated"),
        ExtraWord::Mode => only_one(alloc, b"s", parameter),
        ExtraWord::Stru => only_one(alloc, b"f", parameter),
        ExtraWord::Epsv => epsv_extra(alloc, parameter),
        // The server chooses the name (RFC 959, section 4.1.3).
        ExtraWord::Stou => Ok(Extra::As(Command::Stou)),
        ExtraWord::Clnt => tell(alloc, ReplyCode::CommandOkay, b"Noted"),
        ExtraWord::Pbsz if offers.is_behind_tls => tell(alloc, ReplyCode::CommandOkay, b"PBSZ=0"),
        ExtraWord::Prot if offers.is_behind_tls => protection_reply(alloc, parameter),
        _ => Ok(Extra::Pass),
    }
}
