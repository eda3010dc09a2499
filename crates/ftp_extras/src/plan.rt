//! What is done on a line, at once or once the archive is asked.

ghost use Rattle.std.specs.Prelude.{◌≡◌, IfOk};
ghost use Rattle.std.specs.List.{list_any};
ghost use Rattle.std.specs.Option.{option_copied};
ghost use Rattle.ftp_extras.specs.Extra.{seen};
ghost use Rattle.ftp_extras.specs.Plan.{path_in, bad_plan, request_on, word_asked, rename_plan, date_plan, facts_plan, file_plan, login_plan, is_wildcard, begins_with_hyphen, is_pattern, list_plan, facts_list_plan, look_plan, store_plan, transfer_plan, plan_of};

use crate::archive::Request;
use crate::extra::{Asker, Extra};
use crate::moment::is_moment;
use crate::reply_lines::tell;
use crate::session_word::session_extra;
use crate::word::{ExtraWord, is_open, word_of};
use ftp_base::{Bytes, DataChanCmd, ReplyCode, parent_of};
use ftp_control::{Command, cut_word, parameter_of};
use ftp_transfer::join_path;
use std::alloc::{AllocError, Global};

/// What a server offers besides files.
#[derive(Clone, Copy, Debug, PartialEq, Eq)]
pub struct Offers {
    /// A proxy ends TLS before each connection.
    pub is_behind_tls: bool,
    /// Transfers can begin at a restart offset.
    pub can_restart: bool,
}

/// What is done on a line.
#[derive(Debug, Drop)]
pub(crate) enum Plan {
    /// This, at once.
    Do(Extra),
    /// The archive is asked first.
    Ask(Request),
}

// The path that a parameter names, where it is not empty.
fn path_in(alloc: Global, asker: &Asker<'_>, parameter: &[u8]) -> Result<Option<Bytes>, AllocError>
    ensures { IfOk result (λ path. path ≡ path_in (seen asker.now) parameter.now) }
{
    if parameter.is_empty() {
        return Ok(None);
    }
    let parameter = Bytes::from_slice(alloc, parameter)?;
    let path = join_path(alloc, asker.cwd, &parameter)?;
    Ok(Some(path))
}

// A parameter is not as it has to be.
fn bad_plan(alloc: Global) -> Result<Plan, AllocError>
    ensures { IfOk result (λ p. p ≡ bad_plan) }
{
    let reply = tell(alloc, ReplyCode::ParameterSyntaxError, b"Invalid Parameter")?;
    Ok(Plan::Do(reply))
}

// What a word asks for on a path.
fn request_on(word: ExtraWord, path: Bytes) -> Request
    ensures { result ≡ request_on word path }
{
    match word {
        ExtraWord::Mkd | ExtraWord::Xmkd => Request::MakeDirectory { path },
        ExtraWord::Rmd | ExtraWord::Xrmd => Request::RemoveDirectory { path },
        ExtraWord::Dele => Request::Remove { path },
        _ => Request::Look { path },
    }
}

// What a word asks for on the path that its parameter names.
fn word_asked(
    alloc: Global,
    asker: &Asker<'_>,
    word: ExtraWord,
    parameter: &[u8],
) -> Result<Plan, AllocError>
    ensures { IfOk result (λ p. p ≡ word_asked (seen asker.now) word parameter.now) }
{
    match path_in(alloc, asker, parameter)? {
        Some(path) => Ok(Plan::Ask(request_on(word, path))),
        None => bad_plan(alloc),
    }
}

// RNTO: what RNFR named right before is moved.
fn rename_plan(
    alloc: Global,
    asker: &Asker<'_>,
    pending: Option<Bytes>,
    parameter: &[u8],
) -> Result<Plan, AllocError>
    ensures { IfOk result (λ p. p ≡ rename_plan (seen asker.now) pending parameter.now) }
{
    let Some(from) = pending else {
        let reply = tell(alloc, ReplyCode::BadCommandSequence, b"Use RNFR first")?;
        return Ok(Plan::Do(reply));
    };
    match path_in(alloc, asker, parameter)? {
        Some(to) => Ok(Plan::Ask(Request::Rename { from, to })),
        None => bad_plan(alloc),
    }
}

// MFMT: a moment, and behind it a path.
fn date_plan(alloc: Global, asker: &Asker<'_>, parameter: &[u8]) -> Result<Plan, AllocError>
    ensures { IfOk result (λ p. p ≡ date_plan (seen asker.now) parameter.now) }
{
    let (at, behind) = cut_word(parameter);
    if !is_moment(at) {
        return bad_plan(alloc);
    }
    match path_in(alloc, asker, behind)? {
        Some(path) => {
            let at = Bytes::from_slice(alloc, at)?;
            Ok(Plan::Ask(Request::SetModified { path, at }))
        }
        None => bad_plan(alloc),
    }
}

// MLST: the facts of a path, or of the working directory.
fn facts_plan(alloc: Global, asker: &Asker<'_>, parameter: &[u8]) -> Result<Plan, AllocError>
    ensures { IfOk result (λ p. p ≡ facts_plan (seen asker.now) parameter.now) }
{
    let path = match path_in(alloc, asker, parameter)? {
        Some(path) => path,
        None => asker.cwd.copy(alloc)?,
    };
    Ok(Plan::Ask(Request::Look { path }))
}

// What is done on a word that is about files.
fn file_plan(
    alloc: Global,
    asker: &Asker<'_>,
    pending: Option<Bytes>,
    word: ExtraWord,
    parameter: &[u8],
) -> Result<Option<Plan>, AllocError>
    ensures { IfOk result (λ p. p ≡ file_plan (seen asker.now) pending word parameter.now) }
{
    match word {
        ExtraWord::Mkd
        | ExtraWord::Xmkd
        | ExtraWord::Rmd
        | ExtraWord::Xrmd
        | ExtraWord::Dele
        | ExtraWord::Rnfr
        | ExtraWord::Size
        | ExtraWord::Mdtm => Ok(Some(word_asked(alloc, asker, word, parameter)?)),
        ExtraWord::Mlst => Ok(Some(facts_plan(alloc, asker, parameter)?)),
        ExtraWord::Rnto => Ok(Some(rename_plan(alloc, asker, pending, parameter)?)),
        ExtraWord::Mfmt => Ok(Some(date_plan(alloc, asker, parameter)?)),
        _ => Ok(None),
    }
}

// What is done on a word: the login comes first, but for the open words.
fn login_plan(
    alloc: Global,
    offers: Offers,
    asker: &Asker<'_>,
    pending: Option<Bytes>,
    word: ExtraWord,
    parameter: &[u8],
) -> Result<Plan, AllocError>
    ensures { IfOk result (λ p. p ≡ login_plan offers (seen asker.now) pending word parameter.now) }
{
    if !asker.is_in && !is_open(word) {
        let reply = tell(alloc, ReplyCode::NotLoggedIn, b"Please authenticate")?;
        return Ok(Plan::Do(reply));
    }
    if let Some(plan) = file_plan(alloc, asker, pending, word, parameter)? {
        return Ok(plan);
    }
    let extra = session_extra(alloc, offers, asker, word, parameter)?;
    Ok(Plan::Do(extra))
}

fn is_wildcard(byte: u8) -> bool
    ensures { result ≡ is_wildcard byte }
{
    byte == b'*' || byte == b'?'
}

fn has_wildcard(argument: &[u8]) -> bool
    ensures { result ≡ list_any is_wildcard argument.now }
{
    argument.iter().any(|b| is_wildcard(*b))
}

fn begins_with_hyphen(argument: &[u8]) -> bool
    ensures { result ≡ begins_with_hyphen argument.now }
{
    matches!(argument, [b'-', ..])
}

// Says whether the argument of a listing is no path.
fn is_pattern(argument: &[u8]) -> bool
    ensures { result ≡ is_pattern argument.now }
{
    begins_with_hyphen(argument) || has_wildcard(argument)
}

// A path is looked at.
fn look_plan(alloc: Global, asker: &Asker<'_>, path: &Bytes) -> Result<Plan, AllocError>
    ensures { IfOk result (λ p. p ≡ look_plan (seen asker.now) path.now) }
{
    let path = join_path(alloc, asker.cwd, path)?;
    Ok(Plan::Ask(Request::Look { path }))
}

// A listing of a path is looked at first, and one of a pattern is not.
fn list_plan(alloc: Global, asker: &Asker<'_>, path: Option<&Bytes>) -> Result<Plan, AllocError>
    ensures { IfOk result (λ p. p ≡ list_plan (seen asker.now) (option_copied path.entry)) }
{
    match path {
        Some(path) if !is_pattern(path.as_slice()) => look_plan(alloc, asker, path),
        _ => Ok(Plan::Do(Extra::Pass)),
    }
}

// MLSD takes no pattern: its path is looked at.
fn facts_list_plan(
    alloc: Global,
    asker: &Asker<'_>,
    path: Option<&Bytes>,
) -> Result<Plan, AllocError>
    ensures { IfOk result (λ p. p ≡ facts_list_plan (seen asker.now) (option_copied path.entry)) }
{
    match path {
        Some(path) => look_plan(alloc, asker, path),
        None => Ok(Plan::Do(Extra::Pass)),
    }
}

// The directory is looked at in which a file is to be stored.
fn store_plan(alloc: Global, asker: &Asker<'_>, path: &Bytes) -> Result<Plan, AllocError>
    ensures { IfOk result (λ p. p ≡ store_plan (seen asker.now) path.now) }
{
    let path = join_path(alloc, asker.cwd, path)?;
    let path = Bytes::from_slice(alloc, parent_of(path.as_slice()))?;
    Ok(Plan::Ask(Request::Look { path }))
}

// What is looked at before a transfer.
fn transfer_plan(
    alloc: Global,
    asker: &Asker<'_>,
    command: &DataChanCmd,
) -> Result<Plan, AllocError>
    ensures { IfOk result (λ p. p ≡ transfer_plan (seen asker.now) command.now) }
{
    match command {
        DataChanCmd::Retr { path } => look_plan(alloc, asker, path),
        DataChanCmd::Stor { path } | DataChanCmd::Appe { path } => store_plan(alloc, asker, path),
        DataChanCmd::Mlsd { .. } => facts_list_plan(alloc, asker, command.path()),
        _ => list_plan(alloc, asker, command.path()),
    }
}

/// What is done on the line of a command.
pub(crate) fn plan_of(
    alloc: Global,
    offers: Offers,
    asker: &Asker<'_>,
    pending: Option<Bytes>,
    command: &Command,
    line: &[u8],
) -> Result<Plan, AllocError>
    ensures { IfOk result (λ p. p ≡ plan_of offers (seen asker.now) pending command.now line.now) }
{
    match command {
        Command::Other { word } => {
            let Some(known) = word_of(word.as_slice()) else {
                return Ok(Plan::Do(Extra::Pass));
            };
            let parameter = parameter_of(alloc, line)?;
            login_plan(alloc, offers, asker, pending, known, parameter.as_slice())
        }
        Command::Data(command) if asker.is_in => transfer_plan(alloc, asker, command),
        _ => Ok(Plan::Do(Extra::Pass)),
    }
}
