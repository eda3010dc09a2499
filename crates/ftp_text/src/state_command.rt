//! The command of a transfer: its word, how long its options and its argument are, and its part of a text.

ghost use Rattle.std.specs.Prelude.{◌≡◌};
ghost use Rattle.ftp_text.specs.Reading.{Gives};
ghost use Rattle.ftp_text.specs.StateLineReading.{Lengths, lengths_at, command_with, command_in};

use crate::fault::{LineFault, Parsed};
use crate::field::optional_number;
use crate::state_piece::{cut_off, is_from_root};
use ftp_base::{Bytes, DataChanCmd};
use ftp_events::CommandWord;
use std::alloc::Global;

/// How long the options and the argument of a command are.
pub(crate) type Lengths = (Option<u64>, Option<u64>);

/// How long the options and the argument are.
pub(crate) fn lengths(bytes: &[u8]) -> Parsed<'_, Lengths>
    ensures { Gives (λ x. (x.0, x.1.now)) result (lengths_at bytes.now) }
{
    let (options, rest) = optional_number(bytes)?;
    let (argument, rest) = optional_number(rest)?;
    Ok(((options, argument), rest))
}

// The command of a word, with its options and its argument, where it has such.
fn command_with(
    word: CommandWord,
    options: Option<Bytes>,
    argument: Option<Bytes>,
) -> Option<DataChanCmd>
    ensures { result ≡ command_with word options argument }
{
    match (word, options, argument) {
        (CommandWord::Retr, None, Some(path)) => Some(DataChanCmd::Retr { path }),
        (CommandWord::Stor, None, Some(path)) => Some(DataChanCmd::Stor { path }),
        (CommandWord::Appe, None, Some(path)) => Some(DataChanCmd::Appe { path }),
        (CommandWord::List, options, path) => Some(DataChanCmd::List { options, path }),
        (CommandWord::Nlst, None, path) => Some(DataChanCmd::Nlst { path }),
        (CommandWord::Mlsd, None, path) => Some(DataChanCmd::Mlsd { path }),
        _ => None,
    }
}

/// The command that a text has, and the path behind it.
#[tactic(auto, unfolding(crate::specs::StateLineReading::command_in))]
pub(crate) fn command_in(
    alloc: Global,
    word: CommandWord,
    lengths: Lengths,
    text: &[u8],
) -> Result<(DataChanCmd, Bytes), LineFault>
    ensures { Gives (λ x. x) result (command_in word lengths text.now) }
{
    let (options, rest) = cut_off(alloc, lengths.0, text)?;
    let (argument, path) = cut_off(alloc, lengths.1, rest)?;
    let Some(command) = command_with(word, options, argument) else {
        return Err(LineFault::Bad);
    };
    if !is_from_root(path) {
        drop(command);
        return Err(LineFault::Bad);
    }
    match Bytes::from_slice(alloc, path) {
        Ok(path) => Ok((command, path)),
        Err(error) => {
            drop(command);
            Err(error.into())
        }
    }
}
