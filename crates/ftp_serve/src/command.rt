//! What the words of the program ask for.

ghost use Rattle.std.specs.Prelude.{◌≡◌, ◌≤◌, ◌++◌, ℕ, List, map, string_bytes, codes, Some, None, IfSome, IsNone};
ghost use Rattle.ftp_options.specs.declared.options.ListenerMode.{ListenerMode};
ghost use Rattle.ftp_serve.specs.declared.command.Command.{Command};
ghost use Rattle.ftp_serve.specs.declared.service.Service.{Service};
ghost use Rattle.ftp_serve.specs.Words.{Asks, AsksService, IsCount, IsMode, command_of};

use crate::service::Service;
use ftp_base::{decimal_in, value_named};
use ftp_options::ListenerMode;
use ftp_system::port_of;

#[derive(Clone, Copy, Debug, PartialEq, Eq)]
pub enum Command {
    Help,
    Version,
    /// It listens at the address that the first word says.
    Serve(Service),
}

// What a word by itself asks for.
const WORDS: [(&[u8], Command); 2] = [(b"--help", Command::Help), (b"--version", Command::Version)];

impl Service {
    // What three words ask for, where they are a mode and two ports.
    //
    // # Proved
    //
    // - Of the words the first is the mode, the second the first passive port and the third the last (`found`, `none`);
    //   a fourth is the most entries behind a checkpoint, and is a number from 1 on (also `Service::with_every`: `found`,
    //   `none`).
    fn of(mode: &[u8], lo: &[u8], hi: &[u8]) -> Option<Service>
        ensures found { IfSome result (AsksService mode.now lo.now hi.now None) }
        ensures none { IsNone result → (service : Service) → AsksService mode.now lo.now hi.now None service → ⊥ }
    {
        Some(Service {
            mode: mode_of(mode)?,
            lo: port_of(lo)?,
            hi: port_of(hi)?,
            every: None,
        })
    }

    // What four words ask for, where they are a mode, two ports and how many entries.
    fn with_every(mode: &[u8], lo: &[u8], hi: &[u8], every: &[u8]) -> Option<Service>
        ensures found { IfSome result (AsksService mode.now lo.now hi.now (Some every.now)) }
        ensures none { IsNone result → (service : Service) → AsksService mode.now lo.now hi.now (Some every.now) service → ⊥ }
    {
        Some(Service {
            mode: mode_of(mode)?,
            lo: port_of(lo)?,
            hi: port_of(hi)?,
            every: Some(count_of(every)?),
        })
    }
}

impl Command {
    /// What the words behind the program's name ask for, where they are a command.
    ///
    /// # Proved
    ///
    /// - Which words ask for which command: where one is given they ask for it, and where none is given they ask for
    ///   none; a mode is its whole word, behind a proxy with the control port; a port is decimal digits without a sign
    ///   or a leading zero, below 65,536, and how many entries are kept is such a number from 1 on below 2 ^ 64 (`Asks`,
    ///   `IsMode` in `ftp_serve/specs/Words.antt`) (`found`, `none`).
    pub fn of(words: &[String]) -> Option<Command>
        ensures found { IfSome result (Asks (map string_bytes words.now)) }
        ensures none { IsNone result → (command : Command) → Asks (map string_bytes words.now) command → ⊥ }
    {
        match words {
            [word] => Command::of_word(word.as_bytes()),
            [_, mode, lo, hi] => {
                let service = Service::of(mode.as_bytes(), lo.as_bytes(), hi.as_bytes())?;
                Some(Command::Serve(service))
            }
            [_, mode, lo, hi, every] => {
                let service = Service::with_every(
                    mode.as_bytes(),
                    lo.as_bytes(),
                    hi.as_bytes(),
                    every.as_bytes(),
                )?;
                Some(Command::Serve(service))
            }
            _ => None,
        }
    }

    #[tactic(auto, unfolding(crate::specs::Words::command_of))]
    fn of_word(word: &[u8]) -> Option<Command>
        ensures { result ≡ command_of word.now }
    {
        value_named(&WORDS, word)
    }
}

// How many entries a word names: one at least.
fn count_of(word: &[u8]) -> Option<u64>
    ensures found { IfSome result (IsCount word.now) }
    ensures none { IsNone result → (n : ℕ) → IsCount word.now n → ⊥ }
    ensures some { IfSome result (λ n. 1 ≤ n) }
{
    match decimal_in(word) {
        Some(n) if 1 <= n => Some(n),
        _ => None,
    }
}

// The mode that a word names.
fn mode_of(word: &[u8]) -> Option<ListenerMode>
    ensures found { IfSome result (IsMode word.now) }
    ensures none { IsNone result → (mode : ListenerMode) → IsMode word.now mode → ⊥ }
{
    if word == b"legacy".as_slice() {
        return Some(ListenerMode::Legacy);
    }
    if word == b"pooled".as_slice() {
        return Some(ListenerMode::Pooled);
    }
    let control_port = port_of(behind_proxy(word)?)?;
    Some(ListenerMode::Proxy { control_port })
}

// What stands behind `proxy:`.
fn behind_proxy(word: &[u8]) -> Option<&[u8]>
    ensures found { IfSome result (λ rest. word.now ≡ codes "proxy:" ++ rest.now) }
    ensures none { IsNone result → (rest : List ℕ) → word.now ≡ codes "proxy:" ++ rest → ⊥ }
{
    if let [b'p', b'r', b'o', b'x', b'y', b':', rest @ ..] = word {
        return Some(rest);
    }
    None
}
