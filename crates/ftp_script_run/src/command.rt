//! The commands, and the words that ask for them.

ghost use Rattle.std.specs.Prelude.{◌≡◌, ℕ, ◌^◌, ◌<◌, ◌≤◌, ◌↔◌, ◌∷◌, [], Some, codes, decimal, map, slice_index};
ghost use Rattle.ftp_script_run.specs.declared.command.Command.{Command};
ghost use Rattle.ftp_script_run.specs.Commands.{Asks};

use std::str;

/// What the program does.
#[derive(Clone, Copy, Debug, PartialEq, Eq)]
pub enum Command {
    /// It runs the script that the source gives, and prints its log with this behind it.
    Run(Ending),
    /// It runs the script too, and tells what its users moved in place of its log.
    Audit,
    /// It goes on from the state of a hub, and runs the script behind that.
    Resume,
    /// It tells something, and reads nothing.
    Tell(Told),
}

/// What is printed behind the log of a whole script.
#[derive(Clone, Copy, Debug, PartialEq, Eq)]
pub enum Ending {
    /// A line for each link and for each file.
    LinksAndFiles,
    /// The text of the hub's state.
    State,
}

/// What is told where nothing is read.
#[derive(Clone, Copy, Debug, PartialEq, Eq)]
pub enum Told {
    /// How often each decision came in a run of drawn events, of at most 1,000 sessions.
    Stress { seed: u64, sessions: u64 },
    /// The commands.
    Help,
    Version,
}

/// The command that the words ask for. A number is decimal digits without a sign or a leading zero.
pub fn command_of(words: &[Vec<u8>]) -> Option<Command>
    ensures { (c : Command) → (result ≡ Some c) ↔ Asks (map (λ w. w.items) words.now) c }
{
    match words {
        [word] => lone(word.as_slice()),
        [word, seed, sessions] => drawn(word.as_slice(), seed.as_slice(), sessions.as_slice()),
        _ => None,
    }
}

// The command that a lone word asks for.
fn lone(word: &[u8]) -> Option<Command>
    ensures { (c : Command) → (result ≡ Some c) ↔ Asks (word.now ∷ []) c }
{
    if word == b"script".as_slice() {
        Some(Command::Run(Ending::LinksAndFiles))
    } else if word == b"audit".as_slice() {
        Some(Command::Audit)
    } else if word == b"save".as_slice() {
        Some(Command::Run(Ending::State))
    } else if word == b"resume".as_slice() {
        Some(Command::Resume)
    } else if word == b"--help".as_slice() {
        Some(Command::Tell(Told::Help))
    } else if word == b"--version".as_slice() {
        Some(Command::Tell(Told::Version))
    } else {
        None
    }
}

// The command that a word and two numbers ask for.
fn drawn(word: &[u8], seed: &[u8], sessions: &[u8]) -> Option<Command>
    ensures { (c : Command) → (result ≡ Some c) ↔ Asks (word.now ∷ seed.now ∷ sessions.now ∷ []) c }
{
    if word != b"stress".as_slice() {
        return None;
    }
    match (number(seed), number(sessions)) {
        (Some(seed), Some(sessions)) if sessions >= 1 && sessions <= 1000 => {
            Some(Command::Tell(Told::Stress { seed, sessions }))
        }
        _ => None,
    }
}

// The number that all of a word spells.
fn number(word: &[u8]) -> Option<u64>
    ensures { (n : ℕ) → (result ≡ Some n) ↔ ((n < 2 ^ 64) × (word.now ≡ decimal n)) }
{
    if word == b"0".as_slice() {
        return Some(0);
    }
    match word {
        [first, ..] if *first > b'0' => digits(word),
        _ => None,
    }
}

// The number that all of a word spells which begins with none of the signs, and with no zero.
fn digits(word: &[u8]) -> Option<u64>
    requires { 49 ≤ slice_index word.now 0 }
    ensures { (n : ℕ) → (result ≡ Some n) ↔ ((n < 2 ^ 64) × (word.now ≡ decimal n)) }
{
    let Ok(text) = str::from_utf8(word) else {
        return None;
    };
    match u64::from_str_radix(text, 10) {
        Ok(number) => Some(number),
        Err(_) => None,
    }
}
