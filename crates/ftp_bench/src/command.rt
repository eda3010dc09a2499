//! What the words of the program ask for.

ghost use Rattle.std.specs.Prelude.{◌≡◌, ◌<◌, ℕ, map, string_bytes, IfSome, IsNone};
ghost use Rattle.ftp_bench.specs.declared.command.Command.{Command};
ghost use Rattle.ftp_bench.specs.declared.command.Search.{Search};
ghost use Rattle.ftp_bench.specs.declared.command.Appends.{Appends};
ghost use Rattle.ftp_bench.specs.Appending.{threads_of};
ghost use Rattle.ftp_bench.specs.Words.{command_of, kind_of, way_of, IsNumber, Asks, AsksAppends, AsksSearch};

use ftp_base::{decimal_in, value_named};

/// What is moved.
#[derive(Clone, Copy, Debug, PartialEq, Eq)]
pub enum Kind {
    Retr,
    Stor,
    /// STOR within a budget.
    Quota,
    Copy,
}

/// So many mebibytes, moved so often.
#[derive(Clone, Copy, Debug, PartialEq, Eq)]
pub struct Load {
    pub kind: Kind,
    pub mebibytes: u8,
    pub rounds: u16,
}

/// Reservations of a client that holds the ports from one on and below another. Each begins at the word, and gives up
/// the port of the one before.
#[derive(Clone, Copy, Debug, PartialEq, Eq)]
pub struct Search {
    pub first: u16,
    pub end: u16,
    pub word: u16,
    pub rounds: u16,
}

/// How many threads share a hub.
#[derive(Clone, Copy, Debug, PartialEq, Eq)]
pub enum Crew {
    One,
    Two,
    Four,
}

/// Whose hub takes the events.
#[derive(Clone, Copy, Debug, PartialEq, Eq)]
pub enum Way {
    /// A hub by itself, whose entries are let go.
    Run,
    /// A hub by itself, whose entries are kept.
    Log,
    /// A hub behind a lock, whose entries are kept.
    Shared(Crew),
}

/// So many sessions, and then so many events of theirs.
#[derive(Clone, Copy, Debug, PartialEq, Eq)]
pub struct Appends {
    pub way: Way,
    pub sessions: u32,
    pub rounds: u32,
}

#[derive(Clone, Copy, Debug, PartialEq, Eq)]
pub enum Command {
    Help,
    Version,
    /// So many packets of 100 commands.
    Talk(u16),
    Move(Load),
    Reserve(Search),
    Append(Appends),
}

// What a word by itself asks for.
const WORDS: [(&[u8], Command); 2] = [(b"--help", Command::Help), (b"--version", Command::Version)];

const KINDS: [(&[u8], Kind); 4] = [
    (b"retr", Kind::Retr),
    (b"stor", Kind::Stor),
    (b"quota", Kind::Quota),
    (b"copy", Kind::Copy),
];

const WAYS: [(&[u8], Way); 5] = [
    (b"run", Way::Run),
    (b"log", Way::Log),
    (b"one", Way::Shared(Crew::One)),
    (b"two", Way::Shared(Crew::Two)),
    (b"four", Way::Shared(Crew::Four)),
];

impl Kind {
    #[tactic(auto, unfolding(crate::specs::Words::kind_of))]
    pub fn named(word: &[u8]) -> Option<Kind>
        ensures { result ≡ kind_of word.now }
    {
        value_named(&KINDS, word)
    }
}

impl Crew {
    pub fn threads(self) -> u64
        ensures { result ≡ threads_of self }
    {
        match self {
            Crew::One => 1,
            Crew::Two => 2,
            Crew::Four => 4,
        }
    }
}

impl Way {
    #[tactic(auto, unfolding(crate::specs::Words::way_of))]
    pub fn named(word: &[u8]) -> Option<Way>
        ensures { result ≡ way_of word.now }
    {
        value_named(&WAYS, word)
    }
}

impl Appends {
    /// What three words ask for, where they are a way and two numbers.
    fn of(way: &[u8], sessions: &[u8], rounds: &[u8]) -> Option<Appends>
        ensures found { IfSome result (AsksAppends way.now sessions.now rounds.now) }
        ensures none { IsNone result → (appends : Appends) → AsksAppends way.now sessions.now rounds.now appends → ⊥ }
    {
        Some(Appends {
            way: Way::named(way)?,
            sessions: number(sessions, 1 << 24)?,
            rounds: number(rounds, 1 << 24)?,
        })
    }
}

impl Search {
    /// What four words ask for, where they are numbers.
    fn of(first: &[u8], end: &[u8], word: &[u8], rounds: &[u8]) -> Option<Search>
        ensures found { IfSome result (AsksSearch first.now end.now word.now rounds.now) }
        ensures none { IsNone result → (search : Search) → AsksSearch first.now end.now word.now rounds.now search → ⊥ }
    {
        Some(Search {
            first: number(first, 1 << 16)? as u16,
            end: number(end, 1 << 16)? as u16,
            word: number(word, 1 << 16)? as u16,
            rounds: number(rounds, 1 << 16)? as u16,
        })
    }
}

impl Command {
    /// What the words behind the program's name ask for, where they are a command.
    ///
    /// # Proved
    ///
    /// - Which words ask for which command: where one is given they ask for it, and where none is given they ask for
    ///   none; a number is decimal digits without a sign or a leading zero, below its limit (`found`, `none`; also
    ///   `Kind::named`, `Way::named`).
    pub fn of(words: &[String]) -> Option<Command>
        ensures found { IfSome result (Asks (map string_bytes words.now)) }
        ensures none { IsNone result → (command : Command) → Asks (map string_bytes words.now) command → ⊥ }
    {
        match words {
            [word] => Command::of_word(word.as_bytes()),
            [name, packets] => {
                if name.as_bytes() != b"talk".as_slice() {
                    return None;
                }
                Some(Command::Talk(number(packets.as_bytes(), 1 << 16)? as u16))
            }
            [kind, mebibytes, rounds] => Some(Command::Move(Load {
                kind: Kind::named(kind.as_bytes())?,
                mebibytes: number(mebibytes.as_bytes(), 1 << 8)? as u8,
                rounds: number(rounds.as_bytes(), 1 << 16)? as u16,
            })),
            [name, way, sessions, rounds] => {
                if name.as_bytes() != b"append".as_slice() {
                    return None;
                }
                let appends = Appends::of(way.as_bytes(), sessions.as_bytes(), rounds.as_bytes())?;
                Some(Command::Append(appends))
            }
            [name, first, end, word, rounds] => {
                if name.as_bytes() != b"reserve".as_slice() {
                    return None;
                }
                let search = Search::of(
                    first.as_bytes(),
                    end.as_bytes(),
                    word.as_bytes(),
                    rounds.as_bytes(),
                )?;
                Some(Command::Reserve(search))
            }
            _ => None,
        }
    }

    #[tactic(auto, unfolding(crate::specs::Words::command_of))]
    fn of_word(word: &[u8]) -> Option<Command>
        ensures { result ≡ command_of word.now }
    {
        value_named(&WORDS, word)
    }
}

/// The number below a limit that a word spells in decimal digits, without a sign or a leading zero.
#[tactic(auto, unfolding(crate::specs::Words::IsNumber))]
fn number(word: &[u8], limit: u32) -> Option<u32>
    ensures found { IfSome result (IsNumber limit word.now) }
    ensures below { IfSome result (λ n. n < limit) }
    ensures none { IsNone result → (n : ℕ) → IsNumber limit word.now n → ⊥ }
{
    match decimal_in(word) {
        Some(n) if n < u64::from(limit) => Some(n as u32),
        _ => None,
    }
}
