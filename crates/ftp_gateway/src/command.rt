//! What the words of the program ask for.

ghost use Rattle.std.specs.Prelude.{◌≡◌, map, string_bytes};
ghost use Rattle.ftp_gateway.specs.Words.{command_of, command_of_word, command_of_two};

use crate::request::Request;
use ftp_base::value_named;

/// What is asked for. A command with a file has it as its second word.
#[derive(Clone, Copy, Debug, PartialEq, Eq)]
pub enum Command {
    Help,
    Version,
    /// Serves as a configuration file says.
    Serve,
    /// Looks at a configuration file and at its file of users.
    Check,
    /// Writes the hash of a password.
    MakePassword,
    /// Asks a running gateway for something, at its control socket.
    Ask(Request),
}

// What a word by itself asks for.
const WORDS: [(&[u8], Command); 3] = [
    (b"--help", Command::Help),
    (b"--version", Command::Version),
    (b"mkpasswd", Command::MakePassword),
];

// What a word with a file behind it asks for.
const FILE_WORDS: [(&[u8], Command); 5] = [
    (b"serve", Command::Serve),
    (b"check", Command::Check),
    (b"stop", Command::Ask(Request::Stop)),
    (b"reload", Command::Ask(Request::Reload)),
    (b"status", Command::Ask(Request::Status)),
];

impl Command {
    /// What the words behind the program's name ask for, where they are a command.
    ///
    /// # Proved
    ///
    /// - Which words ask for which command, and that others ask for none (`command_of` in `ftp_gateway/specs/Words.antt`).
    pub fn of(words: &[String]) -> Option<Command>
        ensures { result ≡ command_of (map string_bytes words.now) }
    {
        match words {
            [word] => Command::of_word(word.as_bytes()),
            [word, _] => Command::of_two(word.as_bytes()),
            _ => None,
        }
    }

    #[tactic(auto, unfolding(crate::specs::Words::command_of_word))]
    fn of_word(word: &[u8]) -> Option<Command>
        ensures { result ≡ command_of_word word.now }
    {
        value_named(&WORDS, word)
    }

    #[tactic(auto, unfolding(crate::specs::Words::command_of_two))]
    fn of_two(word: &[u8]) -> Option<Command>
        ensures { result ≡ command_of_two word.now }
    {
        value_named(&FILE_WORDS, word)
    }
}
