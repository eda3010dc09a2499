//! The commands, and the words that ask for them.

ghost use Rattle.std.specs.Prelude.{◌≡◌, ℕ, ◌↔◌, ◌∷◌, ◌^◌, ◌-◌, [], min, Some, map, IsTrue, MatchOption};
ghost use Rattle.std.specs.Str.Parse.{AllDigits, digits_value};
ghost use Rattle.ftp_check_log.specs.declared.command.CheckCommand.{CheckCommand};
ghost use Rattle.ftp_check_log.specs.CheckCommands.{AsksFor, IsDecimal, SpellsPlace};

/// What the program does.
#[derive(Clone, Copy, Debug, PartialEq, Eq)]
pub enum CheckCommand {
    /// It checks the printed log that the source gives.
    Check,
    /// It checks the log too, and tells why its entry at this place was decided as it was, counted from 0.
    Why(u64),
    /// It tells the commands, and reads nothing.
    Help,
    /// It tells the version, and reads nothing.
    Version,
}

/// The command that the words ask for. A place that is no number of 64 bits, where no log has an entry, becomes `u64::MAX`.
pub fn check_command(words: &[Vec<u8>]) -> Option<CheckCommand>
    ensures { (c : CheckCommand) → (result ≡ Some c) ↔ AsksFor (map (λ w. w.items) words.now) c }
{
    match words {
        [word] => lone(word.as_slice()),
        [word, place] => placed(word.as_slice(), place.as_slice()),
        _ => None,
    }
}

// The command that a lone word asks for.
fn lone(word: &[u8]) -> Option<CheckCommand>
    ensures { (c : CheckCommand) → (result ≡ Some c) ↔ AsksFor (word.now ∷ []) c }
{
    if word == b"check".as_slice() {
        Some(CheckCommand::Check)
    } else if word == b"--help".as_slice() {
        Some(CheckCommand::Help)
    } else if word == b"--version".as_slice() {
        Some(CheckCommand::Version)
    } else {
        None
    }
}

// The command that a word and a place ask for.
fn placed(word: &[u8], place: &[u8]) -> Option<CheckCommand>
    ensures { (c : CheckCommand) → (result ≡ Some c) ↔ AsksFor (word.now ∷ place.now ∷ []) c }
{
    if word != b"why".as_slice() {
        return None;
    }
    match place_of(place) {
        Some(k) => Some(CheckCommand::Why(k)),
        None => None,
    }
}

// The place that all of a word spells.
fn place_of(word: &[u8]) -> Option<u64>
    ensures { MatchOption result (IsDecimal word.now → ⊥) (λ k. SpellsPlace word.now k) }
{
    if !are_digits(word) || word.is_empty() {
        return None;
    }
    if word.len() > 1 && word[0] == b'0' {
        return None;
    }
    Some(value(word))
}

// Says whether the word is nothing but decimal digits.
fn are_digits(word: &[u8]) -> bool
    ensures { IsTrue result ↔ AllDigits 10 word.now }
{
    for b in word {
        if !b.is_ascii_digit() {
            return false;
        }
    }
    true
}

// The number that the digits spell, or the greatest of 64 bits where it needs more.
fn value(digits: &[u8]) -> u64
    requires { AllDigits 10 digits.now }
    ensures { result ≡ min (digits_value 10 digits.now) (2 ^ 64 - 1) }
{
    let mut value: u64 = 0;
    for digit in digits {
        let digit = u64::from(*digit - b'0');
        if value > (u64::MAX - digit) / 10 {
            return u64::MAX;
        }
        value = value * 10 + digit;
    }
    value
}
