//! Telnet commands in the bytes of a control connection (RFC 854; RFC 959, section 3.1).

ghost use Rattle.std.specs.Prelude.{◌≡◌, ◌≢◌, ◌≤◌, ◌++◌, ◌∷◌, [], true, false, ℕ, List, length, take, if◌then◌else◌};
ghost use Rattle.ftp_system.specs.Telnet.{behind, is_function, is_request, text_in};

/// The byte that begins a command.
const IAC: u8 = 255;

/// What begins and ends the parameters of an option.
const SB: u8 = 250;

const SE: u8 = 240;

/// Where the next byte of a control connection stands.
#[derive(Clone, Copy, Debug, PartialEq, Eq)]
pub enum Telnet {
    /// At the start of a line, or behind a command. Where IAC was sent as urgent data, its command stands here alone.
    Open,
    /// In a line.
    Line,
    /// Behind IAC.
    Command,
    /// Behind a request about an option: the byte is the option's.
    Request,
    /// In the parameters of an option.
    Parameters,
    /// Behind IAC in the parameters of an option.
    ParametersCommand,
}

// Says whether the byte stands for a control function: NOP, DM, BRK, IP, AO, AYT, EC, EL or GA.
fn is_function(byte: u8) -> bool
    ensures { result ≡ is_function byte }
{
    241 <= byte && byte <= 249
}

// Says whether the byte stands for a request about an option: WILL, WONT, DO or DONT.
fn is_request(byte: u8) -> bool
    ensures { result ≡ is_request byte }
{
    251 <= byte && byte <= 254
}

// The place behind a byte of text.
fn behind(byte: u8) -> Telnet
    ensures { result ≡ behind byte }
{
    if byte == b'\n' {
        Telnet::Open
    } else {
        Telnet::Line
    }
}

impl Telnet {
    // The place behind a byte, and whether the byte is text.
    #[tactic(auto, unfolding(crate::specs::Telnet::text_in))]
    fn step(self, byte: u8) -> (Telnet, bool)
        ensures { (bytes : List ℕ) → text_in self (byte ∷ bytes) ≡ (if result.1 then byte ∷ text_in result.0 bytes else text_in result.0 bytes) }
    {
        match self {
            Telnet::Open if is_function(byte) => (Telnet::Open, false),
            Telnet::Open | Telnet::Line if byte == IAC => (Telnet::Command, false),
            Telnet::Open | Telnet::Line => (behind(byte), true),
            Telnet::Command => Telnet::command(byte),
            Telnet::Request => (Telnet::Open, false),
            Telnet::Parameters if byte == IAC => (Telnet::ParametersCommand, false),
            Telnet::ParametersCommand if byte == SE => (Telnet::Open, false),
            Telnet::Parameters | Telnet::ParametersCommand => (Telnet::Parameters, false),
        }
    }

    // The place behind IAC and a byte, and whether the byte is text.
    #[tactic(auto, unfolding(crate::specs::Telnet::text_in))]
    fn command(byte: u8) -> (Telnet, bool)
        ensures { (bytes : List ℕ) → text_in Telnet.Command (byte ∷ bytes) ≡ (if result.1 then byte ∷ text_in result.0 bytes else text_in result.0 bytes) }
    {
        if byte == IAC {
            (Telnet::Line, true)
        } else if is_request(byte) {
            (Telnet::Request, false)
        } else if byte == SB {
            (Telnet::Parameters, false)
        } else if byte >= SE {
            (Telnet::Open, false)
        } else {
            (behind(byte), true)
        }
    }

    /// Moves the text among the bytes to their front, and says how many bytes it has.
    ///
    /// # Proved
    ///
    /// - What is given of a control connection's bytes, and then of all that may follow, is their text without Telnet
    ///   commands, however they are cut (`text_in` in `ftp_system/specs/Telnet.antt`, with examples in
    ///   `ftp_system/proofs/Examples.antt`); bytes that were read before are cut so too; and whether there is text
    ///   among bytes is told (`text`, `within`; also `SocketControl::keep_text`: `text`; `Telnet::has_text`: `some`,
    ///   `none`).
    pub fn strip(&mut self, bytes: &mut [u8]) -> usize
        ensures text { (more : List ℕ) → text_in self.old (bytes.old ++ more) ≡ take result bytes.new ++ text_in self.new more }
        ensures within { result ≤ length bytes.new }
        ensures len { length bytes.new ≡ length bytes.old }
    {
        let mut kept = 0;
        for i in 0..bytes.len() {
            let byte = bytes[i];
            let (next, is_text) = self.step(byte);
            *self = next;
            if is_text {
                bytes[kept] = byte;
                kept += 1;
            }
        }
        kept
    }

    /// Says whether there is text among the bytes.
    pub fn has_text(self, bytes: &[u8]) -> bool
        ensures some { result ≡ true → text_in self bytes.now ≢ [] }
        ensures none { result ≡ false → text_in self bytes.now ≡ [] }
    {
        let mut place = self;
        for byte in bytes {
            let (next, is_text) = place.step(*byte);
            if is_text {
                return true;
            }
            place = next;
        }
        false
    }
}
