//! The words of events.

ghost use Rattle.std.specs.Prelude.{◌≡◌};
ghost use Rattle.ftp_text.specs.Events.{event_word_text};

/// The word of a kind of event.
#[derive(Clone, Copy, Debug, PartialEq, Eq)]
pub enum EventWord {
    Connect,
    Proxied,
    Data,
    Accepted,
    User,
    Pass,
    Auth,
    Pasv,
    Port,
    Retr,
    Stor,
    Appe,
    List,
    Nlst,
    Mlsd,
    Stou,
    Rest,
    Cwd,
    Closed,
    Quit,
    Slot,
    End,
    Piece,
    Sweep,
    Abor,
    Internal,
    Idle,
    Scavenge,
    Shutdown,
}

// In the order of the words.
pub(crate) const EVENT_WORDS: [(&[u8], EventWord); 29] = [
    (b"connect", EventWord::Connect),
    (b"proxied", EventWord::Proxied),
    (b"data", EventWord::Data),
    (b"accepted", EventWord::Accepted),
    (b"user", EventWord::User),
    (b"pass", EventWord::Pass),
    (b"auth", EventWord::Auth),
    (b"pasv", EventWord::Pasv),
    (b"port", EventWord::Port),
    (b"retr", EventWord::Retr),
    (b"stor", EventWord::Stor),
    (b"appe", EventWord::Appe),
    (b"list", EventWord::List),
    (b"nlst", EventWord::Nlst),
    (b"mlsd", EventWord::Mlsd),
    (b"stou", EventWord::Stou),
    (b"rest", EventWord::Rest),
    (b"cwd", EventWord::Cwd),
    (b"closed", EventWord::Closed),
    (b"quit", EventWord::Quit),
    (b"slot", EventWord::Slot),
    (b"end", EventWord::End),
    (b"piece", EventWord::Piece),
    (b"sweep", EventWord::Sweep),
    (b"abor", EventWord::Abor),
    (b"internal", EventWord::Internal),
    (b"idle", EventWord::Idle),
    (b"scavenge", EventWord::Scavenge),
    (b"shutdown", EventWord::Shutdown),
];

impl EventWord {
    /// The word as it is spelled.
    pub(crate) fn text(self) -> &'static [u8]
        ensures { result.now ≡ event_word_text self }
    {
        EVENT_WORDS[self as usize].0
    }
}
