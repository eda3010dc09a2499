//! What may be done on a line beside what the profile does.

ghost use Rattle.std.specs.Prelude.{◌≡◌, ◌≤◌, ℕ, true, false, List, Option, None, IfOk};
ghost use Rattle.ftp_control.specs.declared.command.Command.{Command};
ghost use Rattle.ftp_extras.specs.declared.extra.Extra.{Extra};
ghost use Rattle.ftp_extras.specs.declared.extra.Extra.TheVariants.{Pass};
ghost use Rattle.ftp_extras.specs.Extra.{AskerView, seen, gives_password, is_beside, IsWhole};

use ftp_base::{Bytes, ControlChanMsg};
use ftp_control::Command;
use std::alloc::AllocError;

/// Who asks, as the entries so far tell.
#[derive(Clone, Copy)]
pub struct Asker<'a> {
    /// The name that was given last.
    pub name: Option<&'a Bytes>,
    pub is_in: bool,
    pub cwd: &'a Bytes,
}

/// What is done on the line of a command.
#[derive(Debug, Drop)]
pub enum Extra {
    /// What the profile does, also where it refuses the line.
    Pass,
    /// The event of a message of the control layer, whose reply is the hub's.
    Tell(ControlChanMsg),
    /// An event without a reply, and behind it these bytes.
    Say(Bytes),
    /// What the profile does on this command.
    As(Command),
    /// What the profile does on a PASV; the port that it is granted is said as the reply to an EPSV.
    Epsv,
}

/// What is done on a line, where memory is found.
pub type ExtraResult = Result<Extra, AllocError>;

/// Does more than the profile on some lines.
pub trait Extras {
    // What is kept from a line for the next one.
    ghost pending: { Self → Option (List ℕ) };

    // What may be done for who asks, where this was kept from the line before, on the line of a command, and what may be
    // kept then.
    ghost may: { Self → AskerView → Option (List ℕ) → Command → List ℕ → Extra → Option (List ℕ) → Type 0 };

    // How many calls failed.
    ghost faults: { Self → ℕ };

    /// Says what is done on the line of a command. It hears each command but PASS, so that it knows which line follows
    /// which. A line that the profile refuses for its parameter, as `STOU name`, comes as `Command::Other` with what stands
    /// before the first space.
    ///
    /// # Proved
    ///
    /// - What is done beside the profile is one of what may be done for who asks, after what was kept from the line before
    ///   (`may`, `kept`).
    /// - Nothing is done in place of a command of the profile, but that a transfer may be refused as the storage refuses
    ///   (`beside`).
    /// - What is said is whole replies, and no password is made up (`whole`).
    fn hear(&mut self, asker: Asker<'_>, command: &Command, line: &[u8]) -> ExtraResult
        requires password { gives_password command.now ≡ false }
        ensures may { IfOk result (λ x. may self.old (seen asker.entry) (pending self.old) command.now line.now x (pending self.new)) }
        ensures kept { (who : AskerView) (before : Option (List ℕ)) (c : Command) (l : List ℕ) (x : Extra) (after : Option (List ℕ)) →
            may self.new who before c l x after → may self.old who before c l x after }
        ensures beside { IfOk result (λ x. is_beside command.now x ≡ true) }
        ensures whole { IfOk result IsWhole }
        ensures count { faults self.old ≤ faults self.new };
}

/// Does nothing beyond the profile.
#[derive(Clone, Copy, Debug, Default, PartialEq, Eq)]
pub struct NoExtras;

impl Extras for NoExtras {
    ghost pending = { λ _. None };

    ghost may = { λ _ who before c line x after. x ≡ Pass };

    ghost faults = { λ _. 0 };

    fn hear(&mut self, _asker: Asker<'_>, _command: &Command, _line: &[u8]) -> ExtraResult {
        Ok(Extra::Pass)
    }
}
