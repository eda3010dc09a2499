//! What the program tells where it reads nothing.

ghost use Rattle.std.specs.Prelude.{◌≡◌, ◌≤◌, OnOk, OnErr, IsErrOf};
ghost use Rattle.ftp_base.specs.declared.fault.Failed.TheVariants.{Fault};
ghost use Rattle.ftp_base.specs.Outside.{HasRisen, Writes};
ghost use Rattle.ftp_control.specs.Writing.{WritesFront};
ghost use Rattle.ftp_script_run.specs.declared.command.Command.TheVariants.{Tell};
ghost use Rattle.ftp_script_run.specs.Commands.{IsLawful, text_of};

use crate::command::Told;
use crate::stress;
use ftp_base::{Failed, Sink};
use ftp_control::write_all;
use std::alloc::Global;

/// The commands, in plain words.
pub const HELP: &[u8] = b"ftp_script script
    runs the script that standard input gives, and prints its log
ftp_script audit
    runs the script that standard input gives, and prints what each user moved
    and how often it came and went, in place of the log
ftp_script save
    runs the script that standard input gives, and prints its log and then the
    state of the hub, in place of links and files
ftp_script resume
    reads an options line or none, the state of a hub, a line of two hyphens,
    and a script, runs the script from that state on, and prints its log
ftp_script stress SEED SESSIONS
    lets 1 to 1000 sessions log in, draws 16 events for each of them from the
    seed, which is below 2^64, and prints how often each decision came
ftp_script --help
    prints the commands
ftp_script --version
    prints the version
";

/// The name and the version of the program.
pub const VERSION: &[u8] = b"ftp_script 0.1.0\n";

/// Writes what is to be told.
pub fn tell<K: Sink>(alloc: Global, told: Told, sink: &mut K) -> Result<(), Failed>
    requires { IsLawful (Tell told) }
    ensures wrote { OnOk result (Writes (K.written sink.old) (K.written sink.new) (text_of told)) }
    ensures fault_rose { IsErrOf result Fault → HasRisen (K.faults sink.old) (K.faults sink.new) }
    ensures count { K.faults sink.old ≤ K.faults sink.new }

    // After an error a part from the front was written.
    ensures front { OnErr result (WritesFront (K.written sink.old) (K.written sink.new) (text_of told)) }
{
    match told {
        Told::Stress { seed, sessions } => stress(alloc, seed, sessions, sink),
        Told::Help => write_all(sink, HELP),
        Told::Version => write_all(sink, VERSION),
    }
}
