//! How what stands at a place looks in a listing: who may do what, and when it was last changed.

ghost use Rattle.std.specs.Prelude.{◌≡◌, ◌<◌, ◌==◌, if◌then◌else◌};
ghost use Rattle.std.specs.Int.{bit_at};
ghost use Rattle.ftp_places.specs.Moment.{moment_of};
ghost use Rattle.ftp_disk.specs.Looks.{AreLooks, ShowsLooks, rights_text};

use ftp_base::Looks;
use ftp_places::{date_at, list_date, moment_of, time_val};
use std::fs::Metadata;
use std::io;
use std::os::unix::fs::MetadataExt;

// The letter of a right, where its bit of a mode is set.
fn letter(mode: u32, bit: u32, right: u8) -> u8
    requires bit { bit < 32 }
    ensures { result ≡ if bit_at mode bit == 1 then right else 45 }
{
    if mode >> bit & 1 == 1 { right } else { b'-' }
}

// Who may do what: the owner, the group and the others.
fn rights_text(mode: u32) -> [u8; 9]
    ensures { result ≡ rights_text mode }
{
    [
        letter(mode, 8, b'r'),
        letter(mode, 7, b'w'),
        letter(mode, 6, b'x'),
        letter(mode, 5, b'r'),
        letter(mode, 4, b'w'),
        letter(mode, 3, b'x'),
        letter(mode, 2, b'r'),
        letter(mode, 1, b'w'),
        letter(mode, 0, b'x'),
    ]
}

// The looks of what has a mode and was changed so many seconds after 1970.
fn looks_of(mode: u32, changed: i64, now: i64) -> Looks
    ensures { AreLooks mode (moment_of changed) (moment_of now) result }
{
    let moment = moment_of(changed);
    let date = date_at(moment);
    Looks {
        mode: rights_text(mode),
        shown: list_date(date, moment, moment_of(now)),
        modify: time_val(date, moment),
    }
}

/// The looks of what a system tells of.
pub(crate) fn looks_told(answer: &io::Result<Metadata>, now: i64) -> Option<Looks>
    ensures { ShowsLooks answer.now result }
{
    match answer {
        Ok(found) => Some(looks_of(found.mode(), found.mtime(), now)),
        Err(_) => None,
    }
}
