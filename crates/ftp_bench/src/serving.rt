//! The talk that is measured.

ghost use Rattle.std.specs.Prelude.{◌≡◌, ◌<◌, length, IfOk};

use crate::appending::options;
use crate::asking::connect;
use crate::client::Client;
use crate::error::BenchError;
use ftp_base::{AuthAnswer, MemoryEdge, MemoryStorage, SameAnswer};
use ftp_events::Answer;
use ftp_options::Options;
use ftp_shared::{Desk, Serving, SoloDesk};
use ftp_talk::{ServeEnd, serve_control};
use std::alloc::{AllocError, Global};
use std::marker::Brand;
use std::sync::ledger::Blank;

/// Serves a client who sends so many packets of 100 commands, and says how many lines it was sent.
pub fn count_replies(alloc: Global, packets: u16) -> Result<u64, BenchError> {
    let mut client = Client::new(packet(alloc)?, packets);
    match serve::<Brand>(alloc, options(alloc), Blank::new(2), &mut client) {
        ServeEnd::Ended => Ok(client.lines()),
        _ => Err(BenchError::Stopped),
    }
}

/// A hundred commands, of which each is replied to by one line.
fn packet(alloc: Global) -> Result<Vec<u8>, AllocError>
    ensures some { IfOk result (λ packet. 0 < length packet.items) }
{
    let mut packet = Vec::from_slice(alloc, b"NOOP\r\nTYPE I\r\nSYST\r\nPWD\r\n")?;
    for _i in 1..25 {
        packet.extend_from_slice(b"NOOP\r\nTYPE I\r\nSYST\r\nPWD\r\n")?;
    }
    Ok(packet)
}

/// Serves the client to its end over a desk.
fn serve_over<D: Desk>(alloc: Global, desk: &mut D, client: &mut Client) -> ServeEnd {
    let mut edge = MemoryEdge::new(
        Vec::new(alloc),
        Vec::new(alloc),
        Vec::new(alloc),
        Vec::new(alloc),
        Vec::new(alloc),
    );
    let everybody = SameAnswer(AuthAnswer::Good);
    serve_control(
        alloc,
        desk,
        client,
        &mut edge,
        &everybody,
        connect(1),
        Answer::None,
    )
}

/// Serves the client to its end over a desk by itself.
fn serve<L: Serving>(alloc: Global, options: Options, blank: Blank, client: &mut Client) -> ServeEnd
    requires name { blank.name ≡ L.name }
    requires parts { blank.parts ≡ L.parts }
    requires two { blank.parts ≡ 2 }
    requires options { options ≡ L.options }
{
    let mut desk = desk_by_itself::<L>(alloc, options, blank);
    serve_over(alloc, &mut desk, client)
}

/// A desk on the server that a blank is for, with no files.
fn desk_by_itself<L: Serving>(
    alloc: Global,
    options: Options,
    blank: Blank,
) -> SoloDesk<L, MemoryStorage>
    requires name { blank.name ≡ L.name }
    requires parts { blank.parts ≡ L.parts }
    requires two { blank.parts ≡ 2 }
    requires options { options ≡ L.options }
{
    let (steps, parts) = blank.open::<L>();
    let storage = MemoryStorage::new(alloc, 0, Vec::new(alloc));
    SoloDesk::new(alloc, options, storage, steps, parts, 2)
}
