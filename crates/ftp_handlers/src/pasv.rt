//! PASV (RFC 959, section 4.1.2).

ghost use Rattle.std.specs.Prelude.{◌≡◌, ◌++◌, ◌||◌, ◌+◌, ◌-◌, ◌≤◌, ℕ, [], not, true, false, IsTrue, Option, None, Some, IfNone, IfSome};
ghost use Rattle.std.specs.Option.{option_map_or};
ghost use Rattle.ftp_base.specs.Net.{ipv4};
ghost use Rattle.ftp_base.specs.Ports.{first_free};
ghost use Rattle.ftp_options.specs.Host.{lacks_lookup};
ghost use Rattle.ftp_options.specs.Modes.{is_legacy};
ghost use Rattle.ftp_switchboard.specs.Board.{HasRoom, SameRange, holder_at, holder_for, words_for};
ghost use Rattle.ftp_events.specs.declared.decision.Decision.TheVariants as decision;
ghost use Rattle.ftp_events.specs.declared.session.Running.{Running};
ghost use Rattle.ftp_events.specs.declared.event.Answer.{Answer};
ghost use Rattle.ftp_events.specs.Advertised.{lacks_address};
ghost use Rattle.ftp_events.specs.CommandRows.{if_logged_in, bound_row, grant_row, pasv_row};
ghost use Rattle.ftp_events.specs.Modes.{in_range};
ghost use Rattle.ftp_events.specs.Reply.{lookup_of, passive_reply, unshown};
ghost use Rattle.ftp_events.specs.Slot.{waiting_port};
ghost use Rattle.ftp_events.specs.Session.{session_after};
ghost use Rattle.ftp_events.specs.Acts.{reply_acts, session_acts};
ghost use Rattle.ftp_handlers.specs.Rooms.{IsReady, CanReply, HasPlace, actions_in, twice_in};
ghost use Rattle.ftp_handlers.specs.Handlers.{is_pasv, goes_on, number_of, notices_of, word_of, bound_of, held_for, held_after, held_with, passive_width, width_for, FitsLookup, HasRange, HasRoomFor};

use crate::login::ask_for_login;
use crate::room::Room;
use crate::transfer::NO_CONNECTION;
use ftp_base::{IpAddr, ReplyCode};
use ftp_events::{Decision, EventKind, Login, Session, Slot};
use ftp_options::{Options, PassiveHost};
use ftp_switchboard::{Looks, Switchboard};
use std::mem;

/// Reserves a passive port for the session's client, or takes the one that was bound for the session alone, and
/// advertises it.
///
/// The looks are those of the reservation.
///
/// # Proved
///
/// - A PASV looks at words and pairs no more often than one reservation may, if the same; the count has room for 1,059
///   more (`looks`).
pub fn handle(
    session: &mut Session,
    args: &EventKind,
    board: &mut Switchboard,
    room: &mut Room,
    at: u64,
    options: &Options,
    looks: &mut Looks,
) -> Decision
    requires of_this_event { IsTrue (is_pasv args.now) }
    requires room { IsReady room.old }
    requires letters { CanReply (width_for options.now args.now) room.old }
    requires range { is_legacy options.now.mode ≡ false → HasRange board.old options.now }
    requires board_room { is_legacy options.now.mode ≡ false → HasRoomFor board.old session.old }
    requires looks { looks.old ≤ u64.MAX - 1059 }
    ensures goes_on { IsTrue (goes_on result) }
    ensures decision { result ≡ if_logged_in session.old (pasv_row options.now (held_for board.old session.old) (word_of args.now) (lookup_of args.now) (bound_of args.now) session.old) }
    ensures session { (answer : Answer) (job : Option Running) → session.new ≡ session_after at args.now answer result (notices_of args.now result answer) job session.old }
    ensures actions { (answer : Answer) (job : Option Running) → actions_in room.new ≡ session_acts options.now (number_of args.now) args.now answer result job (Some session.old) }
    ensures holders { is_legacy options.now.mode ≡ false → (a p : ℕ) → holder_at board.new a p ≡ held_after result (number_of args.now) (ipv4 session.old.opening.client) (waiting_port session.old.slot) a p (holder_at board.old a p) }
    ensures alone { is_legacy options.now.mode ≡ true → board.new ≡ board.old }
    ensures looks { (looks.old ≤ looks.new) × (looks.new ≤ looks.old + (words_for board.old.lo board.old.hi + 35)) }
    ensures range { SameRange board.old board.new }
    ensures twice { twice_in room.new ≡ twice_in room.old }
{
    let EventKind::Pasv {
        session: number,
        word,
        lookup,
        bound,
    } = args
    else {
        unreachable!()
    };
    if !matches!(session.login, Login::LoggedIn) {
        session.active_at = at;
        return ask_for_login(*number, room);
    }
    if options.active_passive.is_passive_off() {
        session.active_at = at;
        room.reply(
            *number,
            ReplyCode::CommandNotImplemented,
            b"Passive mode is switched off",
        );
        return Decision::ModeOff;
    }
    if options.mode.is_legacy() {
        let decision = weigh_bound(session, *lookup, *bound, options);
        tell(session, args, decision, room, at, options);
        return decision;
    }
    let decision = take_free(session, *number, *word, *lookup, board, options, looks);
    tell(session, args, decision, room, at, options);
    decision
}

// Decides on the port that was bound for the session alone.
fn weigh_bound(
    session: &Session,
    lookup: Option<u32>,
    bound: Option<u16>,
    options: &Options,
) -> Decision
    ensures goes_on { IsTrue (goes_on result) }
    ensures decision { result ≡ bound_row options.now session.now lookup bound }
    ensures fits { FitsLookup options.now.host lookup result }
{
    let Some(port) = bound else {
        return Decision::NoSocket;
    };
    if is_unfit(options, port, session.opening.local.ip) {
        return Decision::NoSocket;
    }
    if options.host.lacks_lookup(lookup) {
        return Decision::NoLookup;
    }
    Decision::Granted { port }
}

// Takes the first port that is free for the client, where there is an address to show with it.
fn take_free(
    session: &Session,
    number: u64,
    word: u16,
    lookup: Option<u32>,
    board: &mut Switchboard,
    options: &Options,
    looks: &mut Looks,
) -> Decision
    requires board_room { HasRoomFor board.old session.now }
    requires looks { looks.old ≤ u64.MAX - 1059 }
    ensures goes_on { IsTrue (goes_on result) }
    ensures decision { result ≡ option_map_or (grant_row options.now.host lookup) (first_free (held_for board.old session.now) board.old.lo board.old.hi word) decision.Full }
    ensures fits { FitsLookup options.now.host lookup result }
    ensures holders { (a p : ℕ) → holder_at board.new a p ≡ held_after result number (ipv4 session.now.opening.client) (waiting_port session.now.slot) a p (holder_at board.old a p) }
    ensures looks { (looks.old ≤ looks.new) × (looks.new ≤ looks.old + (words_for board.old.lo board.old.hi + 35)) }
    ensures range { SameRange board.old board.new }
{
    let client = session.opening.client.ipv4();
    if options.host.lacks_lookup(lookup) {
        return match board.free_port(client, word, looks) {
            None => Decision::Full,
            Some(_) => Decision::NoLookup,
        };
    }
    let present = waiting_port(session.slot);
    match reserve(board, client, number, word, present, looks) {
        None => Decision::Full,
        Some(port) => Decision::Granted { port },
    }
}

// Gives the session the first port that is free for its client, in place of its present one. A client of version 6
// holds nothing.
fn reserve(
    board: &mut Switchboard,
    client: Option<u32>,
    number: u64,
    word: u16,
    present: Option<u16>,
    looks: &mut Looks,
) -> Option<u16>
    requires room { IfSome client (HasRoom board.old) }
    requires looks { looks.old ≤ u64.MAX - 1059 }
    ensures found { result ≡ first_free (holder_for board.old client) board.old.lo board.old.hi word }
    ensures holders { IfSome result (λ port. (a p : ℕ) → holder_at board.new a p ≡ held_with port number client present a p (holder_at board.old a p)) }
    ensures unchanged { IfNone result (board.new ≡ board.old) }
    ensures looks { (looks.old ≤ looks.new) × (looks.new ≤ looks.old + (words_for board.old.lo board.old.hi + 35)) }
    ensures range { SameRange board.old board.new }
{
    let Some(source) = client else {
        return board.free_port(None, word, looks);
    };
    match board.reserve(source, number, word, present, looks) {
        Ok(port) => Some(port),
        Err(_) => None,
    }
}

// Tells the client what was decided. With a port that is granted the slot waits for a connection to it.
fn tell(
    session: &mut Session,
    args: &EventKind,
    decision: Decision,
    room: &mut Room,
    at: u64,
    options: &Options,
)
    requires of_this_event { IsTrue (is_pasv args.now) }
    requires fits { FitsLookup options.now.host (lookup_of args.now) decision }
    requires room { IsReady room.old }
    requires letters { CanReply (width_for options.now args.now) room.old }
    ensures session { (answer : Answer) (job : Option Running) → session.new ≡ session_after at args.now answer decision (notices_of args.now decision answer) job session.old }
    ensures actions { (answer : Answer) (job : Option Running) → actions_in room.new ≡ session_acts options.now (number_of args.now) args.now answer decision job (Some session.old) }
    ensures twice { twice_in room.new ≡ twice_in room.old }
{
    let EventKind::Pasv {
        session: number,
        lookup,
        ..
    } = args
    else {
        unreachable!()
    };
    session.active_at = at;
    match decision {
        Decision::Granted { port } => {
            room.cancel_and_tell(*number, mem::replace(&mut session.pending, None));
            room.close_link(session.slot);
            let called = session.opening.local.ip;
            tell_passive(*number, &options.host, called, *lookup, port, room);
            session.slot = Slot::Waits { port };
            session.slot_at = at;
        }
        Decision::NoLookup => tell_unresolved(*number, &options.host, *lookup, room),
        Decision::Full => {
            room.reply(
                *number,
                ReplyCode::CantOpenDataConnection,
                b"Could not allocate passive port",
            );
        }
        Decision::NoSocket => {
            room.reply(*number, ReplyCode::CantOpenDataConnection, NO_CONNECTION);
        }
        _ => unreachable!(),
    }
}

// Tells the client where to connect to, where there is an address to show.
fn tell_passive(
    number: u64,
    host: &PassiveHost,
    called: IpAddr,
    lookup: Option<u32>,
    port: u16,
    room: &mut Room,
)
    requires looked_up { lacks_lookup host.now lookup ≡ false }
    requires place { HasPlace room.old }
    requires empty { room.old.text.items ≡ [] }
    requires letters { CanReply (passive_width host.now lookup) room.old }
    ensures actions { actions_in room.new ≡ actions_in room.old ++ reply_acts number 0 (passive_reply host.now called lookup port) }
    ensures same { room.new ≡ record room.old { actions = room.new.actions; text = room.new.text } }
{
    match (host, called, lookup) {
        (PassiveHost::FromConnection, IpAddr::V4(ip), _) => room.advertise(number, ip, port),
        (PassiveHost::FromConnection, IpAddr::V6(_), _) => {
            room.reply(number, ReplyCode::CantOpenDataConnection, NO_CONNECTION);
        }
        (PassiveHost::Ip(ip), _, _) => room.advertise(number, *ip, port),
        (PassiveHost::Dns(_), _, Some(ip)) => room.advertise(number, ip, port),
        (PassiveHost::Dns(_), _, None) => unreachable!(),
    }
}

// Tells the client that the name that it has to be shown was not looked up.
fn tell_unresolved(number: u64, host: &PassiveHost, lookup: Option<u32>, room: &mut Room)
    requires unknown { IsTrue (lacks_lookup host.now lookup) }
    requires room { IsReady room.old }
    requires letters { CanReply (passive_width host.now lookup) room.old }
    ensures actions { actions_in room.new ≡ reply_acts number 0 (unshown host.now) }
    ensures twice { twice_in room.new ≡ twice_in room.old }
{
    match (host, lookup) {
        (PassiveHost::Dns(name), None) => room.tell_unresolved(number, name.as_slice()),
        _ => unreachable!(),
    }
}

// Says whether a port is none of the passive ones, or its client cannot be shown the address that it called.
fn is_unfit(options: &Options, port: u16, called: IpAddr) -> bool
    ensures { result ≡ (not (in_range options.now port) || lacks_address options.now.host called) }
{
    let is_outside = port < options.lo || port > options.hi;
    is_outside || matches!(options.host, PassiveHost::FromConnection) && called.is_v6()
}

/// The port that the slot waits for.
pub(crate) fn waiting_port(slot: Slot) -> Option<u16>
    ensures { result ≡ waiting_port slot }
{
    match slot {
        Slot::Waits { port } => Some(port),
        Slot::Empty | Slot::Linked { .. } => None,
    }
}
