//! What two clients do at a server, step by step.

use crate::client::{Client, Met};
use crate::doubles::{Board, Sign};
use crate::place::Place;
use std::alloc::Global;
use std::net::{Net, TcpStream};
use std::sync::atomic::Ordering;
use std::thread;
use std::time::{Clock, Duration};

/// How often it is looked whether something has come to be, and how long it is waited in between, in milliseconds.
const LOOKS: u32 = 2000;

const PAUSE: u64 = 10;

/// What a client does. Lines and replies have their ends.
#[derive(Clone, Copy)]
pub enum Step {
    /// Connects, sends what a proxy sends ahead, and is told this first.
    Come(&'static [u8], &'static str),
    /// Connects, sends what a proxy sends ahead, and logs in.
    Enter(&'static [u8]),
    LogIn,
    Ask(&'static str, &'static str),
    /// Asks, and is not answered before so many milliseconds have gone by.
    AskSlow(&'static str, &'static str, u128),
    /// Asks, and leaves the reply where it is.
    AskInVain(&'static str),
    /// Asks for the passive port.
    Pasv,
    /// Is told this, or nothing more where it is empty.
    Hear(&'static str),
    /// Makes a data connection, and sends what a proxy sends ahead.
    Connect(&'static [u8]),
    /// Asks for the passive port, connects so, and asks this.
    Begin(&'static [u8], &'static str, &'static str),
    /// Sends this on the data connection, and closes it.
    Send(&'static [u8]),
    /// Is sent this on the data connection, to its end.
    Fetch(&'static [u8]),
    /// Downloads by this line, and this is sent.
    Get(&'static [u8], &'static str, &'static [u8]),
    /// Closes its connections.
    Leave,
    /// Leaves as is due.
    Quit,
}

/// What happens at a server.
#[derive(Clone, Copy)]
pub enum Act {
    /// The first client does this.
    One(Step),
    /// The second client does this.
    Two(Step),
    /// A count reaches the first number, and is not above the second then.
    Reach(Sign, u64, u64),
    /// The server is asked to shut down.
    Stop,
    /// The gate is opened.
    Open,
    /// The front's clock goes forward by so many milliseconds, and polls are counted anew.
    Leap(u64),
}

/// Acts, and how often they are tried while another line comes than is due.
pub type Phase<'a> = (u32, &'a [Act]);

/// The clients that are there.
#[derive(Drop)]
struct Guests {
    one: Option<Client>,
    two: Option<Client>,
}

/// Asks for the passive port, connects, sends what a proxy sends ahead, and asks this.
fn begin<R: Net<Stream = TcpStream> + Clock>(
    rt: &R,
    alloc: Global,
    place: Place,
    client: &mut Client,
    header: &[u8],
    line: &str,
    reply: &str,
) -> Result<(), Met> {
    client.ask("PASV\r\n", place.entering(alloc)?.as_str())?;
    client.connect(rt, place.passive(), header)?;
    client.ask(line, reply)
}

/// A client takes a step.
fn take<R: Net<Stream = TcpStream> + Clock>(
    rt: &R,
    alloc: Global,
    place: Place,
    guest: &mut Option<Client>,
    step: Step,
) -> Result<(), Met> {
    match step {
        Step::Come(header, first) => {
            *guest = Some(Client::told(rt, alloc, place.door(), header, first)?);
            return Ok(());
        }
        Step::Enter(header) => {
            *guest = Some(Client::entered(rt, alloc, place.door(), header)?);
            return Ok(());
        }
        Step::Leave => {
            *guest = None;
            return Ok(());
        }
        _ => {}
    }
    let Some(client) = guest else {
        return Err(Met::Nobody);
    };
    match step {
        Step::LogIn => client.log_in(),
        Step::Ask(line, reply) => client.ask(line, reply),
        Step::AskSlow(line, reply, least) => client.ask_slow(rt, line, reply, least),
        Step::AskInVain(line) => client.ask_in_vain(line),
        Step::Pasv => client.ask("PASV\r\n", place.entering(alloc)?.as_str()),
        Step::Hear(line) => client.hear(line),
        Step::Connect(header) => client.connect(rt, place.passive(), header),
        Step::Begin(header, line, reply) => begin(rt, alloc, place, client, header, line, reply),
        Step::Get(header, line, bytes) => {
            begin(
                rt,
                alloc,
                place,
                client,
                header,
                line,
                "150 Sending data\r\n",
            )?;
            client.fetch(bytes)?;
            client.hear("226 Successfully sent\r\n")
        }
        Step::Quit => {
            client.ask("QUIT\r\n", "221 Bye!\r\n")?;
            client.hear("")
        }
        Step::Send(bytes) => client.send(bytes),
        Step::Fetch(bytes) => client.fetch(bytes),
        Step::Come(..) | Step::Enter(_) | Step::Leave => Ok(()),
    }
}

/// Waits until a count is no longer below `least`; it has to be at most `most` then.
fn reach<C: Clock>(clock: &C, board: &Board, sign: Sign, least: u64, most: u64) -> Result<(), Met> {
    for _ in 0..LOOKS {
        if board.count(sign).load(Ordering::SeqCst) >= least {
            break;
        }
        thread::sleep(clock, Duration::from_millis(PAUSE));
    }
    let count = board.count(sign).load(Ordering::SeqCst);
    if least <= count && count <= most {
        Ok(())
    } else {
        Err(Met::OtherCount)
    }
}

/// The acts, one after the other, up to the first that goes otherwise.
fn play<R: Net<Stream = TcpStream> + Clock>(
    rt: &R,
    alloc: Global,
    place: Place,
    board: &Board,
    guests: &mut Guests,
    acts: &[Act],
) -> Result<(), Met> {
    for act in acts {
        match *act {
            Act::One(step) => take(rt, alloc, place, &mut guests.one, step)?,
            Act::Two(step) => take(rt, alloc, place, &mut guests.two, step)?,
            Act::Reach(sign, least, most) => reach(rt, board, sign, least, most)?,
            Act::Stop => board.asks.store(true, Ordering::SeqCst),
            Act::Open => board.is_open.store(true, Ordering::SeqCst),
            Act::Leap(millis) => board.go_forward(millis),
        }
    }
    Ok(())
}

/// The phases of a visit, after which the server is asked to shut down.
pub fn pay<R: Net<Stream = TcpStream> + Clock>(
    rt: &R,
    alloc: Global,
    place: Place,
    board: &Board,
    visit: &[Phase<'_>],
) -> Result<(), Met> {
    let mut guests = Guests {
        one: None,
        two: None,
    };
    let mut met = Ok(());
    for (tries, acts) in visit {
        for _ in 0..*tries {
            met = play(rt, alloc, place, board, &mut guests, acts);
            if !matches!(&met, Err(Met::Other(_))) {
                break;
            }
            thread::sleep(rt, Duration::from_millis(PAUSE));
        }
        if met.is_err() {
            break;
        }
    }
    board.asks.store(true, Ordering::SeqCst);
    met
}
