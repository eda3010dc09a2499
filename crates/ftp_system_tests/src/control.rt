//! Control connections over sockets.

use crate::loopback::{is_at_end, now, pair, receive, send, since};
use crate::same::same;
use ftp_base::{Control, Failed, Link, LinkFault, Source};
use ftp_system::{ControlHandle, SocketControl};
use std::alloc::Global;
use std::net::{Net, Shutdown, TcpListener, TcpStream};
use std::process::Abort;
use std::thread;
use std::time::{Clock, Duration};

/// Longer than any test takes, in milliseconds.
const LONG: u64 = 50_000;

/// Both ends of a control connection, whose server waits at most so many milliseconds for the rest of a line.
fn controlled<R: Net<Listener = TcpListener, Stream = TcpStream> + Abort>(
    rt: &R,
    alloc: Global,
    patience: u64,
) -> (TcpStream, SocketControl) {
    let (client, server) = pair(rt);
    let control = SocketControl::new(rt, alloc, server, patience, LONG);
    (client, control.expect(rt, "a control connection"))
}

#[test]
fn a_wait_ends_by_its_time(rt: HostRuntime) {
    let (client, mut control) = controlled(&rt, rt.alloc(), 0);
    let begun = now(&rt);
    same(&rt, &control.ready(100), &Ok(false));
    same(&rt, &(since(&rt, begun) >= 100), &true);
    control.set_patience(100);
    let begun = now(&rt);
    same(&rt, &control.ready(0), &Ok(false));
    same(&rt, &(since(&rt, begun) >= 100), &true);
    drop(client);
}

#[test]
fn a_line_and_its_reply_go_at_once(rt: HostRuntime) {
    let (client, mut control) = controlled(&rt, rt.alloc(), LONG);
    let begun = now(&rt);
    let mut line = [0; 6];
    send(&rt, &client, b"NOOP\r\n");
    same(
        &rt,
        &(control.ready(LONG), control.read(&mut line), &line),
        &(Ok(true), Ok(6), b"NOOP\r\n"),
    );
    same(&rt, &control.write(b"200 OK"), &Ok(6));
    receive(&rt, &client, &mut line);
    same(&rt, &line, b"200 OK");
    drop(client);
    same(
        &rt,
        &(control.ready(LONG), control.read(&mut line)),
        &(Ok(true), Ok(0)),
    );
    same(&rt, &(since(&rt, begun) < LONG as u128), &true);
}

/// Wakes the control connection after so many milliseconds.
fn wake_later<C: Clock>(clock: &C, handle: &ControlHandle, millis: u64) {
    thread::sleep(clock, Duration::from_millis(millis));
    handle.wake();
}

#[test]
fn another_thread_ends_a_wait(rt: HostRuntime) {
    let (client, mut control) = controlled(&rt, rt.alloc(), 0);
    let handle = control.handle().expect(&rt, "a handle");
    let begun = now(&rt);
    let (_, waited) = thread::join(&rt, || wake_later(&rt, &handle, 50), || control.ready(LONG));
    same(&rt, &waited, &Ok(false));
    // A wake ends one wait, also where it came before that.
    handle.try_clone().expect(&rt, "a copy").wake();
    same(&rt, &control.ready(LONG), &Ok(false));
    same(&rt, &(since(&rt, begun) < LONG as u128), &true);
    let begun = now(&rt);
    same(&rt, &control.ready(100), &Ok(false));
    same(&rt, &(since(&rt, begun) >= 100), &true);
    drop(client);
}

#[test]
fn another_thread_ends_a_connection(rt: HostRuntime) {
    let (client, mut control) = controlled(&rt, rt.alloc(), 0);
    control.handle().expect(&rt, "a handle").shut_down();
    same(
        &rt,
        &(control.ready(LONG), control.read(&mut [0; 4])),
        &(Ok(true), Ok(0)),
    );
    same(&rt, &control.write(b"x"), &Err(Failed::Fault));
    same(&rt, &control.last_fault(), &Some(LinkFault::BrokenPipe));
    same(&rt, &is_at_end(&rt, &client), &true);
}

#[test]
fn telnet_commands_are_no_text(rt: HostRuntime) {
    let (client, mut control) = controlled(&rt, rt.alloc(), 0);
    let begun = now(&rt);
    // A command by itself (RFC 854: IAC NOP) ends a wait, and nothing is to be read.
    send(&rt, &client, &[255, 241]);
    same(&rt, &control.ready(LONG), &Ok(false));
    // IAC IP, IAC DM before the line, and in it IAC DO 6 and two bytes 255 for one.
    send(
        &rt,
        &client,
        b"\xff\xf4\xff\xf2AB\xff\xfd\x06OR\xff\xff\r\n",
    );
    let mut line = [0; 16];
    same(
        &rt,
        &(control.ready(LONG), control.read(&mut line)),
        &(Ok(true), Ok(7)),
    );
    same(&rt, &&line[..7], &b"ABOR\xff\r\n".as_slice());
    drop(client);
    same(
        &rt,
        &(control.ready(LONG), control.read(&mut line)),
        &(Ok(true), Ok(0)),
    );
    same(&rt, &(since(&rt, begun) < LONG as u128), &true);
}

#[test]
fn a_close_leaves_what_was_sent(rt: HostRuntime) {
    let (client, mut control) = controlled(&rt, rt.alloc(), 0);
    send(&rt, &client, &[b'x'; 4096]);
    client.shutdown(Shutdown::Write).expect(&rt, "an end");
    same(&rt, &control.write(b"221 Bye"), &Ok(7));
    same(&rt, &control.close(), &Ok(()));
    drop(control);
    let mut reply = [0; 7];
    receive(&rt, &client, &mut reply);
    same(&rt, &reply, b"221 Bye");
    same(&rt, &is_at_end(&rt, &client), &true);
}

#[test]
fn a_reset_is_a_fault_of_the_wait(rt: HostRuntime) {
    let (client, mut control) = controlled(&rt, rt.alloc(), 0);
    same(&rt, &control.write(b"220 Hello"), &Ok(9));
    // What it has not read makes its end a reset.
    drop(client);
    same(&rt, &control.ready(LONG), &Err(Failed::Fault));
}
