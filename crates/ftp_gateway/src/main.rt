//! A gateway: serves the files of real directories to the users of a file.
//!
//! `ftp_gateway serve FILE` serves as the configuration file says, until `ftp_gateway stop SOCKET` tells it to stop. `ftp_gateway reload
//! SOCKET` has it read its users anew, and `ftp_gateway status SOCKET` tells what it does. `ftp_gateway check FILE` reads the
//! configuration and the users, and says what is wrong with them. `ftp_gateway mkpasswd` reads a password from standard input and
//! writes its hash. It ends with 0, with 1 and a line of why, and with 64 where the words are no command.
#![tactic(auto)]

mod activity;
mod asking;
mod budgets;
mod command;
mod control_socket;
mod current_users;
mod duties;
mod homes;
mod log_file;
mod metrics_file;
mod password_check;
mod passwords;
mod recording;
mod records;
mod refusal;
mod request;
mod serving;
mod settings;
mod setup;
mod user_table;
mod words;

use command::Command;
use ftp_listen::{Parts, Server};
use recording::record;
use refusal::{Refusal, tell};
use serving::{CHECKPOINT_EVERY, Gateway, GatewayRuntime};
use setup::read_setup;
use std::net::{Net, TcpListener, TcpStream};
use std::process::ExitCode;
use std::random::RandomSource;
use std::rt::{Env, Files};
use std::sync::Arc;
use std::{env, thread};

const HELP: &str = "\
Usage: ftp_gateway serve FILE | check FILE | stop SOCKET | reload SOCKET | status SOCKET | mkpasswd
Serves the files of real directories to the users of a file.
serve FILE serves as the configuration file says.
check FILE says what is wrong with the configuration file or with its users.
stop SOCKET tells the gateway at a control socket to stop, and waits for its end.
reload SOCKET has it read its file of users anew.
status SOCKET tells what it does.
mkpasswd reads a password from standard input and writes its hash.
";

const VERSION: &str = "ftp_gateway 0.1.0\n";

// The status of what was done, of which is told why it was not.
fn ended<R: Print + AllocGlobal>(rt: &R, done: Result<(), Refusal>) -> ExitCode {
    match done {
        Ok(()) => ExitCode::SUCCESS,
        Err(refusal) => {
            let _ = tell(rt, &refusal);
            ExitCode::from(1)
        }
    }
}

// Does what a command asks for that does not serve.
fn run<R: Files + Input + Net + Print + RandomSource + AllocGlobal>(
    rt: &R,
    command: Command,
    file: &str,
) -> ExitCode {
    let done = match command {
        Command::Serve | Command::Check => {
            let read = read_setup(rt, file).map(drop);
            return ended(rt, read);
        }
        Command::Ask(request) => asking::ask(rt, file, request),
        Command::MakePassword => passwords::make(rt).map(|()| true),
        Command::Help => print!(rt; "{HELP}").map(|()| true),
        Command::Version => print!(rt; "{VERSION}").map(|()| true),
    };
    match done {
        Ok(true) => ExitCode::SUCCESS,
        Ok(false) | Err(_) => ExitCode::from(1),
    }
}

// What the words behind the program's name ask for, with the file that is the second of them, or the status where they are no
// command.
fn asked<R: Env + AllocGlobal>(rt: &R) -> Result<(Command, String), u8> {
    let alloc = rt.alloc();
    let Ok(words) = env::args(rt) else {
        return Err(1);
    };
    let Ok(words) = words.skip(1).collect::<Vec<String>>(alloc) else {
        return Err(1);
    };
    let Some(command) = Command::of(words.as_slice()) else {
        return Err(64);
    };
    let file = match words.as_slice() {
        [_, file] => file.as_str(),
        _ => "",
    };
    match String::from_str(alloc, file) {
        Ok(file) => Ok((command, file)),
        Err(_) => Err(1),
    }
}

// The gateway that the words behind the program's name ask to serve. Any other command is done, and has the status with which it ends.
fn gateway<R: GatewayRuntime + Env + Input + Print>(rt: &R) -> Result<Gateway<R>, ExitCode> {
    let (command, file) = match asked(rt) {
        Ok(asked) => asked,
        Err(status) => return Err(ExitCode::from(status)),
    };
    if command != Command::Serve {
        return Err(run(rt, command, file.as_str()));
    }
    match serving::prepare(rt, file.as_str()) {
        Ok(gateway) => Ok(gateway),
        Err(refusal) => Err(ended(rt, Err(refusal))),
    }
}

// It names sockets, as the check looks for the types of a bound among those of the function.
fn main(rt: HostRuntime) -> ExitCode {
    let types: Option<(TcpListener, TcpStream)> = None;
    drop(types);
    let gateway = match gateway(&rt) {
        Ok(gateway) => gateway,
        Err(status) => return status,
    };
    let (Ok(check), Ok(transfers), Ok(logins), Ok(control), Ok(journal)) = (
        Box::new(rt.alloc(), gateway.check),
        Box::new(rt.alloc(), gateway.transfers),
        Box::new(rt.alloc(), gateway.logins),
        Box::new(rt.alloc(), gateway.control),
        Arc::try_clone(&gateway.feed),
    ) else {
        return ended(&rt, Err(Refusal::OutOfMemory));
    };
    let parts = Parts {
        authenticator: check,
        data_listener: transfers,
        presence_listener: logins,
        indicator: control,
        storage: gateway.depot,
    };
    let plan = gateway.plan;
    let (records, feed) = (&gateway.records, &gateway.feed);
    let mut server = Server::over(rt.alloc(), plan.options, parts);
    server.most_sessions(plan.limits.all);
    server.most_sessions_of_one(plan.limits.of_one);
    server.checkpoint_every(CHECKPOINT_EVERY);
    server.run_small_downloads();
    if !records.is_empty() {
        server.feed_journal(journal);
    }
    let ((), served) = thread::join(
        &rt,
        || record(&rt, feed, records),
        || {
            let types: Option<(TcpListener, TcpStream)> = None;
            drop(types);
            let served = server.listen_over(&rt, plan.address.as_slice());
            feed.close(&rt);
            served
        },
    );
    ended(&rt, records.end(served))
}
