//! What a builder that is refused prints, and the values that are set on one.

use crate::same::{same, shows};
use ftp_base::{Bytes, Reply};
use ftp_options::{
    ConfigFault, FailedLoginsBlock, FailedLoginsPolicy, FtpsClientAuth, FtpsRequired, PassiveHost,
    ServerBuilder, ServerError, Shutdown, SiteCommandContext, SiteCommandHandler, TlsFlags,
};
use std::alloc::{AllocError, Global};
use std::process::Abort;

/// Answers nothing.
#[derive(Drop)]
struct Silent;

impl SiteCommandHandler for Silent {
    fn handle(&self, _context: &SiteCommandContext) -> Reply {
        Reply::None
    }
}

/// A builder on which these names were registered in turn.
fn builder(
    alloc: Global,
    names: &[&[u8]],
    has_provider: bool,
) -> Result<ServerBuilder, AllocError> {
    let mut builder: ServerBuilder = ServerBuilder::new(alloc);
    builder.passive_ports(5, 4);
    for name in names {
        builder.site_command(name, Box::new(alloc, Silent)?)?;
    }
    if has_provider {
        builder.user_detail_provider();
    }
    Ok(builder)
}

/// Why a builder is refused.
fn refusal(rt: &impl Abort, builder: ServerBuilder) -> ServerError {
    match builder.build() {
        Ok(_) => panic!(rt; "a server"),
        Err(e) => e,
    }
}

const REFUSALS: [(&[&[u8]], bool, &str); 7] = [
    (
        &[b"echo", b"ECHO", b"two words"],
        true,
        "server error: Cannot register SITE command ECHO more than once",
    ),
    (
        &[b"two words", b"MD5"],
        false,
        "server error: Invalid SITE command name: \"two words\"",
    ),
    (
        &[b"a\\\x00\xff~"],
        false,
        "server error: Invalid SITE command name: \"a\\x5c\\x00\\xff~\"",
    ),
    (
        &[b""],
        false,
        "server error: Invalid SITE command name: \"\"",
    ),
    (
        &[b"mD5", b"mD5"],
        false,
        "server error: Cannot replace built-in SITE command MD5",
    ),
    (
        &[b"echo"],
        true,
        "server error: user_detail_provider() must be called before any site_command() registrations",
    ),
    (&[b"echo"], false, "server error: empty passive port range"),
];

#[test]
fn the_first_fault_of_the_registrations_is_told(rt: HostRuntime) {
    for (names, has_provider, text) in &REFUSALS {
        let builder = builder(rt.alloc(), names, *has_provider).expect(&rt, "a builder");
        shows(&rt, rt.alloc(), &refusal(&rt, builder), text);
    }
}

const ERRORS: [(ServerError, &str); 10] = [
    (
        ServerError::Configuration(ConfigFault::Md5),
        "server error: Cannot replace built-in SITE command MD5",
    ),
    (
        ServerError::EmptyRange,
        "server error: empty passive port range",
    ),
    (ServerError::PortZero, "server error: passive port 0"),
    (
        ServerError::Ipv6OutsideLegacy,
        "server error: IPv6 outside legacy mode",
    ),
    (
        ServerError::FtpsRequired,
        "server error: FTPS is not available",
    ),
    (
        ServerError::Address,
        "server error: could not parse address",
    ),
    (ServerError::Io, "server error: io error"),
    (ServerError::Listener, "server error: listener error"),
    (
        ServerError::Shutdown,
        "server error: shutdown grace period expired",
    ),
    (ServerError::OutOfMemory, "server error: out of memory"),
];

#[test]
fn errors_of_a_server_are_printed(rt: HostRuntime) {
    for (error, text) in &ERRORS {
        shows(&rt, rt.alloc(), error, text);
    }
}

#[test]
fn requirements_of_ftps_are_printed(rt: HostRuntime) {
    let alloc = rt.alloc();
    shows(
        &rt,
        alloc,
        &FtpsRequired::from_bool(true),
        "All users, including anonymous, requires FTPS",
    );
    shows(
        &rt,
        alloc,
        &FtpsRequired::Accounts,
        "All non-anonymous users requires FTPS",
    );
    shows(
        &rt,
        alloc,
        &FtpsRequired::from_bool(false),
        "FTPS not enforced",
    );
}

/// Says whether a text is a name as it stands, for which a server needs a lookup.
fn is_name(alloc: Global, text: &[u8]) -> Result<bool, AllocError> {
    let host = PassiveHost::parse(Bytes::from_slice(alloc, text)?);
    let needs_lookup = host.lacks_lookup(None) && !host.lacks_lookup(Some(1));
    let name = PassiveHost::Dns(Bytes::from_slice(alloc, text)?);
    Ok(needs_lookup && host == name)
}

const NAMES: [&[u8]; 6] = [
    b"10.0.0.256",
    b"010.0.0.1",
    b"1.2.3",
    b"1.2.3.4 ",
    b"localhost",
    b"",
];

#[test]
fn what_is_no_dotted_address_is_a_name(rt: HostRuntime) {
    for name in &NAMES {
        same(&rt, &(*name, is_name(rt.alloc(), name)), &(*name, Ok(true)));
    }
}

#[test]
fn a_dotted_address_needs_no_lookup(rt: HostRuntime) {
    let text = Bytes::from_slice(rt.alloc(), b"10.0.0.9").expect(&rt, "a text");
    let address = PassiveHost::parse(text);
    same(&rt, &address, &PassiveHost::Ip(0x0a00_0009));
    same(&rt, &address.lacks_lookup(None), &false);
}

#[test]
fn values_have_their_defaults(rt: HostRuntime) {
    let auths = [
        FtpsClientAuth::default(),
        FtpsClientAuth::from_bool(true),
        FtpsClientAuth::from_bool(false),
    ];
    same(
        &rt,
        &auths,
        &[
            FtpsClientAuth::Off,
            FtpsClientAuth::Require,
            FtpsClientAuth::Off,
        ],
    );
    let resumed = TlsFlags::RESUMPTION_SESS_ID | TlsFlags::RESUMPTION_TICKETS;
    let flags = [TlsFlags::V1_2 | TlsFlags::V1_3, TlsFlags::V1_2 | resumed];
    same(
        &rt,
        &flags,
        &[TlsFlags::LATEST_VERSIONS, TlsFlags::default()],
    );
    let waits = Shutdown::new();
    let grace = (waits.grace_ms, waits.grace_period(7).grace_ms);
    same(&rt, &grace, &(10_000, 7));
    let policy = FailedLoginsPolicy::new(3, 120_000, FailedLoginsBlock::UserAndIP);
    same(&rt, &FailedLoginsPolicy::default(), &policy);
}
