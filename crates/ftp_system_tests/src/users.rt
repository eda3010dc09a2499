//! Users of a file.

use crate::same::same;
use ftp_base::{AuthAnswer, Authenticator, Bytes, IpAddr};
use ftp_config::{Rights, Users, UsersError};
use std::alloc::Global;
use std::process::Abort;

// The keys of ann and bob are OpenSSL's for the password `password` and the salt `salt`, in one round and in two.
const FILE: &[u8] = b"# NAME:HASH:RIGHTS:HOME[:BUDGET]\n\
    ann:$pbkdf2-sha256$1$73616c74$120fb6cffcf8b32c43e7225256c4f837a86548c92ccc35480805987cb70be17b:rw:/srv/ann:10G\n\
    \n\
    bob:$pbkdf2-sha256$2$73616C74$AE4D0C95AF6B46D32D0ADFF928F06DD02A303F8EF3C251DFD6E2D85A95474C43:ro:/srv/pub\n\
    anonymous:*:ro:/srv/pub:0\n\
    eve:!:rw:/srv/eve e:640K\n";

fn check<R: Abort, A: Authenticator>(
    rt: &R,
    alloc: Global,
    who: &A,
    name: &[u8],
    password: &[u8],
) -> AuthAnswer {
    let name = Bytes::from_slice(alloc, name).expect(rt, "a name");
    let password = Bytes::from_slice(alloc, password).expect(rt, "a password");
    who.check(&name, &password, IpAddr::V4(0))
}

const LOGINS: [(&[u8], &[u8], AuthAnswer); 9] = [
    (b"ann", b"password", AuthAnswer::Good),
    (b"ann", b"Password", AuthAnswer::Refused),
    (b"ann", b"", AuthAnswer::Refused),
    (b"bob", b"password", AuthAnswer::Good),
    (b"bob", b"passwor", AuthAnswer::Refused),
    (b"anonymous", b"me@example.org", AuthAnswer::Good),
    (b"eve", b"password", AuthAnswer::Disabled),
    (b"Ann", b"password", AuthAnswer::BadUser),
    (b"# NAME", b"password", AuthAnswer::BadUser),
];

#[test]
fn a_user_logs_in_with_its_password(rt: HostRuntime) {
    let users = Users::read(rt.alloc(), FILE).expect(&rt, "users");
    for (name, password, due) in &LOGINS {
        same(&rt, &check(&rt, rt.alloc(), &users, name, password), due);
    }
}

fn has_user(users: &Users, name: &[u8], home: &str, rights: Rights, budget: Option<u64>) -> bool {
    match users.find(name) {
        Some(user) => {
            user.home.as_str() == home && user.rights == rights && user.budget == budget
        }
        None => false,
    }
}

const HOMES: [(&[u8], &str, Rights, Option<u64>); 4] = [
    (b"ann", "/srv/ann", Rights::ReadWrite, Some(10737418240)),
    (b"bob", "/srv/pub", Rights::ReadOnly, None),
    (b"anonymous", "/srv/pub", Rights::ReadOnly, Some(0)),
    (b"eve", "/srv/eve e", Rights::ReadWrite, Some(655360)),
];

#[test]
fn a_user_has_the_home_of_its_line(rt: HostRuntime) {
    let users = Users::read(rt.alloc(), FILE).expect(&rt, "users");
    for (name, home, rights, budget) in &HOMES {
        let has_home = has_user(&users, name, home, *rights, *budget);
        same(&rt, &(*home, has_home), &(*home, true));
    }
}

fn bad_line(alloc: Global, text: &[u8]) -> u64 {
    match Users::read(alloc, text) {
        Err(UsersError::Line(number)) => number,
        _ => 0,
    }
}

/// Files, and the number of the first bad line.
const BAD_LINES: [(&[u8], u64); 29] = [
    // Good files, and notes.
    (b"", 0),
    (b"\n \t\n#\n # ann:*:ro:/\n", 0),
    (b" # ann:*:ro:/\nann", 2),
    (b"ann:*:ro:/", 0),
    (b"ann:*:ro:/\nbob:*:ro:/\n", 0),
    (b"a b:!:rw:/home/a b:18014398509481983K", 0),
    // Too few fields, and too many.
    (b"ann", 1),
    (b"ann:*:ro", 1),
    (b"ann:*:ro:/:1:", 1),
    // NAME
    (b":*:ro:/", 1),
    (b"ann:*:ro:/\n\nann:!:rw:/ann", 3),
    // HASH
    (b"ann::ro:/", 1),
    (b"ann:**:ro:/", 1),
    (b"ann:password:ro:/", 1),
    // RIGHTS
    (b"ann:*::/", 1),
    (b"ann:*:wr:/", 1),
    // HOME
    (b"ann:*:ro:", 1),
    (b"ann:*:ro:srv", 1),
    (b"ann:*:ro:/\r\n", 1),
    (b"ann:*:ro:/\0", 1),
    (b"ann:*:ro:/\xff", 1),
    // BUDGET
    (b"ann:*:ro:/:", 1),
    (b"ann:*:ro:/:K", 1),
    (b"ann:*:ro:/:1k", 1),
    (b"ann:*:ro:/:1T", 1),
    (b"ann:*:ro:/:+1", 1),
    (b"ann:*:ro:/:010", 1),
    (b"ann:*:ro:/:18014398509481984K", 1),
    // The first of two.
    (b"ann:*:ro:/\nbob\ncat\n", 2),
];

#[test]
fn the_first_bad_line_is_named(rt: HostRuntime) {
    for (text, due) in &BAD_LINES {
        same(&rt, &bad_line(rt.alloc(), text), due);
    }
}

const BAD_HASHES: [(&[u8], u64); 7] = [
    (
        b"#\nann:$pbkdf2-sha256$1$00$120fb6cffcf8b32c43e7225256c4f837a86548c92ccc35480805987cb70be17b:ro:/",
        0,
    ),
    (
        b"#\nann:$pbkdf2-sha256$0$00$120fb6cffcf8b32c43e7225256c4f837a86548c92ccc35480805987cb70be17b:ro:/",
        2,
    ),
    (
        b"#\nann:$pbkdf2-sha256$01$00$120fb6cffcf8b32c43e7225256c4f837a86548c92ccc35480805987cb70be17b:ro:/",
        2,
    ),
    (
        b"#\nann:$pbkdf2-sha256$4294967296$00$120fb6cffcf8b32c43e7225256c4f837a86548c92ccc35480805987cb70be17b:ro:/",
        2,
    ),
    (
        b"#\nann:$pbkdf2-sha256$1$0$120fb6cffcf8b32c43e7225256c4f837a86548c92ccc35480805987cb70be17b:ro:/",
        2,
    ),
    (
        b"#\nann:$pbkdf2-sha256$1$00$120fb6cffcf8b32c43e7225256c4f837a86548c92ccc35480805987cb70be1:ro:/",
        2,
    ),
    (
        b"#\nann:$pbkdf2-sha1$1$00$120fb6cffcf8b32c43e7225256c4f837a86548c92ccc35480805987cb70be17b:ro:/",
        2,
    ),
];

#[test]
fn the_line_of_a_bad_hash_is_named(rt: HostRuntime) {
    for (text, due) in &BAD_HASHES {
        same(&rt, &bad_line(rt.alloc(), text), due);
    }
}
