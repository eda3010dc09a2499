//! Keys that passwords derive.

use crate::same::same;
use ftp_config::{derived_key, hash_line};

// The first is of RFC 7914, section 11, cut to 32 bytes; the others are OpenSSL's.
const KEYS: [(&[u8], u32, &str); 3] = [
    (
        b"passwd",
        1,
        "55ac046e56e3089fec1691c22544b605f94185216dde0465e68b9d57c20dacbc",
    ),
    (
        b"password",
        2,
        "ae4d0c95af6b46d32d0adff928f06dd02a303f8ef3c251dfd6e2d85a95474c43",
    ),
    (
        &[b'x'; 65],
        1,
        "ec34fed99e087b3d9904f820f10fb5f584396a84d197788f6d17441ecec1a748",
    ),
];

#[test]
fn a_key_is_the_one_that_was_published(rt: HostRuntime) {
    for (password, rounds, due) in &KEYS {
        let key = derived_key(password, b"salt", *rounds);
        let text = hex::encode(rt.alloc(), key.as_slice()).expect(&rt, "a text");
        same(&rt, &text.as_str(), due);
    }
}

// The key is OpenSSL's.
#[test]
fn a_hash_is_printed_as_a_line_has_it(rt: HostRuntime) {
    let text = hash_line(rt.alloc(), b"password", b"salt", 2).expect(&rt, "a text");
    let due =
        "$pbkdf2-sha256$2$73616c74$ae4d0c95af6b46d32d0adff928f06dd02a303f8ef3c251dfd6e2d85a95474c43";
    same(&rt, &text.as_str(), &due);
}
