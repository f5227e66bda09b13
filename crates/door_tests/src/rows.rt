//! Requests, and what they ask for.
//!
//! `submit MODE CONVERSATION MEDIA=CONTENT;`, where `-` is no conversation, `read N`, `confirm N`, `status ID`,
//! `user ID PAYLOADS`, `stranger`, and `refused CODE`.

use crate::samples::{BARE, BARE_MEDIA, BODY, MEDIA};
use as4_http::Method;

/// The method, the target, the media text, the body, and what they ask for.
pub type Row = (
    Method,
    &'static str,
    Option<&'static str>,
    &'static str,
    &'static str,
);

/// Requests at the local door.
pub const LOCAL: [Row; 50] = [
    (
        Method::Post,
        "/submit/m/c",
        Some("text/plain"),
        "hi",
        "submit m c text/plain=hi;",
    ),
    (Method::Post, "/submit/m/", None, "", "submit m -"),
    (
        Method::Post,
        "/submit/m/c",
        None,
        "hi",
        "submit m c application/octet-stream=hi;",
    ),
    (Method::Post, "/submit/m/c", Some(""), "", "submit m c =;"),
    (Method::Post, "/%73ubmit/m/c", None, "", "submit m c"),
    (Method::Post, "/submit/%2F/c", None, "", "submit / c"),
    (Method::Post, "/submit/%2541/c", None, "", "submit %41 c"),
    (Method::Post, "/submit/%20m%20/%20c", None, "", "submit m c"),
    (Method::Post, "/submit/m/%20", None, "", "stranger"),
    (Method::Post, "/submit/%20/c", None, "", "stranger"),
    (Method::Post, "/submit//c", None, "", "stranger"),
    (Method::Post, "/submit/%FF/c", None, "", "stranger"),
    (Method::Post, "/submit/m", None, "", "stranger"),
    (Method::Post, "/submit/m/c/d", None, "", "stranger"),
    (Method::Post, "/submit/m/c/", None, "", "stranger"),
    (Method::Post, "submit/m/c", None, "", "stranger"),
    (Method::Post, "//submit/m/c", None, "", "stranger"),
    (Method::Post, "/Submit/m/c", None, "", "stranger"),
    (Method::Get, "/submit/m/c", None, "", "stranger"),
    (Method::Get, "/inbox/0", None, "", "read 0"),
    (Method::Get, "/inbox/%30", None, "", "read 0"),
    (Method::Get, "/%69nbox/12", None, "", "read 12"),
    (
        Method::Get,
        "/inbox/18446744073709551615",
        None,
        "",
        "read 18446744073709551615",
    ),
    (
        Method::Get,
        "/inbox/18446744073709551616",
        None,
        "",
        "stranger",
    ),
    (Method::Get, "/inbox/00", None, "", "stranger"),
    (Method::Get, "/inbox/01", None, "", "stranger"),
    (Method::Get, "/inbox/+1", None, "", "stranger"),
    (Method::Get, "/inbox/-1", None, "", "stranger"),
    (Method::Get, "/inbox/%201", None, "", "stranger"),
    (Method::Get, "/inbox/", None, "", "stranger"),
    (Method::Get, "/inbox", None, "", "stranger"),
    (Method::Get, "/inbox/0/", None, "", "stranger"),
    (Method::Get, "/inbox/0?x", None, "", "stranger"),
    (Method::Get, "http://h/inbox/0", None, "", "stranger"),
    (Method::Post, "/inbox/0", None, "", "stranger"),
    (Method::Post, "/confirm/7", None, "", "confirm 7"),
    (Method::Post, "/confirm/07", None, "", "stranger"),
    (Method::Get, "/confirm/7", None, "", "stranger"),
    (Method::Get, "/status/m1@a", None, "", "status m1@a"),
    (Method::Get, "/status/m1%40a", None, "", "status m1@a"),
    (Method::Get, "/status/m1?x", None, "", "status m1?x"),
    (Method::Get, "/status/%25", None, "", "status %"),
    (Method::Get, "/status/%zz", None, "", "status %zz"),
    (Method::Get, "/status/", None, "", "stranger"),
    (Method::Get, "/status/a%20b", None, "", "stranger"),
    (Method::Get, "/status/%3Ca%3E", None, "", "stranger"),
    (Method::Post, "/status/m1@a", None, "", "stranger"),
    (Method::Get, "/other/0", None, "", "stranger"),
    (Method::Get, "/", None, "", "stranger"),
    (Method::Post, "/", None, "", "stranger"),
];

/// Requests at the peer's door.
pub const PEER: [Row; 9] = [
    (Method::Post, "/", Some(MEDIA), BODY, "user m1@a 1"),
    (
        Method::Post,
        "/inbox/0",
        Some(BARE_MEDIA),
        BARE,
        "user m1@a 0",
    ),
    (Method::Get, "/", Some(MEDIA), BODY, "stranger"),
    (Method::Post, "/", None, BARE, "refused 7"),
    (Method::Post, "/", Some(""), BODY, "refused 7"),
    (Method::Post, "/", Some("text/plain"), "", "refused 7"),
    (Method::Post, "/", Some(BARE_MEDIA), "<a/>", "refused 9"),
    (Method::Post, "/", Some(BARE_MEDIA), "<a>", "refused 9"),
    (Method::Post, "/", Some(MEDIA), BARE, "refused 7"),
];
