//! Pieces that rows share. A row is written as literals and words, and each word stands for a piece.

// The text of literals and words. `fifteen [x]` and `sixteen [x]` repeat a literal, `sixteen_sixteens [x]` 256 times.
macro_rules! text {
    (= $($out:literal)*;) => { concat!($($out),*) };
    (= $($out:literal)*; $x:literal $($rest:tt)*) => { text!(= $($out)* $x; $($rest)*) };
    (= $($out:literal)*; fifteen [$x:literal] $($rest:tt)*) => {
        text!(= $($out)* $x $x $x $x $x $x $x $x $x $x $x $x $x $x $x; $($rest)*)
    };
    (= $($out:literal)*; sixteen [$($x:literal)*] $($rest:tt)*) => {
        text!(= $($out)* $($x)* $($x)* $($x)* $($x)* $($x)* $($x)* $($x)* $($x)*
            $($x)* $($x)* $($x)* $($x)* $($x)* $($x)* $($x)* $($x)*; $($rest)*)
    };
    (= $($out:literal)*; sixteen_sixteens [$x:literal] $($rest:tt)*) => {
        text!(= $($out)*; sixteen [$x $x $x $x $x $x $x $x $x $x $x $x $x $x $x $x] $($rest)*)
    };

    // An envelope: `open` and `close` around its children, `begin` and `end` around the children of its `Messaging`.
    (= $($out:literal)*; open $($rest:tt)*) => {
        text!(= $($out)*; r#"<s:Envelope xmlns:s=""# soap_ns r#"" xmlns:e=""# ebms_ns r#"">"#
            $($rest)*)
    };
    (= $($out:literal)*; soap_ns $($rest:tt)*) => {
        text!(= $($out)* "http://www.w3.org/2003/05/soap-envelope"; $($rest)*)
    };
    (= $($out:literal)*; ebms_ns $($rest:tt)*) => {
        text!(= $($out)* "http://docs.oasis-open.org/ebxml-msg/ebms/v3.0/ns/core/200704/";
            $($rest)*)
    };
    (= $($out:literal)*; close $($rest:tt)*) => { text!(= $($out)* "</s:Envelope>"; $($rest)*) };
    (= $($out:literal)*; begin $($rest:tt)*) => {
        text!(= $($out)*; open "<s:Header><e:Messaging>" $($rest)*)
    };
    (= $($out:literal)*; end $($rest:tt)*) => {
        text!(= $($out)* "</e:Messaging></s:Header><s:Body/></s:Envelope>"; $($rest)*)
    };

    // A user message: `begin_user` and `end_user` around its last children, or `user` without these.
    (= $($out:literal)*; user $($rest:tt)*) => { text!(= $($out)*; begin_user end_user $($rest)*) };
    (= $($out:literal)*; begin_user $($rest:tt)*) => {
        text!(= $($out)* "<e:UserMessage>"; info parties work $($rest)*)
    };
    (= $($out:literal)*; end_user $($rest:tt)*) => {
        text!(= $($out)* "</e:UserMessage>"; $($rest)*)
    };
    (= $($out:literal)*; info $($rest:tt)*) => {
        text!(= $($out)* "<e:MessageInfo><e:Timestamp>2025-01-02T03:04:05Z</e:Timestamp>"
            "<e:MessageId>m1@a</e:MessageId></e:MessageInfo>"; $($rest)*)
    };
    (= $($out:literal)*; parties $($rest:tt)*) => {
        text!(= $($out)* "<e:PartyInfo>"; sender receiver "</e:PartyInfo>" $($rest)*)
    };
    (= $($out:literal)*; sender $($rest:tt)*) => {
        text!(= $($out)* "<e:From><e:PartyId>p</e:PartyId><e:Role>r</e:Role></e:From>"; $($rest)*)
    };
    (= $($out:literal)*; receiver $($rest:tt)*) => {
        text!(= $($out)* "<e:To><e:PartyId>q</e:PartyId><e:Role>s</e:Role></e:To>"; $($rest)*)
    };
    (= $($out:literal)*; work $($rest:tt)*) => {
        text!(= $($out)* "<e:CollaborationInfo><e:Service>s</e:Service><e:Action>a</e:Action>"
            "<e:ConversationId>c</e:ConversationId></e:CollaborationInfo>"; $($rest)*)
    };

    // Signals: a pull request of the channel c, a receipt for the user message, an error.
    (= $($out:literal)*; pull $($rest:tt)*) => {
        text!(= $($out)* "<e:SignalMessage>"; pull_info
            r#"<e:PullRequest mpc="c"/></e:SignalMessage>"# $($rest)*)
    };
    (= $($out:literal)*; receipt $($rest:tt)*) => {
        text!(= $($out)* "<e:SignalMessage>"; receipt_info "<e:Receipt/></e:SignalMessage>"
            $($rest)*)
    };
    (= $($out:literal)*; error $($rest:tt)*) => {
        text!(= $($out)* "<e:SignalMessage><e:MessageInfo><e:Timestamp>2025-01-02T03:04:05Z"
            "</e:Timestamp><e:MessageId>s3@a</e:MessageId></e:MessageInfo>"
            r#"<e:Error errorCode="EBMS:0004" severity="failure"/></e:SignalMessage>"#; $($rest)*)
    };
    (= $($out:literal)*; pull_info $($rest:tt)*) => {
        text!(= $($out)* "<e:MessageInfo><e:Timestamp>2025-01-02T03:04:05Z</e:Timestamp>"
            "<e:MessageId>s2@a</e:MessageId></e:MessageInfo>"; $($rest)*)
    };
    (= $($out:literal)*; receipt_info $($rest:tt)*) => {
        text!(= $($out)*; begin_receipt_info "m1@a" end_receipt_info $($rest)*)
    };
    (= $($out:literal)*; begin_receipt_info $($rest:tt)*) => {
        text!(= $($out)* "<e:MessageInfo><e:Timestamp>2025-01-02T03:04:05Z</e:Timestamp>"
            "<e:MessageId>s1@a</e:MessageId><e:RefToMessageId>"; $($rest)*)
    };
    (= $($out:literal)*; end_receipt_info $($rest:tt)*) => {
        text!(= $($out)* "</e:RefToMessageId></e:MessageInfo>"; $($rest)*)
    };

    // A package with the boundary b: the start of the root, and a part that is named p@a.
    (= $($out:literal)*; root $($rest:tt)*) => {
        text!(= $($out)* "--b\r\nContent-Type: application/soap+xml\r\n\r\n"; $($rest)*)
    };
    (= $($out:literal)*; part $($rest:tt)*) => {
        text!(= $($out)* "--b\r\nContent-ID: <p@a>\r\n\r\nx\r\n"; $($rest)*)
    };
    // A package whose root is the second part, with the identifier r@a.
    (= $($out:literal)*; started $($rest:tt)*) => {
        text!(= $($out)*; part "--b\r\nContent-ID: <r@a>\r\n"
            "Content-Type: application/soap+xml\r\n\r\n" begin begin_user
            r#"<e:PayloadInfo><e:PartInfo href="cid:p@a"/></e:PayloadInfo>"#
            end_user end "\r\n--b--\r\n" $($rest)*)
    };

    // Heads: `get` and `post` up to their fields, and a whole head that announces chunks.
    (= $($out:literal)*; get $($rest:tt)*) => {
        text!(= $($out)* "GET / HTTP/1.1\r\n"; $($rest)*)
    };
    (= $($out:literal)*; post $($rest:tt)*) => {
        text!(= $($out)* "POST / HTTP/1.1\r\n"; $($rest)*)
    };
    (= $($out:literal)*; chunked $($rest:tt)*) => {
        text!(= $($out)* "POST / HTTP/1.1\r\nTransfer-Encoding: chunked\r\n\r\n"; $($rest)*)
    };

    ($($all:tt)*) => { text!(=; $($all)*) };
}

// An envelope with these children, with these blocks in its header, and with these units.
macro_rules! envelope { ($($x:tt)*) => { text!(open $($x)* close) }; }

macro_rules! header {
    ($($x:tt)*) => { text!(open "<s:Header>" $($x)* "</s:Header><s:Body/>" close) };
}

macro_rules! messaging { ($($x:tt)*) => { text!(begin $($x)* end) }; }

// A pull request with this content in the body of its envelope, and with this before and behind its envelope.
macro_rules! in_body {
    ($($x:tt)*) => {
        text!(begin pull "</e:Messaging></s:Header><s:Body>" $($x)* "</s:Body></s:Envelope>")
    };
}

macro_rules! around {
    ([$($before:tt)*] [$($behind:tt)*]) => { text!($($before)* begin pull end $($behind)*) };
}

// A pull request of a channel that is written so, and a receipt for a message whose identifier is written so.
macro_rules! in_mpc {
    ($($x:tt)*) => {
        messaging!("<e:SignalMessage>" pull_info
            r#"<e:PullRequest mpc=""# $($x)* r#""/></e:SignalMessage>"#)
    };
}

macro_rules! in_reference {
    ($($x:tt)*) => {
        messaging!("<e:SignalMessage>" begin_receipt_info $($x)* end_receipt_info
            "<e:Receipt/></e:SignalMessage>")
    };
}

// A user message with these children in one of its elements, or with a stamp or an identifier that is written so.
macro_rules! in_user {
    ($($x:tt)*) => { messaging!("<e:UserMessage>" $($x)* "</e:UserMessage>") };
}

macro_rules! in_info {
    ($($x:tt)*) => { in_user!("<e:MessageInfo>" $($x)* "</e:MessageInfo>" parties work) };
}

macro_rules! in_stamp {
    ($($x:tt)*) => {
        in_info!("<e:Timestamp>" $($x)* "</e:Timestamp><e:MessageId>m1@a</e:MessageId>")
    };
}

macro_rules! in_id {
    ($($x:tt)*) => {
        in_info!("<e:Timestamp>2025-01-02T03:04:05Z</e:Timestamp>"
            "<e:MessageId>" $($x)* "</e:MessageId>")
    };
}

macro_rules! in_parties {
    ($($x:tt)*) => { in_user!(info "<e:PartyInfo>" $($x)* "</e:PartyInfo>" work) };
}

macro_rules! in_from {
    ($($x:tt)*) => { in_parties!("<e:From>" $($x)* "</e:From>" receiver) };
}

macro_rules! in_work {
    ($($x:tt)*) => {
        in_user!(info parties "<e:CollaborationInfo>" $($x)* "</e:CollaborationInfo>")
    };
}

macro_rules! in_properties {
    ($($x:tt)*) => {
        messaging!(begin_user "<e:MessageProperties>" $($x)* "</e:MessageProperties>" end_user)
    };
}

// A signal with this content: the signal s2@a, and the signal s1@a, which refers to m1@a.
macro_rules! in_signal {
    ($($x:tt)*) => { messaging!("<e:SignalMessage>" pull_info $($x)* "</e:SignalMessage>") };
}

macro_rules! in_answer {
    ($($x:tt)*) => { messaging!("<e:SignalMessage>" receipt_info $($x)* "</e:SignalMessage>") };
}

// Packages with the boundary b: of these parts; of a user message with these part infos and of these parts; with
// this part info and the part p@a; with a reference to p@a and this part; of a pull request with these fields.
macro_rules! package { ($($x:tt)*) => { text!($($x)* "--b--\r\n") }; }

macro_rules! with_parts {
    ([$($info:tt)*] [$($part:tt)*]) => {
        package!(root begin begin_user "<e:PayloadInfo>" $($info)* "</e:PayloadInfo>" end_user end
            "\r\n" $($part)*)
    };
}

macro_rules! with_info { ($($x:tt)*) => { with_parts!([$($x)*] [part]) }; }

macro_rules! with_part {
    ($($x:tt)*) => {
        with_parts!([r#"<e:PartInfo href="cid:p@a"/>"#] ["--b\r\n" $($x)* "\r\n"])
    };
}

macro_rules! in_root {
    ($($x:tt)*) => { package!("--b\r\n" $($x)* "\r\n" begin pull end "\r\n") };
}

// Rows: of a bare envelope, of a package with the boundary b, of any media text; of a pull request with this content
// in the body of its envelope, which is read or refused.
macro_rules! soap {
    ($name:literal, $body:expr => $want:literal) => {
        media!($name, "application/soap+xml", $body => $want)
    };
}

macro_rules! boundary_b {
    ($name:literal, $body:expr => $want:literal) => {
        media!($name, "multipart/related; boundary=b", $body => $want)
    };
}

macro_rules! media {
    ($name:literal, $media:literal, $body:expr => $want:literal) => {
        crate::rows::text_row($name, $media, $body, concat!($want, "\n"))
    };
}

// A row of a pull request under this media text: bare, and in a package with the boundary b.
macro_rules! bare {
    ($name:literal, $media:literal => $want:literal) => {
        media!($name, $media, messaging!(pull) => $want)
    };
}

macro_rules! packaged {
    ($name:literal, $media:literal => $want:literal) => {
        media!($name, $media, package!(root begin pull end "\r\n") => $want)
    };
}

macro_rules! good {
    ($name:literal, $($x:tt)*) => { soap!($name, in_body!($($x)*) => "pull c") };
}

macro_rules! bad {
    ($name:literal, $($x:tt)*) => { soap!($name, in_body!($($x)*) => "refused EBMS:0009") };
}

// A row of a bare envelope that isn't UTF-8.
macro_rules! raw_soap {
    ($name:literal, $body:literal => $want:literal) => {
        crate::rows::bytes_row($name, b"application/soap+xml", $body, $want)
    };
}

// A row of a stream, and of one that isn't UTF-8.
macro_rules! stream {
    (= $name:literal [$($x:tt)*] => $want:literal) => {
        crate::rows::text_stream($name, text!($($x)*), concat!($want, "\n"))
    };
    (= $name:literal [$($x:tt)*] $next:tt $($rest:tt)*) => {
        stream!(= $name [$($x)* $next] $($rest)*)
    };
    ($name:literal, $($rest:tt)*) => { stream!(= $name [] $($rest)*) };
}

macro_rules! bytes_stream {
    ($name:literal, $stream:literal => $want:literal) => {
        crate::rows::bytes_stream($name, $stream, $want)
    };
}

// The lines of a script or a transcript.
macro_rules! lines { ($($line:literal)*) => { concat!($($line, "\n"),*) }; }

// A row of a script, and of one whose third line is wrong.
macro_rules! script {
    ($name:literal, $script:expr => $want:expr) => { crate::rows::play_row($name, $script, $want) };
}

macro_rules! wrong {
    ($name:literal, $line:literal) => {
        script!($name, concat!("mode m push 1 1\ntake a\n", $line, "\ntake b\n") => "a nothing\n")
    };
}

pub(crate) use around;
pub(crate) use bad;
pub(crate) use bare;
pub(crate) use boundary_b;
pub(crate) use bytes_stream;
pub(crate) use envelope;
pub(crate) use good;
pub(crate) use header;
pub(crate) use in_answer;
pub(crate) use in_body;
pub(crate) use in_from;
pub(crate) use in_id;
pub(crate) use in_info;
pub(crate) use in_mpc;
pub(crate) use in_parties;
pub(crate) use in_properties;
pub(crate) use in_reference;
pub(crate) use in_root;
pub(crate) use in_signal;
pub(crate) use in_stamp;
pub(crate) use in_user;
pub(crate) use in_work;
pub(crate) use lines;
pub(crate) use media;
pub(crate) use messaging;
pub(crate) use package;
pub(crate) use packaged;
pub(crate) use raw_soap;
pub(crate) use script;
pub(crate) use soap;
pub(crate) use stream;
pub(crate) use text;
pub(crate) use with_info;
pub(crate) use with_part;
pub(crate) use with_parts;
pub(crate) use wrong;
