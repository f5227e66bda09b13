//! Messages whose header has or hasn't the accepted form, with their check lines.
use crate::pieces::{
    envelope, good, header, in_answer, in_body, in_from, in_id, in_info, in_parties, in_properties,
    in_signal, in_stamp, in_user, in_work, media, messaging, soap, text,
};
use conformance::Vector;

/// The envelope and its parts.
pub(crate) fn envelopes() -> [Vector; 20] {
    [
        soap!("user-message", messaging!(user) => "user m1@a"),
        soap!("pull-request", messaging!(pull) => "pull c"),
        soap!("receipt", messaging!(receipt) => "receipt m1@a"),
        soap!("error", messaging!(error) => "errors 1"),
        soap!(
            "envelope-named-otherwise",
            text!(
                r#"<s:Message xmlns:s=""#
                soap_ns
                r#"" xmlns:e=""#
                ebms_ns
                r#""><s:Header><e:Messaging>"#
                pull
                "</e:Messaging></s:Header><s:Body/></s:Message>"
            ) => "refused EBMS:0009"
        ),
        soap!(
            "envelope-in-no-namespace",
            text!(
                r#"<Envelope xmlns:s=""#
                soap_ns
                r#"" xmlns:e=""#
                ebms_ns
                r#""><s:Header><e:Messaging>"#
                pull
                "</e:Messaging></s:Header><s:Body/></Envelope>"
            ) => "refused EBMS:0009"
        ),
        soap!(
            "envelope-of-soap-1-1",
            text!(
                r#"<s:Envelope xmlns:s="http://schemas.xmlsoap.org/soap/envelope/" xmlns:e=""#
                ebms_ns
                r#""><s:Header><e:Messaging>"#
                pull
                "</e:Messaging></s:Header><s:Body/></s:Envelope>"
            ) => "refused EBMS:0009"
        ),
        soap!(
            "namespace-with-a-blank-at-its-end",
            text!(
                r#"<s:Envelope xmlns:s=""#
                soap_ns
                r#"" xmlns:e=""#
                ebms_ns
                r#" "><s:Header><e:Messaging>"#
                pull
                "</e:Messaging></s:Header><s:Body/></s:Envelope>"
            ) => "refused EBMS:0009"
        ),
        soap!("header-missing", envelope!("<s:Body/>") => "refused EBMS:0009"),
        soap!(
            "header-twice",
            envelope!(
                "<s:Header><e:Messaging>"
                pull
                "</e:Messaging></s:Header><s:Header/><s:Body/>"
            ) => "refused EBMS:0009"
        ),
        soap!(
            "header-in-no-namespace",
            envelope!("<Header><e:Messaging>" pull "</e:Messaging></Header><s:Body/>")
            => "refused EBMS:0009"
        ),
        soap!(
            "body-missing",
            envelope!("<s:Header><e:Messaging>" pull "</e:Messaging></s:Header>")
            => "refused EBMS:0009"
        ),
        soap!(
            "body-twice",
            envelope!("<s:Header><e:Messaging>" pull "</e:Messaging></s:Header><s:Body/><s:Body/>")
            => "refused EBMS:0009"
        ),
        soap!(
            "body-before-header",
            envelope!("<s:Body/><s:Header><e:Messaging>" pull "</e:Messaging></s:Header>")
            => "refused EBMS:0009"
        ),
        soap!(
            "fault-beside-the-body",
            envelope!("<s:Header><e:Messaging>" pull "</e:Messaging></s:Header><s:Body/><s:Fault/>")
            => "refused EBMS:0009"
        ),
        soap!(
            "envelope-with-foreign-children",
            envelope!(
                "a<x/><s:Header><e:Messaging>"
                pull
                r#"</e:Messaging></s:Header><e:y/><s:Body/><z xmlns="u"/>b"#
            ) => "pull c"
        ),
        soap!("messaging-missing", header!("<x/>") => "refused EBMS:0009"),
        soap!(
            "messaging-twice",
            header!("<e:Messaging>" pull "</e:Messaging><e:Messaging/>") => "refused EBMS:0009"
        ),
        soap!(
            "messaging-in-another-block",
            header!("<x><e:Messaging>" pull "</e:Messaging></x>") => "refused EBMS:0009"
        ),
        soap!(
            "messaging-in-the-body",
            envelope!("<s:Header/><s:Body><e:Messaging>" pull "</e:Messaging></s:Body>")
            => "refused EBMS:0009"
        ),
    ]
}

/// Header blocks that must be understood, and headers without a unit.
pub(crate) fn blocks() -> [Vector; 20] {
    [
        soap!(
            "must-understand-true",
            header!("<e:Messaging>" pull r#"</e:Messaging><x s:mustUnderstand="true"/>"#)
            => "refused EBMS:0008"
        ),
        soap!(
            "must-understand-1",
            header!(
                r#"<w:Security xmlns:w="u" s:mustUnderstand="1"/><e:Messaging>"#
                pull
                "</e:Messaging>"
            ) => "refused EBMS:0008"
        ),
        soap!(
            "must-understand-with-blanks",
            header!("<e:Messaging>" pull r#"</e:Messaging><x s:mustUnderstand=" 1&#10;"/>"#)
            => "refused EBMS:0008"
        ),
        soap!(
            "must-understand-with-role-none",
            header!(
                "<e:Messaging>"
                pull
                "</e:Messaging>"
                r#"<x s:mustUnderstand="1""#
                r#" s:role="http://www.w3.org/2003/05/soap-envelope/role/none"/>"#
            ) => "refused EBMS:0008"
        ),
        soap!(
            "must-understand-on-an-ebms-block",
            header!("<e:Messaging>" pull r#"</e:Messaging><e:x s:mustUnderstand="true"/>"#)
            => "refused EBMS:0008"
        ),
        soap!(
            "must-understand-0",
            header!("<e:Messaging>" pull r#"</e:Messaging><x s:mustUnderstand="0"/>"#) => "pull c"
        ),
        soap!(
            "must-understand-in-capitals",
            header!("<e:Messaging>" pull r#"</e:Messaging><x s:mustUnderstand="TRUE"/>"#)
            => "pull c"
        ),
        soap!(
            "must-understand-in-no-namespace",
            header!("<e:Messaging>" pull r#"</e:Messaging><x mustUnderstand="1"/>"#) => "pull c"
        ),
        soap!(
            "must-understand-of-soap-1-1",
            header!(
                "<e:Messaging>"
                pull
                "</e:Messaging>"
                r#"<x xmlns:t="http://schemas.xmlsoap.org/soap/envelope/" t:mustUnderstand="1"/>"#
            ) => "pull c"
        ),
        soap!(
            "must-understand-inside-a-block",
            header!("<e:Messaging>" pull r#"</e:Messaging><x><y s:mustUnderstand="1"/></x>"#)
            => "pull c"
        ),
        soap!(
            "must-understand-on-messaging",
            header!(r#"<e:Messaging s:mustUnderstand="1">"# pull "</e:Messaging>") => "pull c"
        ),
        soap!(
            "must-understand-before-a-missing-unit",
            header!(r#"<e:Messaging/><x s:mustUnderstand="1"/>"#) => "refused EBMS:0008"
        ),
        soap!(
            "must-understand-after-a-second-messaging",
            header!(
                "<e:Messaging>"
                pull
                "</e:Messaging><e:Messaging>"
                pull
                r#"</e:Messaging><x s:mustUnderstand="1"/>"#
            ) => "refused EBMS:0009"
        ),
        soap!("unit-missing", messaging!() => "refused EBMS:0009"),
        soap!("unit-in-no-namespace", messaging!("<UserMessage/>") => "refused EBMS:0009"),
        soap!("unit-in-another-element", messaging!("<x>" pull "</x>") => "refused EBMS:0009"),
        soap!("unit-beside-other-elements", messaging!("a<e:x/>" pull "<y/>b") => "pull c"),
        soap!(
            "header-with-other-blocks",
            header!("a<x/><e:Messaging>" pull r#"</e:Messaging><e:y/><z xmlns="u">b</z>"#)
            => "pull c"
        ),
        soap!(
            "messaging-in-no-namespace",
            header!("<Messaging>" pull "</Messaging>") => "refused EBMS:0009"
        ),
        good!("fault-in-the-body", "<s:Fault><s:Code/></s:Fault>"),
    ]
}

/// Several units in a message, and what a signal holds.
pub(crate) fn bundles() -> [Vector; 20] {
    [
        soap!("two-user-messages", messaging!(user user) => "refused EBMS:0008"),
        soap!(
            "two-user-messages-misspelled",
            messaging!("<e:UserMessage/><e:UserMessage/>") => "refused EBMS:0008"
        ),
        soap!("user-message-and-signal", messaging!(user pull) => "refused EBMS:0008"),
        soap!("three-signals", messaging!(receipt pull pull) => "refused EBMS:0008"),
        soap!("two-pull-requests", messaging!(pull pull) => "refused EBMS:0008"),
        soap!("two-receipts", messaging!(receipt receipt) => "refused EBMS:0008"),
        soap!("receipt-and-error", messaging!(receipt error) => "refused EBMS:0008"),
        soap!(
            "receipt-and-misspelled-signal",
            messaging!(receipt "<e:SignalMessage/>") => "refused EBMS:0009"
        ),
        soap!(
            "misspelled-signal-and-error",
            messaging!("<e:SignalMessage/>" error) => "refused EBMS:0009"
        ),
        soap!("receipt-and-pull-request", messaging!(receipt pull) => "pair m1@a c"),
        soap!("pull-request-and-receipt", messaging!(pull receipt) => "pair m1@a c"),
        soap!("signal-without-content", in_signal!() => "refused EBMS:0009"),
        soap!(
            "signal-without-message-info",
            messaging!(r#"<e:SignalMessage><e:PullRequest mpc="c"/></e:SignalMessage>"#)
            => "refused EBMS:0009"
        ),
        soap!(
            "signal-with-two-infos",
            in_signal!(pull_info r#"<e:PullRequest mpc="c"/>"#) => "refused EBMS:0009"
        ),
        soap!(
            "signal-with-two-pull-requests",
            in_signal!(r#"<e:PullRequest mpc="c"/><e:PullRequest mpc="c"/>"#) => "refused EBMS:0009"
        ),
        soap!(
            "signal-with-receipt-and-pull-request",
            in_answer!(r#"<e:Receipt/><e:PullRequest mpc="c"/>"#) => "refused EBMS:0009"
        ),
        soap!(
            "signal-with-receipt-and-error",
            in_answer!(r#"<e:Receipt/><e:Error errorCode="x" severity="failure"/>"#)
            => "refused EBMS:0009"
        ),
        soap!(
            "signal-with-an-unknown-child",
            in_signal!(r#"<e:PullRequest mpc="c"/><e:x/>"#) => "refused EBMS:0009"
        ),
        soap!(
            "signal-with-foreign-parts",
            in_signal!(r#"a<x/><e:PullRequest mpc="c"/><s:y/>"#) => "pull c"
        ),
        soap!(
            "signal-in-another-order",
            messaging!(
                r#"<e:SignalMessage><e:PullRequest mpc="c"/>"#
                pull_info
                "</e:SignalMessage>"
            ) => "pull c"
        ),
    ]
}

/// User messages and their identifiers.
pub(crate) fn identifiers() -> [Vector; 20] {
    [
        soap!("user-message-empty", in_user!() => "refused EBMS:0009"),
        soap!(
            "user-message-in-another-order",
            in_user!("<e:PayloadInfo/><e:MessageProperties/>" work parties info) => "user m1@a"
        ),
        soap!(
            "user-message-in-another-order-inside",
            in_user!(
                "<e:CollaborationInfo><e:ConversationId>c</e:ConversationId>"
                "<e:Action>a</e:Action><e:Service>s</e:Service>"
                "<e:AgreementRef>g</e:AgreementRef></e:CollaborationInfo><e:PartyInfo><e:To>"
                "<e:Role>s</e:Role><e:PartyId>q</e:PartyId></e:To>"
                sender
                "</e:PartyInfo><e:MessageInfo><e:RefToMessageId>m0@a</e:RefToMessageId>"
                "<e:MessageId>m1@a</e:MessageId><e:Timestamp>2025-01-02T03:04:05Z</e:Timestamp>"
                "</e:MessageInfo>"
            ) => "user m1@a"
        ),
        soap!(
            "user-message-with-foreign-parts",
            messaging!(
                r#"<e:UserMessage a="b" s:c="d">e<x><e:y/></x><s:z/>"#
                info
                parties
                work
                "</e:UserMessage>"
            ) => "user m1@a"
        ),
        soap!(
            "user-message-with-a-blank-channel",
            messaging!(r#"<e:UserMessage mpc=" ">"# info parties work "</e:UserMessage>")
            => "user m1@a"
        ),
        soap!(
            "user-message-with-an-unknown-child",
            messaging!(begin_user "<e:x/>" end_user) => "refused EBMS:0009"
        ),
        soap!("message-info-missing", in_user!(parties work) => "refused EBMS:0009"),
        soap!("message-info-twice", messaging!(begin_user info end_user) => "refused EBMS:0009"),
        soap!(
            "message-info-with-an-unknown-child",
            in_info!(
                "<e:Timestamp>2025-01-02T03:04:05Z</e:Timestamp><e:MessageId>m1@a</e:MessageId>"
                "<e:x/>"
            ) => "refused EBMS:0009"
        ),
        soap!(
            "identifier-missing",
            in_info!("<e:Timestamp>2025-01-02T03:04:05Z</e:Timestamp>") => "refused EBMS:0009"
        ),
        soap!(
            "identifier-twice",
            in_info!(
                "<e:Timestamp>2025-01-02T03:04:05Z</e:Timestamp><e:MessageId>m1@a</e:MessageId>"
                "<e:MessageId>m1@a</e:MessageId>"
            ) => "refused EBMS:0009"
        ),
        soap!("identifier-empty", in_id!() => "refused EBMS:0009"),
        soap!("identifier-with-blanks-around", in_id!("\r\n\tm1@a ") => "user m1@a"),
        soap!("identifier-with-a-blank-inside", in_id!("m1 @a") => "refused EBMS:0009"),
        soap!("identifier-in-angle-brackets", in_id!("&lt;m1@a&gt;") => "refused EBMS:0009"),
        soap!("identifier-past-ascii", in_id!("é@a") => "refused EBMS:0009"),
        soap!("identifier-around-a-foreign-child", in_id!("m1<x>y</x>@a") => "user m1@a"),
        soap!("identifier-with-an-ebms-child", in_id!("m1@a<e:x/>") => "refused EBMS:0009"),
        soap!(
            "reference-to-a-message-of-255-bytes",
            in_info!(
                "<e:Timestamp>2025-01-02T03:04:05Z</e:Timestamp><e:MessageId>m1@a</e:MessageId>"
                "<e:RefToMessageId>"
                fifteen ["iiiiiiiiiiiiiiiii"]
                "</e:RefToMessageId>"
            ) => "user m1@a"
        ),
        soap!(
            "identifier-of-256-bytes",
            in_id!(sixteen ["iiiiiiiiiiiiiiii"]) => "refused EBMS:0009"
        ),
    ]
}

/// References to other messages, and timestamps.
pub(crate) fn stamps() -> [Vector; 20] {
    [
        soap!(
            "reference-to-a-message",
            in_info!(
                "<e:Timestamp>2025-01-02T03:04:05Z</e:Timestamp><e:MessageId>m1@a</e:MessageId>"
                "<e:RefToMessageId> m0@a </e:RefToMessageId>"
            ) => "user m1@a"
        ),
        soap!(
            "reference-to-a-message-empty",
            in_info!(
                "<e:Timestamp>2025-01-02T03:04:05Z</e:Timestamp><e:MessageId>m1@a</e:MessageId>"
                "<e:RefToMessageId/>"
            ) => "refused EBMS:0009"
        ),
        soap!(
            "reference-to-a-message-twice",
            in_info!(
                "<e:Timestamp>2025-01-02T03:04:05Z</e:Timestamp><e:MessageId>m1@a</e:MessageId>"
                "<e:RefToMessageId>m0@a</e:RefToMessageId>"
                "<e:RefToMessageId>m0@a</e:RefToMessageId>"
            ) => "refused EBMS:0009"
        ),
        soap!(
            "reference-to-a-message-wrong",
            in_info!(
                "<e:Timestamp>2025-01-02T03:04:05Z</e:Timestamp><e:MessageId>m1@a</e:MessageId>"
                "<e:RefToMessageId>m 0</e:RefToMessageId>"
            ) => "refused EBMS:0009"
        ),
        soap!("stamp-missing", in_info!("<e:MessageId>m1@a</e:MessageId>") => "refused EBMS:0009"),
        soap!(
            "stamp-twice",
            in_info!(
                "<e:Timestamp>2025-01-02T03:04:05Z</e:Timestamp>"
                "<e:Timestamp>2025-01-02T03:04:05Z</e:Timestamp><e:MessageId>m1@a</e:MessageId>"
            ) => "refused EBMS:0009"
        ),
        soap!("stamp-empty", in_stamp!() => "refused EBMS:0009"),
        soap!("stamp-without-zone", in_stamp!("2025-01-02T03:04:05") => "user m1@a"),
        soap!(
            "stamp-of-nine-digits-of-a-second",
            in_stamp!("2025-01-02T03:04:05.123456789") => "user m1@a"
        ),
        soap!(
            "stamp-with-the-greatest-offset",
            in_stamp!("2025-01-02T03:04:05.000+14:00") => "user m1@a"
        ),
        soap!("stamp-of-a-leap-day", in_stamp!("2024-02-29T00:00:00Z") => "user m1@a"),
        soap!("stamp-of-year-0", in_stamp!("0000-01-01T00:00:00Z") => "refused EBMS:0009"),
        soap!("stamp-of-month-13", in_stamp!("2025-13-02T03:04:05Z") => "refused EBMS:0009"),
        soap!(
            "stamp-of-a-leap-day-in-a-common-year",
            in_stamp!("2025-02-29T00:00:00Z") => "refused EBMS:0009"
        ),
        soap!("stamp-of-hour-24", in_stamp!("2025-01-02T24:00:00Z") => "refused EBMS:0009"),
        soap!("stamp-of-second-60", in_stamp!("2016-12-31T23:59:60Z") => "refused EBMS:0009"),
        soap!(
            "stamp-with-an-offset-past-14-hours",
            in_stamp!("2025-01-02T03:04:05+14:01") => "refused EBMS:0009"
        ),
        soap!(
            "stamp-of-ten-digits-of-a-second",
            in_stamp!("2025-01-02T03:04:05.1234567890Z") => "refused EBMS:0009"
        ),
        soap!(
            "stamp-of-no-digits-of-a-second",
            in_stamp!("2025-01-02T03:04:05.Z") => "refused EBMS:0009"
        ),
        soap!("stamp-with-a-small-t", in_stamp!("2025-01-02t03:04:05Z") => "refused EBMS:0009"),
    ]
}

/// Further timestamps.
pub(crate) fn further_stamps() -> [Vector; 20] {
    [
        soap!("stamp-of-the-first-year", in_stamp!("0001-01-01T00:00:00Z") => "user m1@a"),
        soap!(
            "stamp-of-the-last-moment",
            in_stamp!("9999-12-31T23:59:59.999999999Z") => "user m1@a"
        ),
        soap!("stamp-with-blanks-around", in_stamp!(" 2025-01-02T03:04:05Z\n") => "user m1@a"),
        soap!(
            "stamp-with-an-offset-of-minus-0",
            in_stamp!("2025-01-02T03:04:05-00:00") => "user m1@a"
        ),
        soap!("stamp-of-day-0", in_stamp!("2025-01-00T03:04:05Z") => "refused EBMS:0009"),
        soap!("stamp-of-31-april", in_stamp!("2025-04-31T03:04:05Z") => "refused EBMS:0009"),
        soap!(
            "stamp-of-a-leap-day-of-a-century",
            in_stamp!("1900-02-29T00:00:00Z") => "refused EBMS:0009"
        ),
        soap!("stamp-of-minute-60", in_stamp!("2025-01-02T03:60:05Z") => "refused EBMS:0009"),
        soap!(
            "stamp-with-an-offset-of-15-hours",
            in_stamp!("2025-01-02T03:04:05+15:00") => "refused EBMS:0009"
        ),
        soap!(
            "stamp-with-an-offset-of-60-minutes",
            in_stamp!("2025-01-02T03:04:05+01:60") => "refused EBMS:0009"
        ),
        soap!(
            "stamp-with-an-offset-without-colon",
            in_stamp!("2025-01-02T03:04:05+0100") => "refused EBMS:0009"
        ),
        soap!(
            "stamp-with-two-zones",
            in_stamp!("2025-01-02T03:04:05Z+01:00") => "refused EBMS:0009"
        ),
        soap!("stamp-with-a-comma", in_stamp!("2025-01-02T03:04:05,5Z") => "refused EBMS:0009"),
        soap!("stamp-without-seconds", in_stamp!("2025-01-02T03:04Z") => "refused EBMS:0009"),
        soap!("stamp-without-time", in_stamp!("2025-01-02") => "refused EBMS:0009"),
        soap!("stamp-with-a-small-z", in_stamp!("2025-01-02T03:04:05z") => "refused EBMS:0009"),
        soap!("stamp-with-a-space", in_stamp!("2025-01-02 03:04:05Z") => "refused EBMS:0009"),
        soap!(
            "stamp-of-five-digits-of-a-year",
            in_stamp!("12025-01-02T03:04:05Z") => "refused EBMS:0009"
        ),
        soap!("stamp-with-a-sign", in_stamp!("-2025-01-02T03:04:05Z") => "refused EBMS:0009"),
        soap!("stamp-in-other-digits", in_stamp!("２０２５-01-02T03:04:05Z") => "refused EBMS:0009"),
    ]
}

/// The parties of a user message.
pub(crate) fn parties() -> [Vector; 20] {
    [
        soap!("party-info-missing", in_user!(info work) => "refused EBMS:0009"),
        soap!("party-info-twice", messaging!(begin_user parties end_user) => "refused EBMS:0009"),
        soap!(
            "party-info-with-an-unknown-child",
            in_parties!(sender receiver "<e:x/>") => "refused EBMS:0009"
        ),
        soap!("sender-missing", in_parties!(receiver) => "refused EBMS:0009"),
        soap!("sender-twice", in_parties!(sender sender receiver) => "refused EBMS:0009"),
        soap!(
            "sender-with-an-unknown-child",
            in_from!("<e:PartyId>p</e:PartyId><e:Role>r</e:Role><e:Action>a</e:Action>")
            => "refused EBMS:0009"
        ),
        soap!("receiver-missing", in_parties!(sender) => "refused EBMS:0009"),
        soap!("receiver-twice", in_parties!(sender receiver receiver) => "refused EBMS:0009"),
        soap!("party-missing", in_from!("<e:Role>r</e:Role>") => "refused EBMS:0009"),
        soap!(
            "party-empty",
            in_from!("<e:PartyId> </e:PartyId><e:Role>r</e:Role>") => "refused EBMS:0009"
        ),
        soap!(
            "party-with-a-blank-type",
            in_from!(r#"<e:PartyId type=" ">p</e:PartyId><e:Role>r</e:Role>"#) => "user m1@a"
        ),
        soap!(
            "party-with-an-ebms-child",
            in_from!("<e:PartyId>p<e:x/></e:PartyId><e:Role>r</e:Role>") => "refused EBMS:0009"
        ),
        soap!(
            "parties-16",
            in_from!(sixteen [r#"<e:PartyId type="t">p</e:PartyId>"#] "<e:Role>r</e:Role>")
            => "user m1@a"
        ),
        soap!(
            "parties-17",
            in_from!(
                sixteen ["<e:PartyId>p</e:PartyId>"]
                "<e:PartyId>p</e:PartyId><e:Role>r</e:Role>"
            ) => "refused EBMS:0009"
        ),
        soap!("role-missing", in_from!("<e:PartyId>p</e:PartyId>") => "refused EBMS:0009"),
        soap!("role-empty", in_from!("<e:PartyId>p</e:PartyId><e:Role/>") => "refused EBMS:0009"),
        soap!(
            "role-twice",
            in_from!("<e:PartyId>p</e:PartyId><e:Role>r</e:Role><e:Role>r</e:Role>")
            => "refused EBMS:0009"
        ),
        soap!("collaboration-info-missing", in_user!(info parties) => "refused EBMS:0009"),
        soap!(
            "collaboration-info-twice",
            messaging!(begin_user work end_user) => "refused EBMS:0009"
        ),
        soap!(
            "collaboration-info-with-an-unknown-child",
            in_work!(
                "<e:Service>s</e:Service><e:Action>a</e:Action>"
                "<e:ConversationId>c</e:ConversationId><e:x/>"
            ) => "refused EBMS:0009"
        ),
    ]
}

/// Service, action, conversation and agreement.
pub(crate) fn services() -> [Vector; 20] {
    [
        soap!(
            "service-missing",
            in_work!("<e:Action>a</e:Action><e:ConversationId>c</e:ConversationId>")
            => "refused EBMS:0009"
        ),
        soap!(
            "service-twice",
            in_work!(
                "<e:Service>s</e:Service><e:Service>s</e:Service><e:Action>a</e:Action>"
                "<e:ConversationId>c</e:ConversationId>"
            ) => "refused EBMS:0009"
        ),
        soap!(
            "service-empty",
            in_work!("<e:Service/><e:Action>a</e:Action><e:ConversationId>c</e:ConversationId>")
            => "refused EBMS:0009"
        ),
        soap!(
            "service-with-a-type",
            in_work!(
                "<e:Service type=\"t\"> s\n</e:Service><e:Action>a</e:Action>"
                "<e:ConversationId>c</e:ConversationId>"
            ) => "user m1@a"
        ),
        soap!(
            "service-with-an-ebms-child",
            in_work!(
                "<e:Service>s<e:x/></e:Service><e:Action>a</e:Action>"
                "<e:ConversationId>c</e:ConversationId>"
            ) => "refused EBMS:0009"
        ),
        soap!(
            "action-missing",
            in_work!("<e:Service>s</e:Service><e:ConversationId>c</e:ConversationId>")
            => "refused EBMS:0009"
        ),
        soap!(
            "action-twice",
            in_work!(
                "<e:Service>s</e:Service><e:Action>a</e:Action><e:Action>a</e:Action>"
                "<e:ConversationId>c</e:ConversationId>"
            ) => "refused EBMS:0009"
        ),
        soap!(
            "action-of-blanks",
            in_work!(
                "<e:Service>s</e:Service><e:Action>\t</e:Action>"
                "<e:ConversationId>c</e:ConversationId>"
            ) => "refused EBMS:0009"
        ),
        soap!(
            "conversation-missing",
            in_work!("<e:Service>s</e:Service><e:Action>a</e:Action>") => "refused EBMS:0009"
        ),
        soap!(
            "conversation-twice",
            in_work!(
                "<e:Service>s</e:Service><e:Action>a</e:Action>"
                "<e:ConversationId>c</e:ConversationId><e:ConversationId>c</e:ConversationId>"
            ) => "refused EBMS:0009"
        ),
        soap!(
            "conversation-empty",
            in_work!("<e:Service>s</e:Service><e:Action>a</e:Action><e:ConversationId/>")
            => "user m1@a"
        ),
        soap!(
            "conversation-empty-with-an-ebms-child",
            in_work!(
                "<e:Service>s</e:Service><e:Action>a</e:Action><e:ConversationId><e:x/>"
                "</e:ConversationId>"
            ) => "refused EBMS:0009"
        ),
        soap!(
            "agreement",
            in_work!(
                r#"<e:AgreementRef type="t" pmode="m">g</e:AgreementRef>"#
                "<e:Service>s</e:Service><e:Action>a</e:Action>"
                "<e:ConversationId>c</e:ConversationId>"
            ) => "user m1@a"
        ),
        soap!(
            "agreement-empty",
            in_work!(
                r#"<e:AgreementRef type="t"> </e:AgreementRef><e:Service>s</e:Service>"#
                "<e:Action>a</e:Action><e:ConversationId>c</e:ConversationId>"
            ) => "user m1@a"
        ),
        soap!(
            "agreement-twice",
            in_work!(
                "<e:AgreementRef>g</e:AgreementRef><e:AgreementRef>g</e:AgreementRef>"
                "<e:Service>s</e:Service><e:Action>a</e:Action>"
                "<e:ConversationId>c</e:ConversationId>"
            ) => "refused EBMS:0009"
        ),
        soap!(
            "agreement-empty-twice",
            in_work!(
                "<e:AgreementRef/><e:AgreementRef/><e:Service>s</e:Service>"
                "<e:Action>a</e:Action><e:ConversationId>c</e:ConversationId>"
            ) => "refused EBMS:0009"
        ),
        soap!(
            "agreement-empty-with-an-ebms-child",
            in_work!(
                "<e:AgreementRef><e:x/></e:AgreementRef><e:Service>s</e:Service>"
                "<e:Action>a</e:Action><e:ConversationId>c</e:ConversationId>"
            ) => "refused EBMS:0009"
        ),
        soap!("properties-none", in_properties!() => "user m1@a"),
        soap!(
            "property-without-a-value",
            in_properties!(r#"<e:Property name="n"/>"#) => "user m1@a"
        ),
        soap!(
            "property-without-a-name",
            in_properties!("<e:Property>v</e:Property>") => "refused EBMS:0009"
        ),
    ]
}

/// Properties, part infos, pull requests and receipts.
pub(crate) fn lists() -> [Vector; 20] {
    [
        soap!(
            "property-with-a-blank-name",
            in_properties!(r#"<e:Property name=" ">v</e:Property>"#) => "refused EBMS:0009"
        ),
        soap!(
            "property-with-a-name-in-a-namespace",
            in_properties!(r#"<e:Property e:name="n">v</e:Property>"#) => "refused EBMS:0009"
        ),
        soap!(
            "property-with-an-ebms-child",
            in_properties!(r#"<e:Property name="n">v<e:x/></e:Property>"#) => "refused EBMS:0009"
        ),
        soap!("properties-with-an-unknown-child", in_properties!("<e:x/>") => "refused EBMS:0009"),
        soap!(
            "properties-twice",
            messaging!(begin_user "<e:MessageProperties/><e:MessageProperties/>" end_user)
            => "refused EBMS:0009"
        ),
        soap!(
            "properties-257",
            in_properties!(
                sixteen_sixteens [r#"<e:Property name="n"/>"#]
                r#"<e:Property name="n"/>"#
            ) => "refused EBMS:0009"
        ),
        soap!(
            "payload-info-empty",
            messaging!(begin_user "<e:PayloadInfo/>" end_user) => "user m1@a"
        ),
        soap!(
            "payload-info-twice",
            messaging!(begin_user "<e:PayloadInfo/><e:PayloadInfo/>" end_user)
            => "refused EBMS:0009"
        ),
        soap!(
            "payload-info-with-an-unknown-child",
            messaging!(begin_user "<e:PayloadInfo><e:Schema/></e:PayloadInfo>" end_user)
            => "refused EBMS:0009"
        ),
        soap!(
            "part-info-with-two-lists-of-properties",
            messaging!(
                begin_user
                r#"<e:PayloadInfo><e:PartInfo href="cid:p"><e:PartProperties/>"#
                "<e:PartProperties/></e:PartInfo></e:PayloadInfo>"
                end_user
            ) => "refused EBMS:0009"
        ),
        soap!(
            "part-info-with-a-misspelled-property",
            messaging!(
                begin_user
                r#"<e:PayloadInfo><e:PartInfo href="cid:p"><e:PartProperties><e:Property/>"#
                "</e:PartProperties></e:PartInfo></e:PayloadInfo>"
                end_user
            ) => "refused EBMS:0009"
        ),
        soap!(
            "part-properties-with-an-unknown-child",
            messaging!(
                begin_user
                r#"<e:PayloadInfo><e:PartInfo href="cid:p"><e:PartProperties><e:x/>"#
                "</e:PartProperties></e:PartInfo></e:PayloadInfo>"
                end_user
            ) => "refused EBMS:0009"
        ),
        soap!(
            "part-infos-256",
            messaging!(
                begin_user
                "<e:PayloadInfo>"
                sixteen_sixteens ["<e:PartInfo/>"]
                "</e:PayloadInfo>"
                end_user
            ) => "refused EBMS:0009"
        ),
        soap!(
            "pull-request-without-a-channel",
            in_signal!("<e:PullRequest/>")
            => "pull http://docs.oasis-open.org/ebxml-msg/ebms/v3.0/ns/core/200704/defaultMPC"
        ),
        soap!(
            "pull-request-with-a-blank-channel",
            in_signal!(r#"<e:PullRequest mpc=" "/>"#)
            => "pull http://docs.oasis-open.org/ebxml-msg/ebms/v3.0/ns/core/200704/defaultMPC"
        ),
        soap!(
            "pull-request-with-a-channel-in-a-namespace",
            in_signal!(r#"<e:PullRequest e:mpc="c"/>"#)
            => "pull http://docs.oasis-open.org/ebxml-msg/ebms/v3.0/ns/core/200704/defaultMPC"
        ),
        soap!(
            "pull-request-with-an-ebms-child",
            in_signal!(r#"<e:PullRequest mpc="c"><e:x/></e:PullRequest>"#) => "refused EBMS:0009"
        ),
        soap!("receipt-without-a-reference", in_signal!("<e:Receipt/>") => "refused EBMS:0009"),
        soap!(
            "receipt-with-a-copy",
            in_answer!("<e:Receipt>" user "</e:Receipt>") => "receipt m1@a"
        ),
        soap!(
            "receipt-with-two-copies",
            in_answer!("<e:Receipt>" user user "</e:Receipt>") => "refused EBMS:0009"
        ),
    ]
}

/// Receipts' copies, and errors.
pub(crate) fn errors() -> [Vector; 20] {
    [
        soap!(
            "receipt-twice-in-a-signal",
            in_answer!("<e:Receipt/><e:Receipt/>") => "refused EBMS:0009"
        ),
        soap!(
            "receipt-with-other-children",
            in_answer!("<e:Receipt>a<x><e:UserMessage/></x><e:y/></e:Receipt>") => "receipt m1@a"
        ),
        soap!(
            "receipt-with-a-misspelled-copy",
            in_answer!("<e:Receipt><e:UserMessage/></e:Receipt>") => "refused EBMS:0009"
        ),
        soap!(
            "errors-2",
            in_signal!(
                r#"<e:Error errorCode="EBMS:0004" severity="failure"/>"#
                r#"<e:Error severity="warning" errorCode="x"/>"#
            ) => "errors 2"
        ),
        soap!(
            "errors-257",
            in_signal!(
                sixteen_sixteens [r#"<e:Error errorCode="x" severity="failure"/>"#]
                r#"<e:Error errorCode="x" severity="failure"/>"#
            ) => "refused EBMS:0009"
        ),
        soap!(
            "errors-of-which-one-is-misspelled",
            in_signal!(r#"<e:Error errorCode="x" severity="failure"/><e:Error errorCode="x"/>"#)
            => "refused EBMS:0009"
        ),
        soap!(
            "error-with-everything",
            in_signal!(
                "<e:Error category=\"c\" errorCode=\" EBMS:0004\n\" origin=\"o\""
                r#" refToMessageInError=" m1@a " severity="failure" shortDescription="d" x="y">"#
                "<e:ErrorDetail> e </e:ErrorDetail><z/>"
                r#"<e:Description xml:lang="en">f</e:Description></e:Error>"#
            ) => "errors 1"
        ),
        soap!(
            "error-with-empty-values",
            in_signal!(
                r#"<e:Error errorCode="x" severity="warning" origin="" category=" ""#
                r#" refToMessageInError="" shortDescription="">"#
                "<e:Description/><e:ErrorDetail> </e:ErrorDetail></e:Error>"
            ) => "errors 1"
        ),
        soap!(
            "error-without-a-code",
            in_signal!(r#"<e:Error severity="failure"/>"#) => "refused EBMS:0009"
        ),
        soap!(
            "error-with-a-blank-code",
            in_signal!(r#"<e:Error errorCode=" " severity="failure"/>"#) => "refused EBMS:0009"
        ),
        soap!(
            "error-with-a-code-of-two-words",
            in_signal!(r#"<e:Error errorCode="a b" severity="failure"/>"#) => "refused EBMS:0009"
        ),
        soap!(
            "error-with-a-code-of-64-bytes",
            in_signal!(r#"<e:Error errorCode=""# sixteen ["EBMS"] r#"" severity="failure"/>"#)
            => "errors 1"
        ),
        soap!(
            "error-with-a-code-of-65-bytes",
            in_signal!(r#"<e:Error errorCode=""# sixteen ["EBMS"] r#"x" severity="failure"/>"#)
            => "refused EBMS:0009"
        ),
        soap!(
            "error-without-a-severity",
            in_signal!(r#"<e:Error errorCode="x"/>"#) => "refused EBMS:0009"
        ),
        soap!(
            "error-with-a-severity-in-capitals",
            in_signal!(r#"<e:Error errorCode="x" severity="Failure"/>"#) => "refused EBMS:0009"
        ),
        soap!(
            "error-with-blanks-around-its-severity",
            in_signal!(r#"<e:Error errorCode="x" severity=" failure"/>"#) => "refused EBMS:0009"
        ),
        soap!(
            "error-about-no-identifier",
            in_signal!(r#"<e:Error errorCode="x" severity="failure" refToMessageInError="a b"/>"#)
            => "refused EBMS:0009"
        ),
        soap!(
            "error-with-two-descriptions",
            in_signal!(
                r#"<e:Error errorCode="x" severity="failure"><e:Description/>"#
                "<e:Description>d</e:Description></e:Error>"
            ) => "refused EBMS:0009"
        ),
        soap!(
            "error-with-two-details",
            in_signal!(
                r#"<e:Error errorCode="x" severity="failure"><e:ErrorDetail/><e:ErrorDetail/>"#
                "</e:Error>"
            ) => "refused EBMS:0009"
        ),
        soap!(
            "error-with-an-unknown-child",
            in_signal!(r#"<e:Error errorCode="x" severity="failure"><e:x/></e:Error>"#)
            => "refused EBMS:0009"
        ),
    ]
}
