//! Scripts of a drill, with their transcripts.
use crate::pieces::{lines, script, wrong};
use conformance::Play;

/// Messages that are pushed.
pub(crate) fn pushes() -> [Play; 20] {
    [
        script!(
            "script-empty",
            ""
            => lines!("a end 0 0 0 0 0" "b end 0 0 0 0 0")
        ),
        script!(
            "modes-alone",
            lines!("mode m push 0 1" "mode n0 pull 1000 1000000000")
            => lines!("a end 0 0 0 0 0" "b end 0 0 0 0 0")
        ),
        script!(
            "push-and-receipt",
            lines!(
                "mode m push 3 1000"
                "submit a m hex=68656c6c6f"
                "take a"
                "came b 0"
                "came a 0"
                "status a 0"
                "read b 0"
            )
            => lines!(
                "a submitted 0 0.00000000-0000-0000-0000-000000000000@as4"
                "a sent 0 user 0.00000000-0000-0000-0000-000000000000@as4"
                "b sent 0 receipt 0.00000000-0000-0000-0000-000000000000@as4"
                "a quiet"
                "a status 0 receipted"
                "b entry 0 0.00000000-0000-0000-0000-000000000000@as4 1 5"
                "a end 1 1 0 0 0"
                "b end 0 0 0 0 1"
            )
        ),
        script!(
            "push-of-no-load",
            lines!("mode m push 0 1" "submit a m none" "take a" "came b 0" "read b 0")
            => lines!(
                "a submitted 0 0.00000000-0000-0000-0000-000000000000@as4"
                "a sent 0 user 0.00000000-0000-0000-0000-000000000000@as4"
                "b sent 0 receipt 0.00000000-0000-0000-0000-000000000000@as4"
                "b entry 0 0.00000000-0000-0000-0000-000000000000@as4 0 0"
                "a end 1 0 0 0 0"
                "b end 0 0 0 0 1"
            )
        ),
        script!(
            "push-of-an-empty-load",
            lines!("mode m push 0 1" "submit a m hex=" "take a" "came b 0" "read b 0")
            => lines!(
                "a submitted 0 0.00000000-0000-0000-0000-000000000000@as4"
                "a sent 0 user 0.00000000-0000-0000-0000-000000000000@as4"
                "b sent 0 receipt 0.00000000-0000-0000-0000-000000000000@as4"
                "b entry 0 0.00000000-0000-0000-0000-000000000000@as4 1 0"
                "a end 1 0 0 0 0"
                "b end 0 0 0 0 1"
            )
        ),
        script!(
            "push-of-a-sized-load",
            lines!("mode m push 0 1" "submit a m size=300" "take a" "came b 0" "read b 0")
            => lines!(
                "a submitted 0 0.00000000-0000-0000-0000-000000000000@as4"
                "a sent 0 user 0.00000000-0000-0000-0000-000000000000@as4"
                "b sent 0 receipt 0.00000000-0000-0000-0000-000000000000@as4"
                "b entry 0 0.00000000-0000-0000-0000-000000000000@as4 1 300"
                "a end 1 0 0 0 0"
                "b end 0 0 0 0 1"
            )
        ),
        script!(
            "receipt-lost-and-made-again",
            lines!(
                "mode m push 3 1000"
                "submit a m hex=00"
                "take a"
                "lost b 0"
                "came b 0"
                "came b 0"
                "came a 1"
                "came a 0"
                "lost a 0"
                "status a 0"
            )
            => lines!(
                "a submitted 0 0.00000000-0000-0000-0000-000000000000@as4"
                "a sent 0 user 0.00000000-0000-0000-0000-000000000000@as4"
                "b lost receipt 0.00000000-0000-0000-0000-000000000000@as4"
                "b sent 0 receipt 0.00000000-0000-0000-0000-000000000000@as4"
                "b sent 1 receipt 0.00000000-0000-0000-0000-000000000000@as4"
                "a quiet"
                "a quiet"
                "a quiet"
                "a status 0 receipted"
                "a end 1 1 0 0 0"
                "b end 0 0 0 0 1"
            )
        ),
        script!(
            "message-that-comes-thrice-is-kept-once",
            lines!(
                "mode m push 0 1"
                "submit a m hex=61"
                "take a"
                "came b 0"
                "came b 0"
                "came b 0"
                "read b 0"
                "read b 1"
            )
            => lines!(
                "a submitted 0 0.00000000-0000-0000-0000-000000000000@as4"
                "a sent 0 user 0.00000000-0000-0000-0000-000000000000@as4"
                "b sent 0 receipt 0.00000000-0000-0000-0000-000000000000@as4"
                "b sent 1 receipt 0.00000000-0000-0000-0000-000000000000@as4"
                "b sent 2 receipt 0.00000000-0000-0000-0000-000000000000@as4"
                "b entry 0 0.00000000-0000-0000-0000-000000000000@as4 1 1"
                "b no-entry"
                "a end 1 0 0 0 0"
                "b end 0 0 0 0 1"
            )
        ),
        script!(
            "message-lost-and-sent-again",
            lines!(
                "mode m push 1 10"
                "submit a m hex=61"
                "take a"
                "tick a 10"
                "take a"
                "came b 1"
                "came b 0"
                "came a 0"
                "take a"
            )
            => lines!(
                "a submitted 0 0.00000000-0000-0000-0000-000000000000@as4"
                "a sent 0 user 0.00000000-0000-0000-0000-000000000000@as4"
                "a ticked 0"
                "a sent 1 user 0.00000000-0000-0000-0000-000000000000@as4"
                "b sent 0 receipt 0.00000000-0000-0000-0000-000000000000@as4"
                "b sent 1 receipt 0.00000000-0000-0000-0000-000000000000@as4"
                "a quiet"
                "a nothing"
                "a end 1 1 0 0 0"
                "b end 0 0 0 0 1"
            )
        ),
        script!(
            "submit-under-no-mode",
            lines!("mode m push 0 1" "submit a x none" "submit a m none")
            => lines!(
                "a no-mode"
                "a submitted 0 0.00000000-0000-0000-0000-000000000001@as4"
                "a end 1 0 0 0 0"
                "b end 0 0 0 0 0"
            )
        ),
        script!(
            "take-of-nothing",
            lines!("mode m push 0 1" "take a" "take b")
            => lines!("a nothing" "b nothing" "a end 0 0 0 0 0" "b end 0 0 0 0 0")
        ),
        script!(
            "retries-until-spent",
            lines!(
                "mode m push 1 1000"
                "submit a m hex=61"
                "take a"
                "take a"
                "tick a 999"
                "take a"
                "tick a 1000"
                "status a 0"
                "take a"
                "take a"
                "tick a 1999"
                "status a 0"
                "tick a 2000"
                "status a 0"
                "take a"
            )
            => lines!(
                "a submitted 0 0.00000000-0000-0000-0000-000000000000@as4"
                "a sent 0 user 0.00000000-0000-0000-0000-000000000000@as4"
                "a nothing"
                "a ticked 0"
                "a nothing"
                "a ticked 0"
                "a status 0 pending 1"
                "a sent 1 user 0.00000000-0000-0000-0000-000000000000@as4"
                "a nothing"
                "a ticked 0"
                "a status 0 pending 2"
                "a ticked 1"
                "a status 0 failed EBMS:0301"
                "a nothing"
                "a end 1 0 1 0 0"
                "b end 0 0 0 0 0"
            )
        ),
        script!(
            "no-retries",
            lines!(
                "mode m push 0 1000"
                "submit a m none"
                "status a 0"
                "tick a 5000"
                "status a 0"
                "take a"
                "tick a 5999"
                "status a 0"
                "tick a 6000"
                "status a 0"
            )
            => lines!(
                "a submitted 0 0.00000000-0000-0000-0000-000000000000@as4"
                "a status 0 pending 0"
                "a ticked 0"
                "a status 0 pending 0"
                "a sent 0 user 0.00000000-0000-0000-0000-000000000000@as4"
                "a ticked 0"
                "a status 0 pending 1"
                "a ticked 1"
                "a status 0 failed EBMS:0301"
                "a end 1 0 1 0 0"
                "b end 0 0 0 0 0"
            )
        ),
        script!(
            "one-tick-ends-many",
            lines!(
                "mode m push 0 10"
                "mode n push 1 10"
                "submit a m none"
                "submit a m none"
                "submit a n none"
                "take a"
                "take a"
                "take a"
                "tick a 10"
                "status a 1"
                "status a 2"
            )
            => lines!(
                "a submitted 0 0.00000000-0000-0000-0000-000000000000@as4"
                "a submitted 1 1.00000000-0000-0000-0000-000000000001@as4"
                "a submitted 2 2.00000000-0000-0000-0000-000000000002@as4"
                "a sent 0 user 0.00000000-0000-0000-0000-000000000000@as4"
                "a sent 1 user 1.00000000-0000-0000-0000-000000000001@as4"
                "a sent 2 user 2.00000000-0000-0000-0000-000000000002@as4"
                "a ticked 2"
                "a status 1 failed EBMS:0301"
                "a status 2 pending 1"
                "a end 3 0 2 0 0"
                "b end 0 0 0 0 0"
            )
        ),
        script!(
            "late-receipt-changes-nothing",
            lines!(
                "mode m push 0 1"
                "submit a m none"
                "take a"
                "came b 0"
                "tick a 1"
                "came a 0"
                "status a 0"
                "read b 0"
            )
            => lines!(
                "a submitted 0 0.00000000-0000-0000-0000-000000000000@as4"
                "a sent 0 user 0.00000000-0000-0000-0000-000000000000@as4"
                "b sent 0 receipt 0.00000000-0000-0000-0000-000000000000@as4"
                "a ticked 1"
                "a quiet"
                "a status 0 failed EBMS:0301"
                "b entry 0 0.00000000-0000-0000-0000-000000000000@as4 0 0"
                "a end 1 0 1 0 0"
                "b end 0 0 0 0 1"
            )
        ),
        script!(
            "receipt-before-the-last-moment",
            lines!(
                "mode m push 0 10"
                "submit a m none"
                "take a"
                "came b 0"
                "tick a 9"
                "came a 0"
                "tick a 10"
                "status a 0"
            )
            => lines!(
                "a submitted 0 0.00000000-0000-0000-0000-000000000000@as4"
                "a sent 0 user 0.00000000-0000-0000-0000-000000000000@as4"
                "b sent 0 receipt 0.00000000-0000-0000-0000-000000000000@as4"
                "a ticked 0"
                "a quiet"
                "a ticked 0"
                "a status 0 receipted"
                "a end 1 1 0 0 0"
                "b end 0 0 0 0 1"
            )
        ),
        script!(
            "clock-moves-forward-alone",
            lines!(
                "mode m push 1 10"
                "tick a 5"
                "tick a 4"
                "tick a 5"
                "submit a m none"
                "take a"
                "tick a 14"
                "take a"
                "tick a 15"
                "take a"
            )
            => lines!(
                "a ticked 0"
                "a ticked 0"
                "a ticked 0"
                "a submitted 0 0.00000000-0000-0000-0000-000000000003@as4"
                "a sent 0 user 0.00000000-0000-0000-0000-000000000003@as4"
                "a ticked 0"
                "a nothing"
                "a ticked 0"
                "a sent 1 user 0.00000000-0000-0000-0000-000000000003@as4"
                "a end 1 0 0 0 0"
                "b end 0 0 0 0 0"
            )
        ),
        script!(
            "clocks-of-two-ends",
            lines!(
                "mode m push 1 10"
                "submit a m none"
                "take a"
                "tick b 10"
                "take a"
                "tick a 10"
                "take a"
            )
            => lines!(
                "a submitted 0 0.00000000-0000-0000-0000-000000000000@as4"
                "a sent 0 user 0.00000000-0000-0000-0000-000000000000@as4"
                "b ticked 0"
                "a nothing"
                "a ticked 0"
                "a sent 1 user 0.00000000-0000-0000-0000-000000000000@as4"
                "a end 1 0 0 0 0"
                "b end 0 0 0 0 0"
            )
        ),
        script!(
            "order-by-due-moment-then-number",
            lines!(
                "mode m push 3 1000"
                "mode n push 3 500"
                "submit a m none"
                "submit a n none"
                "take a"
                "take a"
                "take a"
                "tick a 500"
                "take a"
                "tick a 1000"
                "take a"
                "take a"
                "take a"
            )
            => lines!(
                "a submitted 0 0.00000000-0000-0000-0000-000000000000@as4"
                "a submitted 1 1.00000000-0000-0000-0000-000000000001@as4"
                "a sent 0 user 0.00000000-0000-0000-0000-000000000000@as4"
                "a sent 1 user 1.00000000-0000-0000-0000-000000000001@as4"
                "a nothing"
                "a ticked 0"
                "a sent 2 user 1.00000000-0000-0000-0000-000000000001@as4"
                "a ticked 0"
                "a sent 3 user 0.00000000-0000-0000-0000-000000000000@as4"
                "a sent 4 user 1.00000000-0000-0000-0000-000000000001@as4"
                "a nothing"
                "a end 2 0 0 0 0"
                "b end 0 0 0 0 0"
            )
        ),
        script!(
            "order-of-a-retry-and-a-later-submission",
            lines!(
                "mode m push 3 10"
                "submit a m none"
                "take a"
                "tick a 5"
                "submit a m none"
                "tick a 10"
                "take a"
                "take a"
                "take a"
            )
            => lines!(
                "a submitted 0 0.00000000-0000-0000-0000-000000000000@as4"
                "a sent 0 user 0.00000000-0000-0000-0000-000000000000@as4"
                "a ticked 0"
                "a submitted 1 1.00000000-0000-0000-0000-000000000003@as4"
                "a ticked 0"
                "a sent 1 user 1.00000000-0000-0000-0000-000000000003@as4"
                "a sent 2 user 0.00000000-0000-0000-0000-000000000000@as4"
                "a nothing"
                "a end 2 0 0 0 0"
                "b end 0 0 0 0 0"
            )
        ),
    ]
}

/// Both ends, inboxes, channels and pairs.
pub(crate) fn pulls() -> [Play; 20] {
    [
        script!(
            "both-ends-submit",
            lines!(
                "mode m push 1 10"
                "submit a m hex=61"
                "submit b m hex=6262"
                "take a"
                "take b"
                "came a 0"
                "came b 0"
                "came a 1"
                "came b 1"
                "read a 0"
                "read b 0"
            )
            => lines!(
                "a submitted 0 0.00000000-0000-0000-0000-000000000000@as4"
                "b submitted 0 0.00000000-0000-0000-0000-000000000001@as4"
                "a sent 0 user 0.00000000-0000-0000-0000-000000000000@as4"
                "b sent 0 user 0.00000000-0000-0000-0000-000000000001@as4"
                "a sent 1 receipt 0.00000000-0000-0000-0000-000000000001@as4"
                "b sent 1 receipt 0.00000000-0000-0000-0000-000000000000@as4"
                "a quiet"
                "b quiet"
                "a entry 0 0.00000000-0000-0000-0000-000000000001@as4 1 2"
                "b entry 0 0.00000000-0000-0000-0000-000000000000@as4 1 1"
                "a end 1 1 0 0 1"
                "b end 1 1 0 0 1"
            )
        ),
        script!(
            "package-that-isnt-there",
            lines!(
                "mode m push 0 1"
                "came b 0"
                "lost a 7"
                "came a 18446744073709551615"
                "submit a m none"
                "take a"
                "came a 0"
                "came b 1"
            )
            => lines!(
                "b no-package"
                "a no-package"
                "a no-package"
                "a submitted 0 0.00000000-0000-0000-0000-000000000000@as4"
                "a sent 0 user 0.00000000-0000-0000-0000-000000000000@as4"
                "a no-package"
                "b no-package"
                "a end 1 0 0 0 0"
                "b end 0 0 0 0 0"
            )
        ),
        script!(
            "status-of-no-submission",
            lines!(
                "mode m push 0 1"
                "status a 0"
                "status b 18446744073709551615"
                "submit a m none"
                "status a 0"
                "status a 1"
                "status b 0"
                "submit a m none"
            )
            => lines!(
                "a status 0 unknown"
                "b status 18446744073709551615 unknown"
                "a submitted 0 0.00000000-0000-0000-0000-000000000000@as4"
                "a status 0 pending 0"
                "a status 1 unknown"
                "b status 0 unknown"
                "a submitted 1 1.00000000-0000-0000-0000-000000000002@as4"
                "a end 2 0 0 0 0"
                "b end 0 0 0 0 0"
            )
        ),
        script!(
            "read-and-confirm",
            lines!(
                "mode m push 0 1"
                "submit a m none"
                "submit a m none"
                "submit a m none"
                "take a"
                "take a"
                "take a"
                "came b 0"
                "came b 1"
                "came b 2"
                "confirm b 3"
                "confirm b 1"
                "read b 0"
                "read b 1"
                "read b 2"
                "confirm b 0"
                "confirm b 1"
                "came b 0"
                "confirm b 2"
                "read b 3"
            )
            => lines!(
                "a submitted 0 0.00000000-0000-0000-0000-000000000000@as4"
                "a submitted 1 1.00000000-0000-0000-0000-000000000001@as4"
                "a submitted 2 2.00000000-0000-0000-0000-000000000002@as4"
                "a sent 0 user 0.00000000-0000-0000-0000-000000000000@as4"
                "a sent 1 user 1.00000000-0000-0000-0000-000000000001@as4"
                "a sent 2 user 2.00000000-0000-0000-0000-000000000002@as4"
                "b sent 0 receipt 0.00000000-0000-0000-0000-000000000000@as4"
                "b sent 1 receipt 1.00000000-0000-0000-0000-000000000001@as4"
                "b sent 2 receipt 2.00000000-0000-0000-0000-000000000002@as4"
                "b no-entry"
                "b confirmed 1"
                "b gone"
                "b gone"
                "b entry 2 2.00000000-0000-0000-0000-000000000002@as4 0 0"
                "b gone"
                "b gone"
                "b sent 3 receipt 0.00000000-0000-0000-0000-000000000000@as4"
                "b confirmed 2"
                "b no-entry"
                "a end 3 0 0 0 0"
                "b end 0 0 0 0 3"
            )
        ),
        script!(
            "read-of-an-empty-inbox",
            lines!("read a 0" "confirm b 0" "read b 18446744073709551615")
            => lines!("a no-entry" "b no-entry" "b no-entry" "a end 0 0 0 0 0" "b end 0 0 0 0 0")
        ),
        script!(
            "inbox-in-the-order-of-arrival",
            lines!(
                "mode m push 0 1"
                "submit a m hex=61"
                "submit a m hex=6262"
                "take a"
                "take a"
                "came b 1"
                "came b 0"
                "read b 0"
                "read b 1"
            )
            => lines!(
                "a submitted 0 0.00000000-0000-0000-0000-000000000000@as4"
                "a submitted 1 1.00000000-0000-0000-0000-000000000001@as4"
                "a sent 0 user 0.00000000-0000-0000-0000-000000000000@as4"
                "a sent 1 user 1.00000000-0000-0000-0000-000000000001@as4"
                "b sent 0 receipt 1.00000000-0000-0000-0000-000000000001@as4"
                "b sent 1 receipt 0.00000000-0000-0000-0000-000000000000@as4"
                "b entry 0 1.00000000-0000-0000-0000-000000000001@as4 1 2"
                "b entry 1 0.00000000-0000-0000-0000-000000000000@as4 1 1"
                "a end 2 0 0 0 0"
                "b end 0 0 0 0 2"
            )
        ),
        script!(
            "pull-of-an-empty-channel",
            lines!("mode m pull 3 1000" "ask b m" "came a 0" "came b 0")
            => lines!(
                "b sent 0 pull drill-m"
                "a sent 0 error EBMS:0006"
                "b quiet"
                "a end 0 0 0 0 0"
                "b end 0 0 0 0 0"
            )
        ),
        script!(
            "pull-until-the-channel-is-empty",
            lines!(
                "mode m pull 3 1000"
                "submit a m hex=31"
                "submit a m hex=32"
                "ask b m"
                "came a 0"
                "came a 0"
                "came a 0"
                "tick a 1000"
                "came a 0"
                "came b 0"
                "came a 1"
                "came a 0"
            )
            => lines!(
                "a submitted 0 0.00000000-0000-0000-0000-000000000000@as4"
                "a submitted 1 1.00000000-0000-0000-0000-000000000001@as4"
                "b sent 0 pull drill-m"
                "a sent 0 user 0.00000000-0000-0000-0000-000000000000@as4"
                "a sent 1 user 1.00000000-0000-0000-0000-000000000001@as4"
                "a sent 2 error EBMS:0006"
                "a ticked 0"
                "a sent 3 user 0.00000000-0000-0000-0000-000000000000@as4"
                "b sent 1 receipt 0.00000000-0000-0000-0000-000000000000@as4"
                "a quiet"
                "a sent 4 user 1.00000000-0000-0000-0000-000000000001@as4"
                "a end 2 1 0 0 0"
                "b end 0 0 0 0 1"
            )
        ),
        script!(
            "pull-whose-reply-is-lost",
            lines!(
                "mode m pull 1 10"
                "submit a m none"
                "ask b m"
                "lost a 0"
                "came a 0"
                "status a 0"
                "tick a 10"
                "came a 0"
                "tick a 20"
                "status a 0"
            )
            => lines!(
                "a submitted 0 0.00000000-0000-0000-0000-000000000000@as4"
                "b sent 0 pull drill-m"
                "a lost user 0.00000000-0000-0000-0000-000000000000@as4"
                "a sent 0 error EBMS:0006"
                "a status 0 pending 1"
                "a ticked 0"
                "a sent 1 user 0.00000000-0000-0000-0000-000000000000@as4"
                "a ticked 1"
                "a status 0 failed EBMS:0301"
                "a end 1 0 1 0 0"
                "b end 0 0 0 0 0"
            )
        ),
        script!(
            "pull-of-one-of-two-channels",
            lines!(
                "mode m pull 0 10"
                "mode n pull 0 10"
                "submit a n none"
                "ask b m"
                "came a 0"
                "ask b n"
                "came a 1"
            )
            => lines!(
                "a submitted 0 0.00000000-0000-0000-0000-000000000000@as4"
                "b sent 0 pull drill-m"
                "a sent 0 error EBMS:0006"
                "b sent 1 pull drill-n"
                "a sent 1 user 0.00000000-0000-0000-0000-000000000000@as4"
                "a end 1 0 0 0 0"
                "b end 0 0 0 0 0"
            )
        ),
        script!(
            "push-and-pull-are-apart",
            lines!(
                "mode m pull 0 10"
                "mode n push 0 10"
                "submit a m none"
                "take a"
                "submit a n none"
                "take a"
                "ask b m"
                "came a 0"
            )
            => lines!(
                "a submitted 0 0.00000000-0000-0000-0000-000000000000@as4"
                "a nothing"
                "a submitted 1 1.00000000-0000-0000-0000-000000000002@as4"
                "a sent 0 user 1.00000000-0000-0000-0000-000000000002@as4"
                "b sent 0 pull drill-m"
                "a sent 1 user 0.00000000-0000-0000-0000-000000000000@as4"
                "a end 2 0 0 0 0"
                "b end 0 0 0 0 0"
            )
        ),
        script!(
            "pull-under-no-pull-mode",
            lines!("mode m push 0 1" "ask b m" "ask b x" "submit a m none")
            => lines!(
                "b no-mode"
                "b no-mode"
                "a submitted 0 0.00000000-0000-0000-0000-000000000002@as4"
                "a end 1 0 0 0 0"
                "b end 0 0 0 0 0"
            )
        ),
        script!(
            "pull-from-the-other-end",
            lines!(
                "mode m pull 0 1"
                "submit b m hex=61"
                "ask a m"
                "came b 0"
                "came a 0"
                "came b 1"
                "read a 0"
            )
            => lines!(
                "b submitted 0 0.00000000-0000-0000-0000-000000000000@as4"
                "a sent 0 pull drill-m"
                "b sent 0 user 0.00000000-0000-0000-0000-000000000000@as4"
                "a sent 1 receipt 0.00000000-0000-0000-0000-000000000000@as4"
                "b quiet"
                "a entry 0 0.00000000-0000-0000-0000-000000000000@as4 1 1"
                "a end 0 0 0 0 1"
                "b end 1 1 0 0 0"
            )
        ),
        script!(
            "pull-after-the-receipt",
            lines!(
                "mode m pull 3 10"
                "submit a m none"
                "ask b m"
                "came a 0"
                "came b 0"
                "came a 1"
                "tick a 10"
                "came a 0"
            )
            => lines!(
                "a submitted 0 0.00000000-0000-0000-0000-000000000000@as4"
                "b sent 0 pull drill-m"
                "a sent 0 user 0.00000000-0000-0000-0000-000000000000@as4"
                "b sent 1 receipt 0.00000000-0000-0000-0000-000000000000@as4"
                "a quiet"
                "a ticked 0"
                "a sent 1 error EBMS:0006"
                "a end 1 1 0 0 0"
                "b end 0 0 0 0 1"
            )
        ),
        script!(
            "pair-settles-one-and-fetches-the-next",
            lines!(
                "mode m pull 3 1000"
                "submit a m hex=31"
                "submit a m hex=32"
                "ask b m"
                "came a 0"
                "came b 0"
                "pair b m 0"
                "came a 2"
                "came a 2"
                "status a 0"
            )
            => lines!(
                "a submitted 0 0.00000000-0000-0000-0000-000000000000@as4"
                "a submitted 1 1.00000000-0000-0000-0000-000000000001@as4"
                "b sent 0 pull drill-m"
                "a sent 0 user 0.00000000-0000-0000-0000-000000000000@as4"
                "b sent 1 receipt 0.00000000-0000-0000-0000-000000000000@as4"
                "b sent 2 pair 0.00000000-0000-0000-0000-000000000000@as4 drill-m"
                "a sent 1 user 1.00000000-0000-0000-0000-000000000001@as4"
                "a sent 2 error EBMS:0006"
                "a status 0 receipted"
                "a end 2 1 0 0 0"
                "b end 0 0 0 0 1"
            )
        ),
        script!(
            "pair-settles-what-it-would-fetch",
            lines!(
                "mode m pull 3 10"
                "submit a m none"
                "ask b m"
                "came a 0"
                "came b 0"
                "pair b m 0"
                "tick a 10"
                "came a 2"
                "status a 0"
            )
            => lines!(
                "a submitted 0 0.00000000-0000-0000-0000-000000000000@as4"
                "b sent 0 pull drill-m"
                "a sent 0 user 0.00000000-0000-0000-0000-000000000000@as4"
                "b sent 1 receipt 0.00000000-0000-0000-0000-000000000000@as4"
                "b sent 2 pair 0.00000000-0000-0000-0000-000000000000@as4 drill-m"
                "a ticked 0"
                "a sent 1 error EBMS:0006"
                "a status 0 receipted"
                "a end 1 1 0 0 0"
                "b end 0 0 0 0 1"
            )
        ),
        script!(
            "pair-whose-reply-is-lost",
            lines!(
                "mode m pull 3 1000"
                "submit a m none"
                "submit a m none"
                "ask b m"
                "came a 0"
                "came b 0"
                "pair b m 0"
                "lost a 2"
                "status a 0"
                "status a 1"
            )
            => lines!(
                "a submitted 0 0.00000000-0000-0000-0000-000000000000@as4"
                "a submitted 1 1.00000000-0000-0000-0000-000000000001@as4"
                "b sent 0 pull drill-m"
                "a sent 0 user 0.00000000-0000-0000-0000-000000000000@as4"
                "b sent 1 receipt 0.00000000-0000-0000-0000-000000000000@as4"
                "b sent 2 pair 0.00000000-0000-0000-0000-000000000000@as4 drill-m"
                "a lost user 1.00000000-0000-0000-0000-000000000001@as4"
                "a status 0 receipted"
                "a status 1 pending 1"
                "a end 2 1 0 0 0"
                "b end 0 0 0 0 1"
            )
        ),
        script!(
            "pair-of-a-pushed-message-on-a-channel",
            lines!(
                "mode m push 0 1"
                "mode n pull 0 1"
                "submit a m none"
                "submit a n none"
                "take a"
                "came b 0"
                "pair b n 0"
                "came a 1"
            )
            => lines!(
                "a submitted 0 0.00000000-0000-0000-0000-000000000000@as4"
                "a submitted 1 1.00000000-0000-0000-0000-000000000001@as4"
                "a sent 0 user 0.00000000-0000-0000-0000-000000000000@as4"
                "b sent 0 receipt 0.00000000-0000-0000-0000-000000000000@as4"
                "b sent 1 pair 0.00000000-0000-0000-0000-000000000000@as4 drill-n"
                "a sent 1 user 1.00000000-0000-0000-0000-000000000001@as4"
                "a end 2 1 0 0 0"
                "b end 0 0 0 0 1"
            )
        ),
        script!(
            "pair-of-no-entry",
            lines!(
                "mode m pull 3 1000"
                "mode n push 0 1"
                "pair b m 0"
                "pair b n 0"
                "pair b x 18446744073709551615"
                "submit a m none"
            )
            => lines!(
                "b no-entry"
                "b no-mode"
                "b no-mode"
                "a submitted 0 0.00000000-0000-0000-0000-000000000003@as4"
                "a end 1 0 0 0 0"
                "b end 0 0 0 0 0"
            )
        ),
        script!(
            "pair-of-a-confirmed-entry",
            lines!(
                "mode m pull 0 1"
                "submit a m none"
                "ask b m"
                "came a 0"
                "came b 0"
                "confirm b 0"
                "pair b m 0"
                "pair b m 1"
            )
            => lines!(
                "a submitted 0 0.00000000-0000-0000-0000-000000000000@as4"
                "b sent 0 pull drill-m"
                "a sent 0 user 0.00000000-0000-0000-0000-000000000000@as4"
                "b sent 1 receipt 0.00000000-0000-0000-0000-000000000000@as4"
                "b confirmed 0"
                "b gone"
                "b no-entry"
                "a end 1 0 0 0 0"
                "b end 0 0 0 0 1"
            )
        ),
    ]
}

/// Crashes, stopped lines and folds.
pub(crate) fn crashes() -> [Play; 20] {
    [
        script!(
            "crash-keeps-what-was-done",
            lines!(
                "mode m push 3 1000"
                "submit a m hex=61"
                "crash a"
                "take a"
                "crash a"
                "came b 0"
                "crash b"
                "read b 0"
                "came a 0"
                "crash a"
                "status a 0"
                "crash b"
            )
            => lines!(
                "a submitted 0 0.00000000-0000-0000-0000-000000000000@as4"
                "a reopened"
                "a sent 0 user 0.00000000-0000-0000-0000-000000000000@as4"
                "a reopened"
                "b sent 0 receipt 0.00000000-0000-0000-0000-000000000000@as4"
                "b reopened"
                "b entry 0 0.00000000-0000-0000-0000-000000000000@as4 1 1"
                "a quiet"
                "a reopened"
                "a status 0 receipted"
                "b reopened"
                "a end 1 1 0 0 0"
                "b end 0 0 0 0 1"
            )
        ),
        script!(
            "crash-keeps-the-clock",
            lines!(
                "mode m push 1 10"
                "tick a 7"
                "crash a"
                "submit a m none"
                "take a"
                "tick a 16"
                "crash a"
                "take a"
                "tick a 17"
                "take a"
            )
            => lines!(
                "a ticked 0"
                "a reopened"
                "a submitted 0 0.00000000-0000-0000-0000-000000000001@as4"
                "a sent 0 user 0.00000000-0000-0000-0000-000000000001@as4"
                "a ticked 0"
                "a reopened"
                "a nothing"
                "a ticked 0"
                "a sent 1 user 0.00000000-0000-0000-0000-000000000001@as4"
                "a end 1 0 0 0 0"
                "b end 0 0 0 0 0"
            )
        ),
        script!(
            "crash-keeps-packages-on-their-way",
            lines!(
                "mode m push 0 1"
                "crash b"
                "submit a m none"
                "take a"
                "crash a"
                "crash b"
                "came b 0"
            )
            => lines!(
                "b reopened"
                "a submitted 0 0.00000000-0000-0000-0000-000000000000@as4"
                "a sent 0 user 0.00000000-0000-0000-0000-000000000000@as4"
                "a reopened"
                "b reopened"
                "b sent 0 receipt 0.00000000-0000-0000-0000-000000000000@as4"
                "a end 1 0 0 0 0"
                "b end 0 0 0 0 1"
            )
        ),
        script!(
            "stop-of-a-submission-at-each-call",
            lines!(
                "mode m push 0 1"
                "stop 1 old submit a m none"
                "stop 1 new submit a m none"
                "stop 1 other submit a m none"
                "stop 2 old submit a m none"
                "stop 2 new submit a m none"
                "stop 2 other submit a m none"
                "stop 3 old submit a m none"
                "stop 3 new submit a m none"
                "stop 3 other submit a m none"
                "stop 4 old submit a m none"
                "stop 4 new submit a m none"
                "stop 4 other submit a m none"
                "status a 0"
                "status a 1"
                "status a 2"
                "take a"
                "take a"
                "take a"
            )
            => lines!(
                "a reopened"
                "a reopened"
                "a reopened"
                "a reopened"
                "a reopened"
                "a reopened"
                "a reopened"
                "a reopened"
                "a reopened"
                "a reopened"
                "a reopened"
                "a reopened"
                "a status 0 pending 0"
                "a status 1 pending 0"
                "a status 2 unknown"
                "a sent 0 user 0.00000000-0000-0000-0000-000000000007@as4"
                "a sent 1 user 1.00000000-0000-0000-0000-00000000000a@as4"
                "a nothing"
                "a end 2 0 0 0 0"
                "b end 0 0 0 0 0"
            )
        ),
        script!(
            "stop-of-a-take",
            lines!(
                "mode m push 9 1000"
                "submit a m none"
                "stop 2 new take a"
                "status a 0"
                "stop 3 other take a"
                "status a 0"
                "stop 3 new take a"
                "status a 0"
                "take a"
                "came b 0"
            )
            => lines!(
                "a submitted 0 0.00000000-0000-0000-0000-000000000000@as4"
                "a reopened"
                "a status 0 pending 0"
                "a reopened"
                "a status 0 pending 0"
                "a reopened"
                "a status 0 pending 1"
                "a nothing"
                "b no-package"
                "a end 1 0 0 0 0"
                "b end 0 0 0 0 0"
            )
        ),
        script!(
            "stop-of-a-tick",
            lines!(
                "mode m push 0 10"
                "submit a m none"
                "take a"
                "stop 1 new tick a 10"
                "status a 0"
                "stop 4 old tick a 10"
                "status a 0"
                "stop 4 new tick a 10"
                "status a 0"
            )
            => lines!(
                "a submitted 0 0.00000000-0000-0000-0000-000000000000@as4"
                "a sent 0 user 0.00000000-0000-0000-0000-000000000000@as4"
                "a reopened"
                "a status 0 pending 1"
                "a reopened"
                "a status 0 pending 1"
                "a reopened"
                "a status 0 failed EBMS:0301"
                "a end 1 0 1 0 0"
                "b end 0 0 0 0 0"
            )
        ),
        script!(
            "stop-of-an-arrival-that-stands",
            lines!(
                "mode m push 3 1000"
                "submit a m hex=61"
                "take a"
                "stop 3 new came b 0"
                "read b 0"
                "came b 0"
                "came a 0"
            )
            => lines!(
                "a submitted 0 0.00000000-0000-0000-0000-000000000000@as4"
                "a sent 0 user 0.00000000-0000-0000-0000-000000000000@as4"
                "b reopened"
                "b entry 0 0.00000000-0000-0000-0000-000000000000@as4 1 1"
                "b sent 0 receipt 0.00000000-0000-0000-0000-000000000000@as4"
                "a quiet"
                "a end 1 1 0 0 0"
                "b end 0 0 0 0 1"
            )
        ),
        script!(
            "stop-of-an-arrival-that-is-lost",
            lines!(
                "mode m push 3 1000"
                "submit a m hex=61"
                "take a"
                "stop 3 old came b 0"
                "read b 0"
                "stop 4 other came b 0"
                "read b 0"
                "came b 0"
                "read b 0"
            )
            => lines!(
                "a submitted 0 0.00000000-0000-0000-0000-000000000000@as4"
                "a sent 0 user 0.00000000-0000-0000-0000-000000000000@as4"
                "b reopened"
                "b no-entry"
                "b reopened"
                "b no-entry"
                "b sent 0 receipt 0.00000000-0000-0000-0000-000000000000@as4"
                "b entry 0 0.00000000-0000-0000-0000-000000000000@as4 1 1"
                "a end 1 0 0 0 0"
                "b end 0 0 0 0 1"
            )
        ),
        script!(
            "stop-of-a-receipt",
            lines!(
                "mode m push 3 1000"
                "submit a m none"
                "take a"
                "came b 0"
                "stop 2 other came a 0"
                "status a 0"
                "stop 4 new came a 0"
                "status a 0"
                "came a 0"
            )
            => lines!(
                "a submitted 0 0.00000000-0000-0000-0000-000000000000@as4"
                "a sent 0 user 0.00000000-0000-0000-0000-000000000000@as4"
                "b sent 0 receipt 0.00000000-0000-0000-0000-000000000000@as4"
                "a reopened"
                "a status 0 pending 1"
                "a reopened"
                "a status 0 receipted"
                "a quiet"
                "a end 1 1 0 0 0"
                "b end 0 0 0 0 1"
            )
        ),
        script!(
            "stop-of-a-pull",
            lines!(
                "mode m pull 3 1000"
                "submit a m none"
                "ask b m"
                "stop 1 old came a 0"
                "status a 0"
                "stop 3 new came a 0"
                "status a 0"
                "came a 0"
            )
            => lines!(
                "a submitted 0 0.00000000-0000-0000-0000-000000000000@as4"
                "b sent 0 pull drill-m"
                "a reopened"
                "a status 0 pending 0"
                "a reopened"
                "a status 0 pending 1"
                "a sent 0 error EBMS:0006"
                "a end 1 0 0 0 0"
                "b end 0 0 0 0 0"
            )
        ),
        script!(
            "stop-of-a-confirmation",
            lines!(
                "mode m push 0 1"
                "submit a m none"
                "take a"
                "came b 0"
                "stop 2 other confirm b 0"
                "read b 0"
                "stop 3 new confirm b 0"
                "read b 0"
            )
            => lines!(
                "a submitted 0 0.00000000-0000-0000-0000-000000000000@as4"
                "a sent 0 user 0.00000000-0000-0000-0000-000000000000@as4"
                "b sent 0 receipt 0.00000000-0000-0000-0000-000000000000@as4"
                "b reopened"
                "b entry 0 0.00000000-0000-0000-0000-000000000000@as4 0 0"
                "b reopened"
                "b gone"
                "a end 1 0 0 0 0"
                "b end 0 0 0 0 1"
            )
        ),
        script!(
            "stop-of-a-repeat",
            lines!(
                "mode m push 0 1"
                "submit a m none"
                "take a"
                "came b 0"
                "stop 1 old came b 0"
                "read b 0"
                "read b 1"
                "came b 0"
            )
            => lines!(
                "a submitted 0 0.00000000-0000-0000-0000-000000000000@as4"
                "a sent 0 user 0.00000000-0000-0000-0000-000000000000@as4"
                "b sent 0 receipt 0.00000000-0000-0000-0000-000000000000@as4"
                "b reopened"
                "b entry 0 0.00000000-0000-0000-0000-000000000000@as4 0 0"
                "b no-entry"
                "b sent 1 receipt 0.00000000-0000-0000-0000-000000000000@as4"
                "a end 1 0 0 0 0"
                "b end 0 0 0 0 1"
            )
        ),
        script!(
            "stop-without-a-package",
            lines!("mode m push 0 1" "stop 1 old came b 0" "submit a m none")
            => lines!(
                "b no-package"
                "a submitted 0 0.00000000-0000-0000-0000-000000000000@as4"
                "a end 1 0 0 0 0"
                "b end 0 0 0 0 0"
            )
        ),
        script!(
            "stop-of-an-event-without-effects",
            lines!(
                "mode m push 0 1"
                "stop 1 old take a"
                "stop 1 old submit a x none"
                "stop 4 other tick b 0"
                "stop 2 new confirm b 0"
                "submit a m none"
            )
            => lines!(
                "a reopened"
                "a reopened"
                "b reopened"
                "b reopened"
                "a submitted 0 0.00000000-0000-0000-0000-000000000004@as4"
                "a end 1 0 0 0 0"
                "b end 0 0 0 0 0"
            )
        ),
        script!(
            "fold-changes-nothing-that-shows",
            lines!(
                "mode m push 1 10"
                "fold a"
                "submit a m hex=61"
                "fold a"
                "take a"
                "came b 0"
                "confirm b 0"
                "fold b"
                "came b 0"
                "read b 0"
                "came a 0"
                "tick a 10"
                "fold a"
                "crash a"
                "fold a"
                "status a 0"
                "fold b"
                "crash b"
                "came b 0"
            )
            => lines!(
                "a folded"
                "a submitted 0 0.00000000-0000-0000-0000-000000000000@as4"
                "a folded"
                "a sent 0 user 0.00000000-0000-0000-0000-000000000000@as4"
                "b sent 0 receipt 0.00000000-0000-0000-0000-000000000000@as4"
                "b confirmed 0"
                "b folded"
                "b sent 1 receipt 0.00000000-0000-0000-0000-000000000000@as4"
                "b gone"
                "a quiet"
                "a ticked 0"
                "a folded"
                "a reopened"
                "a folded"
                "a status 0 receipted"
                "b folded"
                "b reopened"
                "b sent 2 receipt 0.00000000-0000-0000-0000-000000000000@as4"
                "a end 1 1 0 0 0"
                "b end 0 0 0 0 1"
            )
        ),
        script!(
            "fold-keeps-payloads-and-tries",
            lines!(
                "mode m push 2 10"
                "submit a m hex=616263"
                "take a"
                "tick a 10"
                "take a"
                "fold a"
                "tick a 19"
                "take a"
                "tick a 20"
                "take a"
                "came b 0"
                "fold b"
                "read b 0"
                "fold a"
                "tick a 30"
                "status a 0"
            )
            => lines!(
                "a submitted 0 0.00000000-0000-0000-0000-000000000000@as4"
                "a sent 0 user 0.00000000-0000-0000-0000-000000000000@as4"
                "a ticked 0"
                "a sent 1 user 0.00000000-0000-0000-0000-000000000000@as4"
                "a folded"
                "a ticked 0"
                "a nothing"
                "a ticked 0"
                "a sent 2 user 0.00000000-0000-0000-0000-000000000000@as4"
                "b sent 0 receipt 0.00000000-0000-0000-0000-000000000000@as4"
                "b folded"
                "b entry 0 0.00000000-0000-0000-0000-000000000000@as4 1 3"
                "a folded"
                "a ticked 1"
                "a status 0 failed EBMS:0301"
                "a end 1 0 1 0 0"
                "b end 0 0 0 0 1"
            )
        ),
        script!(
            "stop-after-a-fold",
            lines!(
                "mode m push 0 1"
                "submit a m none"
                "fold a"
                "stop 3 new take a"
                "status a 0"
                "fold a"
                "stop 2 old tick a 1"
                "status a 0"
                "tick a 1"
                "status a 0"
            )
            => lines!(
                "a submitted 0 0.00000000-0000-0000-0000-000000000000@as4"
                "a folded"
                "a reopened"
                "a status 0 pending 1"
                "a folded"
                "a reopened"
                "a status 0 pending 1"
                "a ticked 1"
                "a status 0 failed EBMS:0301"
                "a end 1 0 1 0 0"
                "b end 0 0 0 0 0"
            )
        ),
        script!(
            "clock-at-its-last-moment",
            lines!(
                "mode m push 0 1"
                "tick a 253402300799999"
                "submit a m none"
                "take a"
                "tick a 253402300799999"
                "status a 0"
            )
            => lines!(
                "a ticked 0"
                "a submitted 0 0.00000000-0000-0000-0000-000000000001@as4"
                "a sent 0 user 0.00000000-0000-0000-0000-000000000001@as4"
                "a ticked 0"
                "a status 0 pending 1"
                "a end 1 0 0 0 0"
                "b end 0 0 0 0 0"
            )
        ),
        script!(
            "push-under-a-name-of-32-bytes",
            lines!(
                "mode 0123456789abcdefghijklmnopqrstuv push 0 1"
                "submit a 0123456789abcdefghijklmnopqrstuv none"
                "take a"
                "came b 0"
            )
            => lines!(
                "a submitted 0 0.00000000-0000-0000-0000-000000000000@as4"
                "a sent 0 user 0.00000000-0000-0000-0000-000000000000@as4"
                "b sent 0 receipt 0.00000000-0000-0000-0000-000000000000@as4"
                "a end 1 0 0 0 0"
                "b end 0 0 0 0 1"
            )
        ),
        script!(
            "submit-without-modes",
            lines!("submit a m none" "submit b m none")
            => lines!("a no-mode" "b no-mode" "a end 0 0 0 0 0" "b end 0 0 0 0 0")
        ),
    ]
}

/// Lines that aren't of the grammar.
pub(crate) fn wrong_lines() -> [Play; 20] {
    [
        wrong!("line-of-another-word", "hop a"),
        wrong!("line-empty", ""),
        wrong!("line-of-a-comment", "# take a"),
        wrong!("line-in-capitals", "TAKE a"),
        wrong!("line-with-a-space-before", " take a"),
        wrong!("line-with-a-space-behind", "take a "),
        wrong!("line-with-two-spaces", "take  a"),
        wrong!("line-with-a-tab", "take\ta"),
        wrong!("line-with-cr", "take a\r"),
        wrong!("line-with-too-few-words", "take"),
        wrong!("line-with-too-many-words", "take a b"),
        wrong!("line-of-a-third-end", "take c"),
        wrong!("mode-behind-another-line", "mode n push 1 1"),
        wrong!("moment-past-the-last", "tick a 253402300800000"),
        wrong!("moment-with-a-leading-zero", "tick a 01"),
        wrong!("moment-with-a-plus", "tick a +1"),
        wrong!("moment-with-a-minus", "tick a -1"),
        wrong!("number-past-64-bits", "read a 18446744073709551616"),
        wrong!("number-empty", "read a "),
        script!(
            "line-without-its-end",
            "take a\ntake b"
            => lines!("a nothing")
        ),
    ]
}

/// Words that aren't of the grammar.
pub(crate) fn wrong_words() -> [Play; 20] {
    [
        wrong!("name-in-capitals", "submit a M none"),
        wrong!(
            "name-of-33-bytes",
            "submit a 0123456789abcdefghijklmnopqrstuvw none"
        ),
        wrong!("name-with-a-dash", "ask a m-n"),
        wrong!("load-missing", "submit a m"),
        wrong!("load-of-half-a-byte", "submit a m hex=0"),
        wrong!("load-in-capitals", "submit a m hex=AB"),
        wrong!("load-without-a-size", "submit a m size="),
        wrong!("load-past-its-size", "submit a m size=16777217"),
        wrong!("stop-at-call-0", "stop 0 old take a"),
        wrong!("stop-at-call-5", "stop 5 old take a"),
        wrong!("stop-with-another-pick", "stop 1 none take a"),
        wrong!("stop-of-a-read", "stop 1 old read a 0"),
        wrong!("stop-of-a-stop", "stop 1 old stop 1 old take a"),
        wrong!("stop-of-a-pair", "stop 1 old pair b m 0"),
        script!(
            "mode-of-another-way",
            lines!("mode n pull 1 1" "mode m both 1 1" "take a")
            => ""
        ),
        script!(
            "mode-with-a-name-of-33-bytes",
            lines!("mode n pull 1 1" "mode 0123456789abcdefghijklmnopqrstuvw push 1 1" "take a")
            => ""
        ),
        script!(
            "mode-with-1001-retries",
            lines!("mode n pull 1 1" "mode m push 1001 1" "take a")
            => ""
        ),
        script!(
            "mode-with-a-period-of-0",
            lines!("mode n pull 1 1" "mode m push 1 0" "take a")
            => ""
        ),
        script!(
            "mode-with-a-period-past-the-greatest",
            lines!("mode n pull 1 1" "mode m pull 1 1000000001" "take a")
            => ""
        ),
        script!(
            "mode-of-one-name-twice",
            lines!("mode m push 1 1" "mode m pull 2 2" "take a")
            => ""
        ),
    ]
}
