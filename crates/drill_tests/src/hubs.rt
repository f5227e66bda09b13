//! What the contracts don't cover: that memory suffices. Scripts of a chain with their output.
use crate::drills::plays_in_chain;
use drill::DrillEnd;
use std::alloc::Global;

/// A message goes from the first endpoint through the hub to the last, and both receipts come back.
#[test]
fn a_message_goes_through_the_hub(rt: HostRuntime) {
    let script = b"mode m fh push 3 1000
mode n hl push 3 1000
submit f m hex=6869
take f
came h f 0
came f h 0
relay h n
relay h n
take h
came l h 1
came h l 0
read l 0
";
    let wanted = b"f submitted 0 0.00000000-0000-0000-0000-000000000000@as4
f sent 0 user 0.00000000-0000-0000-0000-000000000000@as4
h sent 0 receipt 0.00000000-0000-0000-0000-000000000000@as4
f quiet
h submitted 0 0.00000000-0000-0000-0000-000000000004@as4
h nothing
h sent 1 user 0.00000000-0000-0000-0000-000000000004@as4
l sent 0 receipt 0.00000000-0000-0000-0000-000000000004@as4
h quiet
l entry 0 0.00000000-0000-0000-0000-000000000004@as4 1 2
f end 1 1 0 0 0
h end 1 1 0 0 1
l end 0 0 0 0 1
";
    assert!(rt; plays_in_chain(rt.alloc(), script, DrillEnd::Read, wanted));
}

#[test]
fn a_hub_relays_by_a_mode_of_its_link(rt: HostRuntime) {
    let script = b"mode n hl push 3 1000\nrelay h n\nrelay h x\n";
    let wanted = b"h nothing\nh no-mode\nf end 0 0 0 0 0\nh end 0 0 0 0 0\nl end 0 0 0 0 0\n";
    assert!(rt; plays_in_chain(rt.alloc(), script, DrillEnd::Read, wanted));
}

/// The first endpoint submits by the modes of its link alone, and makes no event where there is none: the next
/// submission has the number 0 in its identifier.
#[test]
fn an_endpoint_submits_by_a_mode_of_its_link(rt: HostRuntime) {
    let script =
        b"mode m fh push 3 1000\nmode n hl push 3 1000\nsubmit f n none\nsubmit f m none\n";
    let wanted = b"f no-mode\nf submitted 0 0.00000000-0000-0000-0000-000000000000@as4
f end 1 0 0 0 0\nh end 0 0 0 0 0\nl end 0 0 0 0 0\n";
    assert!(rt; plays_in_chain(rt.alloc(), script, DrillEnd::Read, wanted));
}

/// A package goes to one endpoint, and what isn't sent goes nowhere.
#[test]
fn a_package_goes_to_one_endpoint(rt: HostRuntime) {
    let script = b"mode m fh push 3 1000
submit f m none
take f
came l f 0
came f f 0
came h h 0
came h f 1
came h f 0
came l h 0
lost f h 0
";
    let wanted = b"f submitted 0 0.00000000-0000-0000-0000-000000000000@as4
f sent 0 user 0.00000000-0000-0000-0000-000000000000@as4
l no-package
f no-package
h no-package
h no-package
h sent 0 receipt 0.00000000-0000-0000-0000-000000000000@as4
l no-package
f quiet
f end 1 1 0 0 0
h end 0 0 0 0 1
l end 0 0 0 0 0
";
    assert!(rt; plays_in_chain(rt.alloc(), script, DrillEnd::Read, wanted));
}

/// A message that was confirmed before it was relayed is never relayed. A crash of the hub changes nothing, and what it
/// relayed is on its disk.
#[test]
fn a_hub_crashes_and_goes_on(rt: HostRuntime) {
    let script = b"mode m fh push 3 1000
mode n hl pull 3 1000
submit f m hex=61
submit f m hex=62
take f
take f
came h f 0
came h f 1
relay h n
crash h
confirm h 1
relay h n
ask l n
came h l 0
stop 3 new came l h 2
came l h 2
read l 0
status h 0
";
    let wanted = b"f submitted 0 0.00000000-0000-0000-0000-000000000000@as4
f submitted 1 1.00000000-0000-0000-0000-000000000001@as4
f sent 0 user 0.00000000-0000-0000-0000-000000000000@as4
f sent 1 user 1.00000000-0000-0000-0000-000000000001@as4
h sent 0 receipt 0.00000000-0000-0000-0000-000000000000@as4
h sent 1 receipt 1.00000000-0000-0000-0000-000000000001@as4
h submitted 0 0.00000000-0000-0000-0000-000000000006@as4
h reopened
h confirmed 1
h gone
l sent 0 pull drill-n
h sent 2 user 0.00000000-0000-0000-0000-000000000006@as4
l reopened
l sent 1 receipt 0.00000000-0000-0000-0000-000000000006@as4
l entry 0 0.00000000-0000-0000-0000-000000000006@as4 1 1
h status 0 pending 1
f end 2 0 0 0 0
h end 1 0 0 0 2
l end 0 0 0 0 1
";
    assert!(rt; plays_in_chain(rt.alloc(), script, DrillEnd::Read, wanted));
}

/// Lines of a pair, and of endpoints that don't do such things, are none of a chain.
#[test]
fn a_chain_has_lines_of_its_own(rt: HostRuntime) {
    assert!(rt; is_refused(rt.alloc(), b"mode m push 1 1\n"));
    assert!(rt; is_refused(rt.alloc(), b"mode m fh pull 1 1\n"));
    assert!(rt; is_refused(rt.alloc(), b"take a\n"));
    assert!(rt; is_refused(rt.alloc(), b"take l\n"));
    assert!(rt; is_refused(rt.alloc(), b"came h 0\n"));
    assert!(rt; is_refused(rt.alloc(), b"relay f m\n"));
    assert!(rt; is_refused(rt.alloc(), b"read f 0\n"));
    assert!(rt; is_refused(rt.alloc(), b"ask h m\n"));
    assert!(rt; is_refused(rt.alloc(), b"fold h\n"));
    assert!(rt; is_refused(rt.alloc(), b"pair l m 0\n"));
    assert!(rt;
        plays_in_chain(
            rt.alloc(),
            b"take f\n",
            DrillEnd::Read,
            b"f nothing\nf end 0 0 0 0 0\nh end 0 0 0 0 0\nl end 0 0 0 0 0\n"
        )
    );
}

fn is_refused(alloc: Global, line: &[u8]) -> bool {
    plays_in_chain(alloc, line, DrillEnd::Line { number: 1 }, b"")
}
