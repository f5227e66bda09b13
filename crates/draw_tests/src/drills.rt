//! Drawings of drills. The places of strokes are computed by hand: row R starts at 72 + 30 R; a stroke leaves 18 below its
//! start and arrives 3 below it.
use crate::documents::{count_the_last, has_all, is_svg};
use as4_draw::draw_drill;
use std::alloc::Global;
use std::test::Fail;

/// Whether the drawing of a drill is a document with all these parts.
fn shows(alloc: Global, script: &str, transcript: &str, parts: &[&str]) -> bool {
    match draw_drill(alloc, script.as_bytes(), transcript.as_bytes()) {
        Ok(drawing) => is_svg(drawing.as_slice()) && has_all(drawing.as_slice(), parts),
        Err(_) => false,
    }
}

const PUSH: &str = "mode m push 3 5000
submit a m hex=68656c6c6f
take a
came b 0
came a 0
status a 0
";

const PUSHED: &str = "a submitted 0 0.x@as4
a sent 0 user 0.x@as4
b sent 0 receipt 0.x@as4
a quiet
a status 0 receipted
a end 1 1 0 0 0
b end 0 0 0 0 1
";

#[test]
fn a_message_goes_and_its_receipt_comes_back(rt: HostRuntime) {
    let shown = shows(
        rt.alloc(),
        PUSH,
        PUSHED,
        &[
            "<line class=\"submit\" x1=\"90\" y1=\"90\" x2=\"530\" y2=\"90\"/>\n",
            ">submit m: submitted 0 0.x@as4</text>\n",
            ">take: sent 0 user 0.x@as4</text>\n",
            "<line class=\"user\" x1=\"530\" y1=\"120\" x2=\"850\" y2=\"135\"/>\n",
            ">came 0: sent 0 receipt 0.x@as4</text>\n",
            "<line class=\"receipt\" x1=\"850\" y1=\"150\" x2=\"530\" y2=\"165\"/>\n",
            ">came 0: quiet</text>\n",
            "<line class=\"local\" x1=\"530\" y1=\"210\" x2=\"90\" y2=\"210\"/>\n",
            ">status 0: status 0 receipted</text>\n",
            ">1 submitted, 1 receipted, 0 failed, 0 refused, 0 in the inbox</text>\n",
            ">0 submitted, 0 receipted, 0 failed, 0 refused, 1 in the inbox</text>\n",
        ],
    );
    assert!(rt; shown);
}

#[test]
fn a_lost_reply_and_a_package_that_never_comes_end_in_a_cross(rt: HostRuntime) {
    let script = "take a\nlost b 0\ntake a\ntick b 5\n";
    let transcript =
        "a sent 0 user 0.x@as4\nb lost receipt 0.x@as4\na sent 1 user 1.x@as4\nb ticked 0\n";
    let shown = shows(
        rt.alloc(),
        script,
        transcript,
        &[
            "<line class=\"user\" x1=\"530\" y1=\"90\" x2=\"850\" y2=\"105\"/>\n",
            "<line class=\"receipt cross\" x1=\"850\" y1=\"120\" x2=\"690\" y2=\"135\"/>\n",
            "<line class=\"user cross\" x1=\"530\" y1=\"150\" ",
            ">tick 5: ticked 0</text>\n",
        ],
    );
    assert!(rt; shown);
}

#[test]
fn a_stopped_line_is_a_note_and_its_package_arrives(rt: HostRuntime) {
    let script = "take a\nstop 3 new came b 0\n";
    let transcript = "a sent 0 user 0.x@as4\nb reopened\n";
    let shown = shows(
        rt.alloc(),
        script,
        transcript,
        &[
            "<line class=\"user\" x1=\"530\" y1=\"90\" x2=\"850\" y2=\"105\"/>\n",
            "<rect class=\"note\" x=\"850\" y=\"103\" ",
            ">stop 3 new came 0: reopened</text>\n",
        ],
    );
    assert!(rt; shown);
}

#[test]
fn what_xml_reserves_is_escaped(rt: HostRuntime) {
    let shown = shows(
        rt.alloc(),
        "read a 0\n",
        "a entry 0 <a&b>\"\x7f 0 0\n",
        &[">read 0: entry 0 &lt;a&amp;b&gt;&quot;? 0 0</text>\n"],
    );
    assert!(rt; shown);
}

/// This many lines.
fn lines(alloc: Global, count: u8, line: &[u8]) -> Option<Vec<u8>> {
    let mut text = Vec::new(alloc);
    for _ in 0..count {
        text.extend_from_slice(line).ok()?;
    }
    Some(text)
}

/// The drawing of a drill of this many ticks.
fn ticks(alloc: Global, count: u8) -> Option<Vec<u8>> {
    let script = lines(alloc, count, b"tick a 0\n")?;
    let transcript = lines(alloc, count, b"a ticked 0\n")?;
    draw_drill(alloc, script.as_slice(), transcript.as_slice()).ok()
}

#[test]
fn the_event_after_the_last_that_is_drawn_is_counted(rt: HostRuntime) -> Result<(), Fail> {
    let all = ticks(rt.alloc(), 200).ok_or("memory")?;
    let one_more = ticks(rt.alloc(), 201).ok_or("memory")?;
    assert!(rt; count_the_last(all.as_slice(), one_more.as_slice()));
    Ok(())
}
