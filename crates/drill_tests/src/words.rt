//! What the contracts don't cover: that memory suffices. A line of each kind of reply, a mode of each way, and loads of
//! each kind.

ghost use Rattle.std.specs.Prelude.{IfOk, IsTrue};
ghost use Rattle.drill_script.specs.LineText.{is_name};
ghost use Rattle.drill_texts.specs.Modes.{AreDrillModes, IsDrillMode};

mod made;

use as4_values::{Load, Message, NoMemory, Octets, Route, Seq};
use drill_script::{EndName, ScriptLoad, Way};
use drill_texts::{
    drill_mode, end_line, folded_line, loads_of, modes_of, no_package_line, reopened_line,
    reply_line, unknown_line,
};
use exchange_model::Reply;
use mode_values::Mode;
use msh_state::Totals;
use std::alloc::Global;

fn is_line(line: Result<Octets, NoMemory>, wanted: &[u8]) -> bool {
    match line {
        Ok(line) => line.bytes() == wanted,
        Err(_) => false,
    }
}

/// Whether this is the text for the reply to a line with the number 0, at an endpoint that has sent no package.
fn shows(alloc: Global, end: EndName, lost: bool, reply: &Reply, wanted: &[u8]) -> bool {
    is_line(reply_line(alloc, end, 0, lost, 0, reply), wanted)
}

/// The same. The reply is dropped explicitly: that is proved faster than a drop at the end of its scope.
fn writes(alloc: Global, end: EndName, reply: Reply, wanted: &[u8]) -> bool {
    let shown = shows(alloc, end, false, &reply, wanted);
    drop(reply);
    shown
}

/// Whether this is the text for a message that the endpoint b returns.
fn answers(alloc: Global, lost: bool, message: Option<Message>, wanted: &[u8]) -> bool {
    match message {
        Some(message) => answers_so(alloc, lost, Reply::Answer(message), wanted),
        None => false,
    }
}

fn answers_so(alloc: Global, lost: bool, reply: Reply, wanted: &[u8]) -> bool {
    let shown = shows(alloc, EndName::B, lost, &reply, wanted);
    drop(reply);
    shown
}

#[test]
fn a_reply_without_parts_is_a_word(rt: HostRuntime) {
    let (alloc, end) = (rt.alloc(), EndName::A);
    let written = [
        writes(alloc, end, Reply::NoMode, b"a no-mode\n"),
        writes(alloc, end, Reply::OutboxFull, b"a outbox-full\n"),
        writes(alloc, end, Reply::TooLarge, b"a too-large\n"),
        writes(alloc, end, Reply::Nothing, b"a nothing\n"),
        writes(alloc, end, Reply::Quiet, b"a quiet\n"),
    ];
    assert_eq!(rt; written, [true; 5]);
}

#[test]
fn what_is_not_there_is_told(rt: HostRuntime) {
    let (alloc, end) = (rt.alloc(), EndName::B);
    let stopped = Reply::Stopped {
        before: 0,
        after: 1,
    };
    let written = [
        writes(alloc, end, Reply::NoEntry, b"b no-entry\n"),
        writes(alloc, end, Reply::Gone, b"b gone\n"),
        writes(alloc, end, Reply::Full { size: 9, need: 1 }, b"b full\n"),
        writes(alloc, end, stopped, b"b stopped\n"),
    ];
    assert_eq!(rt; written, [true; 4]);
}

#[test]
fn a_count_stands_behind_its_word(rt: HostRuntime) {
    let (alloc, end) = (rt.alloc(), EndName::A);
    let confirmed = Reply::Confirmed { upto: 12 };
    assert!(rt; writes(alloc, end, Reply::Ticked { failed: 1 }, b"a ticked 1\n"));
    assert!(rt; writes(alloc, end, confirmed, b"a confirmed 12\n"));
}

#[test]
fn a_status_is_told_with_the_number(rt: HostRuntime) {
    let (alloc, end) = (rt.alloc(), EndName::A);
    let pending = Reply::Pending { tries: 1 };
    let written = [
        writes(alloc, end, pending, b"a status 0 pending 1\n"),
        writes(alloc, end, Reply::Receipted, b"a status 0 receipted\n"),
        writes(alloc, end, Reply::Failed, b"a status 0 failed EBMS:0301\n"),
        writes(alloc, end, Reply::Unknown, b"a status 0 unknown\n"),
    ];
    assert_eq!(rt; written, [true; 4]);
}

/// Whether this is the text for a reply with parts, at the endpoint a.
fn tells(alloc: Global, reply: Option<Reply>, wanted: &[u8]) -> bool {
    match reply {
        Some(reply) => writes(alloc, EndName::A, reply, wanted),
        None => false,
    }
}

#[test]
fn a_reply_with_parts_tells_the_identifier_or_the_code(rt: HostRuntime) {
    let submitted = b"a submitted 0 0.00000000-0000-0000-0000-000000000000@as4\n";
    let pushed = b"a sent 0 user 0.00000000-0000-0000-0000-000000000000@as4\n";
    let requested = b"a sent 0 pull drill-m\n";
    let paired = b"a sent 0 pair 0.00000000-0000-0000-0000-000000000000@as4 drill-m\n";
    let entry = b"a entry 0 0.00000000-0000-0000-0000-000000000000@as4 1 5\n";
    let refused = b"a status 0 refused EBMS:0010\n";
    let alloc = rt.alloc();
    let told = [
        tells(alloc, made::submitted(alloc), submitted),
        tells(alloc, made::pushed(alloc), pushed),
        tells(alloc, made::requested(alloc), requested),
        tells(alloc, made::paired(alloc), paired),
        tells(alloc, made::entry(alloc), entry),
        tells(alloc, made::refused(alloc), refused),
    ];
    assert_eq!(rt; told, [true; 6]);
}

#[test]
fn an_answer_is_sent_or_lost(rt: HostRuntime) {
    let sent = b"b sent 0 receipt 0.00000000-0000-0000-0000-000000000000@as4\n";
    let lost = b"b lost receipt 0.00000000-0000-0000-0000-000000000000@as4\n";
    let error = b"b sent 0 error EBMS:0006\n";
    let alloc = rt.alloc();
    let told = [
        answers(alloc, false, made::receipted(alloc), sent),
        answers(alloc, true, made::receipted(alloc), lost),
        answers(alloc, false, made::error(alloc), error),
    ];
    assert_eq!(rt; told, [true; 3]);
}

#[test]
fn what_became_of_a_disk_is_told(rt: HostRuntime) {
    let alloc = rt.alloc();
    assert!(rt; is_line(reopened_line(alloc, EndName::A), b"a reopened\n"));
    assert!(rt; is_line(folded_line(alloc, EndName::B), b"b folded\n"));
}

#[test]
fn numbers_that_nothing_has_are_told(rt: HostRuntime) {
    let alloc = rt.alloc();
    assert!(rt; is_line(no_package_line(alloc, EndName::B), b"b no-package\n"));
    assert!(rt; is_line(unknown_line(alloc, EndName::A, 7), b"a status 7 unknown\n"));
}

#[test]
fn an_end_is_told_by_its_numbers(rt: HostRuntime) {
    let totals = Totals {
        submitted: 1,
        receipted: 0,
        failed: 1,
        refused: 0,
        inbox: 0,
    };
    assert!(rt;
        is_line(
            end_line(rt.alloc(), EndName::A, totals),
            b"a end 1 0 1 0 0\n"
        )
    );
}

/// A mode with up to three retries, five seconds apart.
fn mode(alloc: Global, name: &[u8], way: Way) -> Result<Mode, NoMemory>
    requires { IsTrue (is_name name.now) }
    ensures { IfOk result (IsDrillMode None name.now way 3 5000) }
{
    let name = Octets::of(Vec::from_slice(alloc, name)?);
    drill_mode(alloc, None, &name, way, 3, 5000)
}

/// Whether the route is a push, or a pull from this channel.
fn is_route(route: &Route, channel: Option<&[u8]>) -> bool {
    let (mpc, address) = match route {
        Route::Push { address } => (None, address),
        Route::Pull { mpc, address } => (Some(mpc.bytes()), address),
    };
    mpc == channel && address.bytes() == b"http://drill/".as_slice()
}

/// Whether the mode goes from the sender to the receiver, and has this name.
fn is_drill_mode(mode: &Mode, name: &[u8]) -> bool {
    mode.name.bytes() == name
        && mode.action.bytes() == name
        && mode.from.role.bytes() == b"sender".as_slice()
        && mode.to.role.bytes() == b"receiver".as_slice()
}

/// Whether the mode was made, has this name, and is a push or a pull from this channel.
fn is_made(mode: Result<Mode, NoMemory>, name: &[u8], channel: Option<&[u8]>) -> bool {
    match mode {
        Ok(mode) => {
            let is_so = is_drill_mode(&mode, name) && is_route(&mode.route, channel);
            drop(mode);
            is_so
        }
        Err(_) => false,
    }
}

#[test]
#[tactic(auto, unfolding(drill_script::specs::LineText::is_name))]
fn a_mode_is_pushed_or_pulled(rt: HostRuntime) {
    let pushed = mode(rt.alloc(), b"m", Way::Push);
    assert!(rt; is_made(pushed, b"m", None));
    let pulled = mode(rt.alloc(), b"m2", Way::Pull);
    assert!(rt; is_made(pulled, b"m2", Some(b"drill-m2")));
}

#[tactic(auto, unfolding(drill_script::specs::LineText::is_name))]
fn two_modes(alloc: Global) -> Result<Seq<Mode>, NoMemory>
    ensures { IfOk result AreDrillModes }
{
    let mut list = Vec::with_capacity(alloc, 2)?;
    match (mode(alloc, b"m", Way::Push), mode(alloc, b"m2", Way::Pull)) {
        (Ok(pushed), Ok(pulled)) => {
            list.push_reserved(pushed);
            list.push_reserved(pulled);
            Ok(Seq::of(list))
        }
        (pushed, pulled) => {
            drop(list);
            drop(pushed);
            drop(pulled);
            Err(NoMemory)
        }
    }
}

fn is_named(mode: Option<&Mode>, name: &[u8]) -> bool {
    match mode {
        Some(mode) => mode.name.bytes() == name,
        None => false,
    }
}

/// Whether the modes are in the order of the script.
fn stand_in_order(alloc: Global) -> Option<(bool, bool)> {
    let list = two_modes(alloc).ok()?;
    let modes = modes_of(alloc, list).ok()?;
    let are_named = (is_named(modes.get(0), b"m"), is_named(modes.get(1), b"m2"));
    drop(modes);
    Some(are_named)
}

#[test]
fn modes_stand_in_the_order_of_the_script(rt: HostRuntime) {
    assert_eq!(rt; stand_in_order(rt.alloc()), Some((true, true)));
}

fn is_load(load: &Load, wanted: &[u8]) -> bool {
    load.media.bytes() == b"application/octet-stream".as_slice() && load.content.bytes() == wanted
}

/// Whether there is exactly one load, with these bytes.
fn carries(loads: Result<Seq<Load>, NoMemory>, wanted: &[u8]) -> bool {
    match loads {
        Ok(loads) => {
            let is_so = match loads.items() {
                [load] => is_load(load, wanted),
                _ => false,
            };
            drop(loads);
            is_so
        }
        Err(_) => false,
    }
}

/// The last two bytes of the only load.
fn last_two(loads: &Seq<Load>) -> Option<(u8, u8)> {
    match loads.items() {
        [load] => match load.content.bytes() {
            [.., before, last] => Some((*before, *last)),
            _ => None,
        },
        _ => None,
    }
}

/// The number of loads of a message without a payload.
fn count_of_nothing(alloc: Global) -> Option<usize> {
    let loads = loads_of(alloc, &ScriptLoad::Nothing).ok()?;
    let count = loads.items().len();
    drop(loads);
    Some(count)
}

/// Whether the two bytes `hi` become the load.
fn carries_given(alloc: Global) -> Option<bool> {
    let load = ScriptLoad::Hex(Octets::of(b"hi".to_vec(alloc).ok()?));
    let loads = loads_of(alloc, &load);
    drop(load);
    Some(carries(loads, b"hi"))
}

#[test]
fn a_message_carries_nothing_or_one_load(rt: HostRuntime) {
    assert_eq!(rt; count_of_nothing(rt.alloc()), Some(0));
    assert_eq!(rt; carries_given(rt.alloc()), Some(true));
}

/// The last two bytes of a load of 252 bytes.
fn last_of_252(alloc: Global) -> Option<(u8, u8)> {
    let loads = loads_of(alloc, &ScriptLoad::Size(252)).ok()?;
    let last = last_two(&loads);
    drop(loads);
    last
}

#[test]
fn a_load_of_a_size_counts_to_250_again_and_again(rt: HostRuntime) {
    let five = loads_of(rt.alloc(), &ScriptLoad::Size(5));
    assert!(rt; carries(five, &[0, 1, 2, 3, 4]));
    assert_eq!(rt; last_of_252(rt.alloc()), Some((250, 0)));
}
