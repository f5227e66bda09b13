//! The processing modes of a drill, which all its endpoints have (P-Modes, ebMS 3.0 Core, section 4).
//!
//!     NAME    1 to 32 of a to z and 0 to 9; it is also the action
//!     from    the party drill-a, or drill-f or drill-h of a chain, in the role sender
//!     to      the party drill-b, or drill-h or drill-l of a chain, in the role receiver
//!     route   One-Way/Push to http://drill/, or One-Way/Pull from the channel drill-NAME

ghost use Rattle.std.specs.Prelude.{◌≡◌, ◌≤◌, IfOk, IsTrue, codes, length};
ghost use Rattle.as4_values.specs.PlainTexts.{IsPlainText};
ghost use Rattle.drill_script.specs.LineText.{is_name};
ghost use Rattle.drill_texts.specs.Modes.{AreDrillModes, IsDrillMode, IsDrillSide, receiver_of, route_of, sender_of};

use as4_values::{NoMemory, Octets, Party, Route, Seq, Service, Side, Text};
use drill_script::{LinkName, Way};
use mode_values::Mode;
use pmodes::{ModeRefusal, Modes};
use std::alloc::Global;

/// The processing mode of a line of a script: of a pair, or of a link of a chain, over the address `http://drill/`.
#[tactic(auto, using(crate::proofs::ModeLemmas::word_is_plain, crate::proofs::ModeLemmas::name_is_plain))]
pub fn drill_mode(
    alloc: Global,
    link: Option<LinkName>,
    name: &Octets,
    way: Way,
    retries: u32,
    period: u64,
) -> Result<Mode, NoMemory>
    requires named { IsTrue (is_name name.now) }
    requires retries { retries ≤ 1000 }
    requires begun { 1 ≤ period }
    requires period { period ≤ 1000000000 }
    ensures { IfOk result (IsDrillMode link name.now way retries period) }
{
    match (
        Text::plain(alloc, name.bytes()),
        sender_of(alloc, link),
        receiver_of(alloc, link),
        Text::plain(alloc, b"drill"),
        Text::plain(alloc, name.bytes()),
        route_of(alloc, name.bytes(), way),
    ) {
        (Ok(name), Ok(from), Ok(to), Ok(value), Ok(action), Ok(route)) => Ok(Mode {
            name,
            from,
            to,
            service: Service { value, kind: None },
            action,
            agreement: None,
            route,
            retries,
            period,
            collect: false,
        }),
        (name, from, to, value, action, route) => {
            drop(name);
            drop(from);
            drop(to);
            drop(value);
            drop(action);
            drop(route);
            Err(NoMemory)
        }
    }
}

/// The modes of a script; no message belongs to two of them.
#[tactic(auto, using(crate::proofs::ListLemmas::drill_modes_stand))]
pub fn modes_of(alloc: Global, list: Seq<Mode>) -> Result<Modes, NoMemory>
    requires { AreDrillModes list }
    ensures { IfOk result (λ modes. modes ≡ list) }
{
    match Modes::of_list(alloc, list) {
        Ok(modes) => Ok(modes),
        Err(ModeRefusal::NoMemory) => Err(NoMemory),
        Err(_) => unreachable!(),
    }
}

/// The side that sends.
#[tactic(auto, using(crate::proofs::ModeLemmas::word_is_plain))]
fn sender_of(alloc: Global, link: Option<LinkName>) -> Result<Side, NoMemory>
    ensures { IfOk result (IsDrillSide (sender_of link) (codes "sender")) }
{
    match link {
        None => side_of(alloc, b"drill-a", b"sender"),
        Some(LinkName::Front) => side_of(alloc, b"drill-f", b"sender"),
        Some(LinkName::Rear) => side_of(alloc, b"drill-h", b"sender"),
    }
}

/// The side that receives.
#[tactic(auto, using(crate::proofs::ModeLemmas::word_is_plain))]
fn receiver_of(alloc: Global, link: Option<LinkName>) -> Result<Side, NoMemory>
    ensures { IfOk result (IsDrillSide (receiver_of link) (codes "receiver")) }
{
    match link {
        None => side_of(alloc, b"drill-b", b"receiver"),
        Some(LinkName::Front) => side_of(alloc, b"drill-h", b"receiver"),
        Some(LinkName::Rear) => side_of(alloc, b"drill-l", b"receiver"),
    }
}

/// A side of one party, with a role.
fn side_of(alloc: Global, id: &[u8], role: &[u8]) -> Result<Side, NoMemory>
    requires id { IsPlainText id.now }
    requires role { IsPlainText role.now }
    ensures { IfOk result (IsDrillSide id.now role.now) }
{
    let mut parties = Vec::with_capacity(alloc, 1)?;
    let id = Text::plain(alloc, id)?;
    let role = Text::plain(alloc, role)?;
    parties.push_reserved(Party { id, kind: None });
    Ok(Side {
        parties: Seq::of(parties),
        role,
    })
}

/// The route of a mode of this name.
#[tactic(auto, using(crate::proofs::ModeLemmas::word_is_plain, crate::proofs::ModeLemmas::channel_is_plain))]
fn route_of(alloc: Global, name: &[u8], way: Way) -> Result<Route, NoMemory>
    requires { IsTrue (is_name name.now) }
    ensures { IfOk result (λ route. route ≡ route_of name.now way) }
{
    let address = Text::plain(alloc, b"http://drill/")?;
    match way {
        Way::Push => Ok(Route::Push { address }),
        Way::Pull => {
            let mut mpc = Vec::from_slice(alloc, b"drill-")?;
            mpc.extend_from_slice(name)?;
            let mpc = Text::plain(alloc, mpc.as_slice())?;
            Ok(Route::Pull { mpc, address })
        }
    }
}
