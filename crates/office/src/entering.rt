//! How calls are entered into the history.
ghost use Rattle.std.specs.Prelude.{◌≡◌, ◌+◌, ◌<◌, ◌^◌, ◌++◌, [], ◌∷◌, length};
ghost use mathlib.Core.List.{IsPrefix};
ghost use Rattle.exchange_model.specs.declared.reply.Reply.TheVariants.{Stopped};
ghost use Rattle.office.specs.declared.call.Call.TheVariants.{Done, Stop};

use crate::call::Call;
use crate::fault::OfficeFault;
use as4_disk::FaultCounts;
use exchange_model::{Event, Reply};
use pass_book::{Keeper, Pass, Worn};

/// Enters a call, and gives it back.
pub(crate) fn enter(keeper: &mut Keeper<'_, Call>, pass: &mut Pass<'_, Call>, call: Call) -> Call
    requires book { pass.old.book ≡ keeper.old.book }
    requires room { length keeper.old.list < 2 ^ 63 }
    ensures same { result ≡ call }
    ensures seen { IsPrefix pass.old.list keeper.old.list }
    ensures list { keeper.new.list ≡ keeper.old.list ++ call ∷ [] }
    ensures pass { pass.new ≡ record pass.old { list = keeper.new.list; share = pass.old.share + 1 } }
    ensures book { keeper.new.book ≡ keeper.old.book }
{
    match keeper.enter(pass, &call) {
        Ok(_) => call,
        Err(Worn) => unreachable!(),
    }
}

/// Enters an event that was made, and gives its reply.
pub(crate) fn enter_done(
    keeper: &mut Keeper<'_, Call>,
    pass: &mut Pass<'_, Call>,
    event: Event,
    reply: Reply,
) -> Reply
    requires book { pass.old.book ≡ keeper.old.book }
    requires room { length keeper.old.list < 2 ^ 63 }
    ensures same { result ≡ reply }
    ensures seen { IsPrefix pass.old.list keeper.old.list }
    ensures list { keeper.new.list ≡ keeper.old.list ++ Done event reply ∷ [] }
    ensures pass { pass.new ≡ record pass.old { list = keeper.new.list; share = pass.old.share + 1 } }
    ensures book { keeper.new.book ≡ keeper.old.book }
{
    match enter(keeper, pass, Call::Done { event, reply }) {
        Call::Done { event, reply } => {
            drop(event);
            reply
        }
        Call::Folded { .. } | Call::Stop { .. } => unreachable!(),
    }
}

/// Enters that the disk failed, while this event was made or none.
pub(crate) fn enter_stop(
    keeper: &mut Keeper<'_, Call>,
    pass: &mut Pass<'_, Call>,
    event: Option<Event>,
    halt: FaultCounts,
) -> OfficeFault
    requires book { pass.old.book ≡ keeper.old.book }
    requires room { length keeper.old.list < 2 ^ 63 }
    ensures fault { result ≡ OfficeFault.Disk halt.before halt.after }
    ensures seen { IsPrefix pass.old.list keeper.old.list }
    ensures list { keeper.new.list ≡ keeper.old.list ++ Stop event halt ∷ [] }
    ensures pass { pass.new ≡ record pass.old { list = keeper.new.list; share = pass.old.share + 1 } }
    ensures book { keeper.new.book ≡ keeper.old.book }
{
    let call = enter(keeper, pass, Call::Stop { event, halt });
    drop(call);
    let FaultCounts { before, after } = halt;
    OfficeFault::Disk { before, after }
}

/// Enters an event that isn't made, since the office stands still.
pub(crate) fn enter_refused(
    keeper: &mut Keeper<'_, Call>,
    pass: &mut Pass<'_, Call>,
    event: Event,
    halt: FaultCounts,
) -> OfficeFault
    requires book { pass.old.book ≡ keeper.old.book }
    requires room { length keeper.old.list < 2 ^ 63 }
    ensures fault { result ≡ OfficeFault.Stopped halt.before halt.after }
    ensures seen { IsPrefix pass.old.list keeper.old.list }
    ensures list { keeper.new.list ≡ keeper.old.list ++ Done event (Stopped halt.before halt.after) ∷ [] }
    ensures pass { pass.new ≡ record pass.old { list = keeper.new.list; share = pass.old.share + 1 } }
    ensures book { keeper.new.book ≡ keeper.old.book }
{
    let FaultCounts { before, after } = halt;
    let reply = enter_done(keeper, pass, event, Reply::Stopped { before, after });
    drop(reply);
    OfficeFault::Stopped { before, after }
}
