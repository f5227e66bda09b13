//! What holds of every history, over the definitions alone.
ghost use Rattle.std.specs.Prelude.{◌≡◌, ◌++◌, List, false};
ghost use Rattle.std.specs.List.{Contains};
ghost use Rattle.as4_disk.specs.Image.{Image};
ghost use Rattle.mode_values.specs.declared.mode.Mode.{Mode};
ghost use Rattle.msh_recovery.specs.Opens.{IsOld, ReadsAs, ReopensAs};
ghost use Rattle.exchange_model.specs.Alone.{MayHappenTo, end_after};
ghost use Rattle.exchange_model.specs.End.{End, empty_end};
ghost use Rattle.exchange_model.specs.Questions.{is_pending};
ghost use Rattle.exchange_model.specs.declared.sent.Sent.{Sent};
ghost use Rattle.exchange_model.specs.Staying.{Keeps};
ghost use Rattle.exchange_model.specs.World.{Happening, Site};
ghost use Rattle.journal.specs.Store.{picked_leaf};
ghost use Rattle.office.specs.Calls.{Leads};
ghost use Rattle.office.specs.Happened.{Happened, IsCutOff, MayLead};
ghost use Rattle.office.specs.Left.{IsLeft};
ghost use Rattle.office.specs.Openings.{HappenedOver, LeadsOver, Opening};
ghost use Rattle.office.specs.declared.call.Call.{Call};

use exchange_laws::{what_came_stays, what_is_settled_stays};
use msh_recovery::an_image_opens_to_one_end;

/// What the calls of an office led to is what may happen to an end: each event's step, and each fold.
pub fn a_history_may_happen()
    ensures { (site : Site) (modes : List Mode) (calls : List Call) (start end : End) → Leads modes start calls end
        → (all : List Happening) × Happened site modes calls all × MayHappenTo all start × (end_after all start ≡ end) }
{}

/// What a crash leaves of an office reads as an end that its calls may have led to, with the step of the event that met a
/// fault, the fold that did, or neither; and opening it folds nothing.
pub fn a_stop_leaves_what_may_happen()
    ensures young { (modes : List Mode) (calls : List Call) (end : End) (image : Image) → IsLeft modes end calls image
        → IsOld (picked_leaf image) → ⊥ }
    ensures happened { (site : Site) (modes : List Mode) (calls : List Call) (start end next : End) (image : Image)
        → Leads modes start calls end → IsLeft modes end calls image → ReadsAs image next
        → (all : List Happening) × (more : List Happening) × Happened site modes calls all
        × IsCutOff site modes calls more × MayLead (all ++ more) start next }
{
    an_image_opens_to_one_end();
}

/// An opening that is cut off leaves what a crash left as the crash did.
pub fn a_cut_off_opening_leaves_the_same()
    ensures { (modes : List Mode) (calls : List Call) (end : End) (before after : Image) → IsLeft modes end calls before
        → ReopensAs before after → IsLeft modes end calls after }
{
    an_image_opens_to_one_end();
}

/// The calls of the office that is opened next go on from there, behind all that had happened before. So what happened
/// over both is what had happened before the opening behind them.
pub fn reopened_histories_join()
    ensures { (site : Site) (before : List Happening) (start here end next last : End) (modes later : List Mode)
        (calls others : List Call) (image : Image) → MayLead before start here → Leads modes here calls end
        → IsLeft modes end calls image → ReadsAs image next → Leads later next others last
        → (all : List Happening) × (more : List Happening) × (rest : List Happening) × Happened site modes calls all
        × IsCutOff site modes calls more × Happened site later others rest
        × MayLead (before ++ all ++ more ++ rest) start last }
{
    an_image_opens_to_one_end();
}

/// What came stays over all calls of an office, and so does what was handed in.
pub fn what_came_stays_over_calls()
    ensures { (before : List Happening) (modes : List Mode) (calls : List Call) (end : End) → MayHappenTo before empty_end
        → Leads modes (end_after before empty_end) calls end → Keeps (end_after before empty_end) end }
{
    what_came_stays();
}

/// What the calls of all openings led to is what may happen to an end: what each did, what was found done besides behind
/// its crash, and what the calls behind the last did.
pub fn openings_may_happen()
    ensures { (site : Site) (openings : List Opening) (modes : List Mode) (calls : List Call) (start next end : End)
        → LeadsOver openings start next → Leads modes next calls end
        → (all : List Happening) × HappenedOver site openings modes calls all × MayLead all start end }
{
    an_image_opens_to_one_end();
}

/// It stays over all openings, and over the calls behind the last.
pub fn what_came_stays_over_openings()
    ensures { (before : List Happening) (openings : List Opening) (modes : List Mode) (calls : List Call) (next end : End)
        → MayHappenTo before empty_end → LeadsOver openings (end_after before empty_end) next
        → Leads modes next calls end → Keeps (end_after before empty_end) end }
{
    an_image_opens_to_one_end();
    what_came_stays();
}

/// And what was settled before them stays settled, as it was.
pub fn what_is_settled_stays_over_openings()
    ensures { (before : List Happening) (openings : List Opening) (modes : List Mode) (calls : List Call) (next end : End)
        → MayHappenTo before empty_end → LeadsOver openings (end_after before empty_end) next
        → Leads modes next calls end
        → (s : Sent) → Contains (end_after before empty_end).sent s → is_pending s ≡ false → Contains end.sent s }
{
    an_image_opens_to_one_end();
    what_is_settled_stays();
}
