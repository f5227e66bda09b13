//! The start of a leaf: the records that a compaction wrote.

ghost use Rattle.std.specs.Prelude.{◌≡◌};
ghost use Rattle.as4_audit.specs.Start.{begins, goes_on, may_follow, stage_after, stage_of, start_of};

use as4_effects::Effect;
use as4_values::Seq;

/// The number of records of the start.
pub fn start_of(records: &[Option<Seq<Effect>>]) -> usize
    ensures { result ≡ start_of records.now }
{
    if !begins(records) {
        return 0;
    }
    let mut stage = 1;
    let mut count = 0;
    for item in records {
        let next = stage_of(item);
        if !may_follow(stage, next) {
            return count;
        }
        stage = next;
        count += 1;
    }
    count
}

/// The stage of the next record, if it is of the start too. Before the first record the stage is 0; after the start there is
/// none. So the start is found record by record.
#[tactic(auto, unfolding(crate::specs::Start::stage_after))]
pub fn stage_after(stage: Option<u8>, item: &Option<Seq<Effect>>) -> Option<u8>
    ensures { result ≡ stage_after stage item.now }
{
    let stage = stage?;
    let next = stage_of(item);
    if goes_on(stage, next) {
        Some(next)
    } else {
        None
    }
}

/// Whether a record of the second stage is of the start, after one of the first.
#[tactic(auto, unfolding(crate::specs::Start::goes_on))]
fn goes_on(stage: u8, next: u8) -> bool
    ensures { result ≡ goes_on stage next }
{
    if stage == 0 {
        1 <= next && next <= 2
    } else {
        may_follow(stage, next)
    }
}

/// Whether the first record carries a submission over or keeps a header.
#[tactic(auto, unfolding(crate::specs::Start::begins))]
fn begins(records: &[Option<Seq<Effect>>]) -> bool
    ensures { result ≡ begins records.now }
{
    match records.first() {
        None => false,
        Some(item) => {
            let stage = stage_of(item);
            1 <= stage && stage <= 2
        }
    }
}

#[tactic(auto, unfolding(crate::specs::Start::may_follow))]
fn may_follow(stage: u8, next: u8) -> bool
    ensures { result ≡ may_follow stage next }
{
    stage <= next && stage < 4
}

/// Where a compaction has a record of these effects; 0 is nowhere.
#[tactic(auto, unfolding(crate::specs::Start::stage_of))]
fn stage_of(item: &Option<Seq<Effect>>) -> u8
    ensures { result ≡ stage_of item.now }
{
    let Some(effects) = item else {
        return 0;
    };
    let [effect] = effects.items() else {
        return 0;
    };
    match effect {
        Effect::Carried(_) => 1,
        Effect::Kept(_) => 2,
        Effect::Delivered(_) => 3,
        Effect::Ticked(_) => 4,
        _ => 0,
    }
}
