//! Looks up modes in a list; the result is always the first that fits.

ghost use Rattle.std.specs.Prelude.{◌≡◌, [], option_copied, option_map};
ghost use Rattle.std.specs.List.{find};
ghost use Rattle.std.specs.Str.{bytes_eq};
ghost use Rattle.mode_values.specs.ModeMatch.{mode_terms, are_same_terms, mode_of, mode_named, channel_mode};
ghost use Rattle.pmodes.specs.ModeList.{first_repeat};

use crate::matching::{is_pulled_from, matches, overlaps};
use as4_values::{PlainData, Text, UserHeader};
use mode_values::Mode;

/// The mode that a message of this header belongs to.
#[tactic(auto, unfolding(mode_values::specs::ModeMatch::mode_of))]
pub fn mode_of<'a>(modes: &'a [Mode], header: &UserHeader) -> Option<&'a Mode>
    ensures { option_copied result ≡ mode_of modes.now header.now }
{
    modes.iter().find(|mode| matches(mode, header))
}

/// The mode of this name.
#[tactic(auto, unfolding(mode_values::specs::ModeMatch::mode_named))]
pub fn mode_named<'a>(modes: &'a [Mode], name: &Text) -> Option<&'a Mode>
    ensures { option_copied result ≡ mode_named modes.now name.now }
{
    modes.iter().find(|mode| mode.name.same(name))
}

/// The first mode that pulls from this channel.
#[tactic(auto, unfolding(mode_values::specs::ModeMatch::channel_mode))]
pub fn channel_mode<'a>(modes: &'a [Mode], mpc: &Text) -> Option<&'a Mode>
    ensures { option_copied result ≡ channel_mode modes.now mpc.now }
{
    modes.iter().find(|mode| is_pulled_from(mpc, &mode.route))
}

/// The first mode that the same messages belong to as to this one.
fn overlapping<'a>(modes: &'a [Mode], mode: &Mode) -> Option<&'a Mode>
    ensures { option_copied result ≡ find (λ other. are_same_terms (mode_terms other) (mode_terms mode.now)) modes.now }
{
    modes.iter().find(|other| overlaps(other, mode))
}

/// The first mode that has the name of an earlier one, preceded by that one.
pub fn first_twice(modes: &[Mode]) -> Option<(&Mode, &Mode)>
    ensures { option_map (λ pair. (pair.0.now, pair.1.now)) result ≡ first_repeat (λ a b. bytes_eq a.name b.name) [] modes.now }
{
    for (at, mode) in modes.iter().enumerate() {
        if let Some(first) = mode_named(&modes[..at], &mode.name) {
            return Some((first, mode));
        }
    }
    None
}

/// The first mode that overlaps with an earlier one, preceded by the first such one.
pub fn first_ambiguous(modes: &[Mode]) -> Option<(&Mode, &Mode)>
    ensures { option_map (λ pair. (pair.0.now, pair.1.now)) result ≡ first_repeat (λ a b. are_same_terms (mode_terms a) (mode_terms b)) [] modes.now }
{
    for (at, mode) in modes.iter().enumerate() {
        if let Some(first) = overlapping(&modes[..at], mode) {
            return Some((first, mode));
        }
    }
    None
}
