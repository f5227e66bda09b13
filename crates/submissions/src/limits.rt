//! The limits of one submission.

ghost use Rattle.std.specs.Prelude.{◌≡◌, ◌-◌, ◌^◌, length, min};
ghost use Rattle.std.specs.List.{list_all, sum_by};
ghost use Rattle.as4_values.specs.Payload.{is_media_text};
ghost use Rattle.exchange_model.specs.Submitting.{are_too_large};

use as4_values::{Load, is_media_text};

/// The most loads of a submission.
const MAX_LOADS: usize = 64;

/// The most bytes of all contents together.
const MAX_CONTENT: usize = 62_914_560;

/// Whether there are more than 64 loads, or one with a media text that no part may have, or more than 62,914,560 bytes
/// together.
#[tactic(auto, using(crate::proofs::LimitLemmas::capped), unfolding(exchange_model::specs::Submitting::are_too_large))]
pub fn are_too_large(loads: &[Load]) -> bool
    ensures { result ≡ are_too_large loads.now }
{
    loads.len() > MAX_LOADS || !have_media_texts(loads) || content_len(loads) > MAX_CONTENT
}

/// Whether a part may have the media text of each load.
fn have_media_texts(loads: &[Load]) -> bool
    ensures { result ≡ list_all (λ load. is_media_text load.media) loads.now }
{
    loads.iter().all(|load| is_media_text(load.media.bytes()))
}

/// The number of bytes of all contents, at most `usize::MAX`.
fn content_len(loads: &[Load]) -> usize
    ensures { result ≡ min (sum_by (λ load. length load.content) loads.now) (2 ^ 64 - 1) }
{
    let mut len: usize = 0;
    for load in loads {
        len = len.saturating_add(load.content.bytes().len());
    }
    len
}
