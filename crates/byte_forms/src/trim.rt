//! Bytes without the blanks at both ends (XML 1.0, section 2.3).
ghost use Rattle.std.specs.Prelude.{◌≡◌, ◌-◌, ◌<◌, ◌≤◌, false, length, slice_index, IsTrue};
ghost use Rattle.std.specs.List.{AllWithin};
ghost use Rattle.byte_forms.specs.Classes.{is_blank};
ghost use Rattle.byte_forms.specs.Trimmed.{end_of, trimmed};

use crate::{Blank, is_blank, run_len};

/// The bytes between the blanks at both ends.
#[tactic(auto, unfolding(crate::specs::Trimmed::trimmed), using(crate::proofs::TrimLemmas::part_between))]
pub fn trimmed(bytes: &[u8]) -> &[u8]
    ensures { result.now ≡ trimmed bytes.now }
{
    let (start, end) = (run_len(Blank, bytes), end_without_blanks(bytes));
    if end <= start {
        return &[];
    }
    &bytes[start..end]
}

/// The number of bytes without the blanks at their end.
pub fn end_without_blanks(bytes: &[u8]) -> usize
    ensures value { result ≡ end_of bytes.now (length bytes.now) }
    ensures within { result ≤ length bytes.now }
    ensures blank { AllWithin (λ b. IsTrue (is_blank b)) bytes.now result (length bytes.now) }
    ensures last { 0 < result → is_blank (slice_index bytes.now (result - 1)) ≡ false }
{
    let mut end = bytes.len();
    while end > 0 && is_blank(bytes[end - 1]) {
        end -= 1;
    }
    end
}
