//! What follows from the definitions alone.
ghost use Rattle.std.specs.Prelude.{◌≡◌, ◌==◌, ◌<◌, ℕ, List, [], ◌∷◌, All, codes, map};
ghost use Rattle.std.specs.List.{slice_split};
ghost use Rattle.percent_encoding.specs.Percent.{percent_decode};
ghost use Rattle.clients.specs.Requests.{submit_target};

/// The target of a submission, cut at each `/`, has the mode and the conversation as its last two pieces, once they are
/// decoded. So a handler that cuts and decodes it reads the mode and the conversation that were given.
pub fn a_target_is_read_back()
    ensures { (mode conversation : List ℕ) → All (λ b. b < 256) mode → All (λ b. b < 256) conversation
        → map percent_decode (slice_split (λ b. b == 47) (submit_target mode conversation)) ≡ [] ∷ codes "submit" ∷ mode ∷ conversation ∷ [] }
{}
