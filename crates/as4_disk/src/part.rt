ghost use Rattle.std.specs.Prelude.{◌≡◌};

/// A part of a disk. Each is a list of bytes of its own, and the three have one time.
#[derive(Clone, Copy, Debug, PartialEq, Eq)]
pub enum Part {
    /// Its first byte picks one of the two leaves.
    Selector,
    Leaf0,
    Leaf1,
}

impl Part {
    ghost use Rattle.as4_disk.specs.Image.{same_part};

    pub(crate) fn is_same(self, other: Part) -> bool
        ensures { result ≡ same_part self other }
    {
        matches!(
            (self, other),
            (Part::Selector, Part::Selector)
                | (Part::Leaf0, Part::Leaf0)
                | (Part::Leaf1, Part::Leaf1)
        )
    }
}
