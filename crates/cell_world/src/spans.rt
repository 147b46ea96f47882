//! Spans of keys.
ghost use Rattle.std.specs.Prelude.{◌≡◌};
ghost use Rattle.cell_world.specs.Keys.{contains, overlaps, low_of};
ghost use Rattle.cell_world.specs.Spelled.{IsEnd, IsSpan};

use crate::norm_keys::NormKey;

/// The end of a range, which the range doesn't hold.
#[derive(Clone, Copy, PartialEq, Eq)]
pub enum High {
    /// Up to this key.
    At(NormKey),
    /// Unbounded.
    Max,
}

impl High {
    /// Tells what is true of each value of the type. Does nothing.
    pub fn known(&self)
        ensures { IsEnd self.now }
    {
        match self {
            High::At(key) => key.known(),
            High::Max => {}
        }
    }
}

/// The keys of a mapping: those of a range map from a low key up to an end, or one key of a list map.
#[derive(Clone, Copy, PartialEq, Eq)]
pub enum Span {
    Range(NormKey, High),
    Point(NormKey),
}

impl Span {
    /// Whether the span holds the key. A range holds its low key, and not its high end. Takes no memory.
    pub fn contains(&self, key: &NormKey) -> bool
        ensures { result ≡ contains self.now key.now }
    {
        match self {
            Span::Range(low, High::At(high)) => !low.cmp(key).is_gt() && key.cmp(high).is_lt(),
            Span::Range(low, High::Max) => !low.cmp(key).is_gt(),
            Span::Point(at) => at.cmp(key).is_eq(),
        }
    }

    /// The low key of a range, the key of a point.
    pub fn low(&self) -> &NormKey
        ensures { result.now ≡ low_of self.now }
    {
        match self {
            Span::Range(low, _) => low,
            Span::Point(at) => at,
        }
    }

    /// Whether some key is in both spans. Takes no memory.
    pub fn overlaps(&self, other: &Span) -> bool
        ensures { result ≡ overlaps self.now other.now }
    {
        let mine = self.low();
        let theirs = other.low();
        let greater = if mine.cmp(theirs).is_lt() {
            theirs
        } else {
            mine
        };
        self.contains(greater) && other.contains(greater)
    }

    /// Tells what is true of each value of the type. Does nothing.
    pub fn known(&self)
        ensures { IsSpan self.now }
    {
        match self {
            Span::Range(low, high) => {
                low.known();
                high.known();
            }
            Span::Point(at) => at.known(),
        }
    }
}
