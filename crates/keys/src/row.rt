ghost use Rattle.std.specs.Prelude.{◌≡◌, true};
ghost use Rattle.keys.specs.Ranges.{in_range};
ghost use Rattle.keys.specs.Clips.{clip_at_least, clip_made, row_of, row_in, IsRow};
ghost use Rattle.std.proofs.Common.{rules};

use crate::clip::Clip;
use crate::key::Key;

/// The plain row of a clip's fields: the key that clips are ranked by, and that lists and books hold.
#[derive(Clone, Copy, PartialEq, Eq, Debug)]
pub struct ClipRow {
    pub width: u32,
    pub wool_yield: u32,
    pub strength: u32,
}

impl Clip {
    /// The clip of three fields: width, yield, strength. `None` where one is out of range, or there are not three.
    pub fn from_fields(fields: &[u32]) -> Option<Clip>
        ensures { row_in result ≡ clip_made fields.now }
    {
        let [width, wool_yield, strength] = fields else {
            return None;
        };
        if !(100..=500).contains(width) || *wool_yield > 1000 || *strength > 100 {
            return None;
        }
        Some(Clip {
            width: *width,
            wool_yield: *wool_yield,
            strength: *strength,
        })
    }

    /// The clip's fields, which are in range.
    pub fn row(&self) -> ClipRow
        ensures fields { result ≡ row_of self.now }
        ensures ranged { in_range result.width result.wool_yield result.strength ≡ true }
    {
        ClipRow::from(*self)
    }
}

impl From<Clip> for ClipRow {
    ghost from_gives = { IsRow };

    fn from(clip: Clip) -> ClipRow {
        ClipRow {
            width: clip.width,
            wool_yield: clip.wool_yield,
            strength: clip.strength,
        }
    }
}

impl Key for ClipRow {
    const FIELDS: usize = 3;

    ghost FIELDS = { 3 };

    ghost at_least = { clip_at_least };

    ghost made = { clip_made };

    ghost total = { Prim.search rules };

    ghost transitive = { Prim.search rules };

    ghost few = { Prim.search rules };

    ghost counted = { Prim.search rules };

    fn from_fields(fields: &[u32]) -> Option<ClipRow> {
        let clip = Clip::from_fields(fields)?;
        Some(clip.into())
    }

    // No derive: a lower width is the better.
    fn at_least(&self, other: &ClipRow) -> bool {
        (other.width, self.wool_yield, self.strength)
            >= (self.width, other.wool_yield, other.strength)
    }
}
