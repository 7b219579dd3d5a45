ghost use Rattle.std.specs.Prelude.{◌≡◌, true};
ghost use Rattle.keys.specs.Ranges.{in_range};

/// A clip of wool. No clip ever has a field outside its range.
#[derive(Clone, Copy)]
pub struct Clip {
    /// The width of the fibre, in tenths of a micron.
    pub width: u32,
    /// The yield, in tenths of a percent.
    pub wool_yield: u32,
    /// The strength, in newtons per kilotex.
    pub strength: u32,
    ghost ranged: { in_range width wool_yield strength ≡ true },
}
