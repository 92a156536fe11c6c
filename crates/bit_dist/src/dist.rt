// The exact fraction.
ghost use Rattle.std.specs.Prelude.{◌<◌};

/// A distance as an exact fraction, `num` over `den`, unreduced. Distances are equal and ordered by value:
/// 2/4 equals 1/2.
#[derive(Clone, Copy, Debug)]
pub struct Dist {
    /// The numerator, 0 to 64,000 for a distance of bit values.
    pub num: u32,
    /// The denominator, at least 1.
    pub den: u32,
    pub ghost positive: { 0 < den },
}
