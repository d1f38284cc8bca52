// The types of this maker. A ghost field says which values there are: nobody can make any other.
ghost use Rattle.std.specs.Prelude.{◌<◌, ◌≤◌, ◌^◌};

/// A buoy, by its number of 20 bits.
#[derive(Clone, Copy, PartialEq, Eq, Debug)]
pub struct Buoy {
    pub number: u32,
    ghost fits: { number < 2 ^ 20 },
}

/// The charge of a buoy's battery, in percent.
#[derive(Clone, Copy, PartialEq, Eq, PartialOrd, Ord, Debug)]
pub struct Charge {
    pub percent: u8,
    ghost fits: { percent ≤ 100 },
}
