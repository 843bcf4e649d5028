/// Why sizes are refused, the first of these that applies. Sizes are numbered from 0, and the lower
/// number comes first.
#[derive(Clone, Copy, Debug, PartialEq, Eq)]
pub enum SizesError {
    /// There is no level.
    NoLevel,
    /// There are more than 4 levels.
    TooManyLevels,
    /// This size isn't above the one before; 0 stands before the first.
    NotRising(u8),
    /// This size is above 256.
    TooLarge(u8),
}
