//! Why an address wasn't found.

/// Why an address wasn't found.
#[derive(Clone, Copy, PartialEq, Eq)]
pub enum Reason {
    /// No segment has the street among its names.
    NoSuchStreet,
    /// The number isn't in any range of the street.
    NoSuchNumber,
    /// The number is on the street, but not in the ZIP code.
    OtherZip,
    /// The house number or the ZIP code isn't 1 to 11 digits.
    NotANumber,
    /// The name has more than 30 characters.
    NameTooLong,
    /// There is no house number or no name.
    Missing,
}
