//! The refusals of a text.

/// The kinds of location that are recognised by their status byte and not read.
#[derive(Clone, Copy, Debug, PartialEq, Eq)]
pub enum Kind {
    /// A circle, a rectangle, a grid, a polygon or a closed line.
    Area,
    /// A single position without a road.
    GeoCoordinate,
}

/// Why a text is not a reference: the first of these, in this order, whose condition holds.
#[derive(Clone, Copy, Debug, PartialEq, Eq)]
pub enum Refused {
    /// The text without the blanks at its ends has more than 344 bytes.
    TooLong,
    /// The text without the blanks at its ends is not standard base64 with padding.
    NotBase64,
    /// There are no bytes.
    Empty,
    /// The version of the format, given here, is not 3. It is 0 to 7.
    BadVersion(u8),
    /// A kind of location that is recognised but not read.
    OtherKind(Kind),
    /// A point of interest with an access point.
    PoiWithAccess,
    /// The number of bytes, given here, is not one that this kind of location can have.
    BadLength(usize),
    /// A line of more than 32 points; the number is given here.
    TooManyPoints(usize),
    /// The number of offset bytes differs from the number of offset flags that are set. For a point
    /// along a line only the positive flag counts.
    OffsetFlags,
    /// The point of this number, counted from 1, is the first beyond 80 degrees of latitude or 180
    /// degrees of longitude.
    OutOfRange(usize),
}
