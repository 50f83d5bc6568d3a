//! The points of a reference and their attributes.

ghost use Rattle.std.specs.Prelude.{◌≡◌, ◌<◌, pos, IsNone};

use olr_base::Degrees;

/// The attributes of the path from a point to the next one.
#[derive(Clone, Copy, Debug, PartialEq, Eq)]
pub struct Next {
    /// The lowest functional road class on the path, which is the greatest class number: 0 to 7.
    pub lowest: u8,
    /// The distance interval n: from 58.6 n metres (included) to 58.6 (n + 1) metres (excluded).
    pub interval: u8,
    pub ghost lowest_in_range: { lowest < 8 },
    // Always so for a byte; laws over all values of this type need it.
    pub ghost interval_in_range: { interval < 256 },
}

/// A point of a reference, with the attributes of the line that it lies on.
#[derive(Clone, Copy, Debug, PartialEq, Eq)]
pub struct Point {
    /// The coordinates of the point.
    pub at: Degrees,
    /// The functional road class: 0 for the most important roads, to 7.
    pub class: u8,
    /// The form of way: 0 undefined, 1 motorway, 2 multiple carriageway, 3 single carriageway,
    /// 4 roundabout, 5 traffic square, 6 slip road, 7 other.
    pub form: u8,
    /// The sector of the bearing, of 11.25 degrees each, clockwise from north: 0 to 31. At the last
    /// point the bearing is taken backwards along the line.
    pub sector: u8,
    /// The attributes of the path to the next point. `None` at the last point.
    pub next: Option<Next>,
    pub ghost class_in_range: { class < 8 },
    pub ghost form_in_range: { form < 8 },
    pub ghost sector_in_range: { sector < 32 },
}

impl Default for Point {
    /// Fills the unused room of lists: all numbers are 0, and there is no next point.
    fn default() -> Self
        ensures lon { result.at.lon ≡ pos 0 }
        ensures lat { result.at.lat ≡ pos 0 }
        ensures class { result.class ≡ 0 }
        ensures form { result.form ≡ 0 }
        ensures sector { result.sector ≡ 0 }
        ensures next { IsNone result.next }
    {
        Point {
            at: Degrees::default(),
            class: 0,
            form: 0,
            sector: 0,
            next: None,
        }
    }
}
