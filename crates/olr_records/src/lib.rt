//! The records of CSV files: from the bytes of a source to records of fields, and to the values
//! that fields spell.
//!
//! Data goes through these modules in order:
//!
//! - [`source`]: where the bytes of a file come from, and [`reading`]: all of them.
//! - [`records`]: the records of a text, of some fields each. No other module knows of `csv`.
//! - [`front`]: the number before a byte of a text; [`fields`] and [`shape`]: the values that
//!   fields spell.
//!
//! Beside them, [`file`] names the files of a map.
#![tactic(auto)]

mod fields;
mod file;
mod front;
mod reading;
mod records;
mod shape;
mod source;

pub use fields::{id_of, kind_of, latitude_of, length_of, longitude_of};
pub use file::File;
pub use reading::{ReadFault, read_whole};
pub use records::{Record, Records};
pub use shape::read_shape;
pub use source::{In, Source};
