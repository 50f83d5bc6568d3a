//! Tests of single calls, over memory. They are in a crate of their own so that no crate below is
//! proved again for them. What goes from words to output is a case of `olr_conformance`.
//!
//! Expected values come from outside: the white paper's example, worked cases, another program.
#![tactic(auto)]

#[cfg(test)]
mod bands;
#[cfg(test)]
mod devices;
#[cfg(test)]
mod drawn_tables;
#[cfg(test)]
mod fingerprints;
#[cfg(test)]
mod legs;
#[cfg(test)]
mod locations;
#[cfg(test)]
mod long_tables;
#[cfg(test)]
mod metric;
#[cfg(test)]
mod pages;
#[cfg(test)]
mod reading;
#[cfg(test)]
mod records;
#[cfg(test)]
mod routes;
#[cfg(test)]
mod rows;
#[cfg(test)]
mod runs;
#[cfg(test)]
mod samples;
#[cfg(test)]
mod tables;
#[cfg(test)]
mod words;
#[cfg(test)]
mod writing;
