//! Tests of the crates up to the text of programs, through their public calls: programs and goals that are read, first
//! faults and their places, what is loaded and printed of a text, and copies. There is no other code here: a test in the
//! crate that it tests has that whole crate proved once more.
#![tactic(auto)]

#[cfg(test)]
mod copies;
#[cfg(test)]
mod faults;
#[cfg(test)]
mod places;
#[cfg(test)]
mod printing;
#[cfg(test)]
mod reading;
#[cfg(test)]
mod showing;

/// Nothing: a library needs an item.
pub fn nothing() {}
