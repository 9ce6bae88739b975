//! Tests of scripts as text, through their public calls: what is read of scripts, of lines and of rows within a text,
//! their first faults, and what is printed. There is no other code here: a test in the crate that it tests has that
//! whole crate proved once more.
#![tactic(auto)]

#[cfg(test)]
mod faults;
#[cfg(test)]
mod forming;
#[cfg(test)]
mod limit;
#[cfg(test)]
mod lines;
#[cfg(test)]
mod printed;
#[cfg(test)]
mod read;
#[cfg(test)]
mod rows;

/// Nothing: a library needs an item.
pub fn nothing() {}
