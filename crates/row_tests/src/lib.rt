//! Tests of rows in normal form, through their public calls: tables of cases worked out apart from the code. There is
//! no other code here: a test in the crate that it tests has that whole crate proved once more.
#![tactic(auto)]

#[cfg(test)]
mod changing;
#[cfg(test)]
mod combining;
#[cfg(test)]
mod comparing;
#[cfg(test)]
mod long;
#[cfg(test)]
mod making;
#[cfg(test)]
mod renaming;
#[cfg(test)]
mod table;

/// Nothing: a library needs an item.
pub fn nothing() {}
