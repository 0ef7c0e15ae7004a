//! The tests of the library's public calls, of what no command of the program shows; each module holds those of the crate pmt_* of its name.
//!
//! A crate that has tests is proved once more together with them, so they stand in a crate of their own, and each costs as much as a proof.
#![tactic(auto)]

#[cfg(test)]
mod book;
#[cfg(test)]
mod marks;
#[cfg(test)]
mod recorder;
#[cfg(test)]
mod report;
#[cfg(test)]
mod text;
#[cfg(test)]
mod trim;
#[cfg(test)]
mod workers;
