//! What is answered for two files together: the tests of the readers of names, types and numbers.
#![tactic(auto)]

#[cfg(test)]
mod limits;
#[cfg(test)]
mod lines;
#[cfg(test)]
mod marked;
#[cfg(test)]
mod meanings;
#[cfg(test)]
mod names;
#[cfg(test)]
mod resolved;
#[cfg(test)]
mod sheet;
#[cfg(test)]
mod shown;
#[cfg(test)]
mod tasks;
