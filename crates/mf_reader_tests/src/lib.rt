//! What `mf_reader` answers for the trees that `mf_lex` makes of files: the tests of both together.
#![tactic(auto)]

#[cfg(test)]
mod faults;
#[cfg(test)]
mod files;
#[cfg(test)]
mod values;
