//! Files and outputs, in memory and of the system, and each read and write that fails.
//!
//! They stand here and not beside the code, since a test is proved together with its whole crate; and apart from `call_tests`, so
//! that a change of the crates above `surf_io` does not prove them again.
#![tactic(auto)]

#[cfg(test)]
mod bytes;
#[cfg(test)]
mod files;
#[cfg(test)]
mod outputs;
