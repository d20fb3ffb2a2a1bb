//! The tests of values, disks and file formats, on public calls alone.
#![tactic(auto)]

#[cfg(test)]
mod files;
#[cfg(test)]
mod formats;
#[cfg(test)]
mod logs;
#[cfg(test)]
mod memory_files;
