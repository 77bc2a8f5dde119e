//! What no contract of a disk says: what the system does with a real file, its short and failing calls, disks that fail once,
//! and a checkpoint that is stopped after each of its calls.
//!
//! Everything here is for the tests alone.
#![tactic(auto)]

#[cfg(test)]
mod balky;
#[cfg(test)]
mod balky_tests;
#[cfg(test)]
mod crash_images;
#[cfg(test)]
mod disk_steps;
#[cfg(test)]
mod expect;
#[cfg(test)]
mod failing_disk_tests;
#[cfg(test)]
mod file_disk_tests;
#[cfg(test)]
mod forgetful;
#[cfg(test)]
mod fresh_path;
#[cfg(test)]
mod journal_tests;
#[cfg(test)]
mod lettered_files;
#[cfg(test)]
mod looked_tests;
#[cfg(test)]
mod path_tests;
#[cfg(test)]
mod recording_disk_tests;
#[cfg(test)]
mod recovery_tests;
