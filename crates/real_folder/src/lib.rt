//! The outside of the suite on a real system: the folder DIR/etc on a file system, the standard streams
//! and the clock.
//!
//! This is the trusted edge: each call asks the system in a few lines, and no clause can say what the
//! system answers. The objects tell no history. Each counts what the system refused it, and keeps the
//! last refusal with its path and its reason.
#![tactic(auto)]

mod clock;
mod faults;
mod files;
mod folder;
mod lock_file;
mod names;
mod process;
mod shadow_locks;
mod staged_file;
mod stat_file;
mod streams;
mod verdict;

pub use clock::RealClock;
pub use faults::SystemError;
pub use folder::RealFolder;
pub use streams::{RealSink, RealSource};
