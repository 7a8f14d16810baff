//! Days as texts, as chage(1), useradd(8) and usermod(8) take them and chage(1) shows them.
//!
//! Days are counted from 1970-01-01, which is day 0. `read_day` reads the number of a day or a
//! date, and `print_day` writes a day as a date. The calendar is that of `jiff`.
#![tactic(auto)]

mod print;
mod read;

pub use print::print_day;
pub use read::{DateFault, read_day};
