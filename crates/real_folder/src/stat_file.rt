// The stat file of a process in /proc (proc(5)).
use std::rt::Files;
use std::{fs, io};

/// The stat file of a process.
pub(crate) fn stat_of<R: Files + AllocGlobal>(rt: &R, process: &str) -> io::Result<String> {
    let path = format!(in rt.alloc(); "/proc/{process}/stat")?;
    stat_at(rt, path.as_str())
}

/// A stat file at its path. The name of the program in it may hold bytes that are no text.
pub(crate) fn stat_at<R: Files + AllocGlobal>(rt: &R, path: &str) -> io::Result<String> {
    let bytes = fs::read(rt, path)?;
    Ok(String::from_utf8_lossy(rt.alloc(), &bytes)?)
}

/// Field 1, the process number.
pub(crate) fn number_in(stat: &str) -> &str {
    stat.split_once(' ').map_or("", |parts| parts.0)
}

/// Field 22, the start.
pub(crate) fn start_in(stat: &str) -> &str {
    field_behind_name(stat, 19)
}

/// Whether it is of a process with this start that runs.
pub(crate) fn runs(stat: &str, start: &str) -> bool {
    start_in(stat) == start && !is_over(stat)
}

/// Whether it is of a process that has ended and that its parent hasn't waited for: field 3 is `Z` or `X`.
pub(crate) fn is_over(stat: &str) -> bool {
    let state = field_behind_name(stat, 0);
    state == "Z" || state == "X"
}

// A field, counted from 0 behind field 2. That is a name in parentheses, which may hold
// blanks and parentheses, so the fields are counted from its end.
fn field_behind_name(stat: &str, place: usize) -> &str {
    let fields = stat.rsplit_once(')').map_or("", |parts| parts.1);
    fields.split_whitespace().nth(place).unwrap_or("")
}
