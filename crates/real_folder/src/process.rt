// The process of a token, and what the system shows of it in /proc (proc(5)).
use crate::faults::{SystemError, about};
use crate::lock_file::Hold;
use crate::stat_file::{is_over, number_in, runs, start_in, stat_at, stat_of};
use acct_text::read_decimal;
use std::alloc::{AllocError, Global};
use std::rt::{Clock, Files};
use std::{fs, io};

/// The error of the system that a process has ended (errno(3), ESRCH).
const NO_SUCH_PROCESS: i32 = 3;

/// The last part of a token whose holder has locked its lock file in the kernel.
const KERNEL_MARK: &str = "flock";

/// The stat file of this process.
const OWN_STAT: &str = "/proc/self/stat";

/// The boot and the namespace of a process that /proc doesn't show.
const UNSEEN: &str = "-";

/// What tells a process from all others: `BOOT.PID.START.NAMESPACE`.
///
/// A process number is used again, so the start counts too; and it is one of a namespace, so that
/// two containers which share a folder don't look for each other's processes among their own.
#[derive(Clone, Copy)]
pub(crate) struct Identity<'a> {
    /// The text of /proc/sys/kernel/random/boot_id.
    boot: &'a str,
    /// The number of the process.
    number: &'a str,
    /// Its start in clock ticks since the boot, field 22 of its stat file; where /proc doesn't show it, the
    /// moment of its begin in nanoseconds since 1970-01-01.
    start: &'a str,
    /// The number of its namespace of process numbers (pid_namespaces(7)).
    namespace: &'a str,
}

/// What a token tells of the holder of a lock.
#[derive(Clone, Copy)]
pub(crate) struct Holder<'a> {
    /// Its process.
    pub process: Identity<'a>,
    /// Whether the kernel has the lock's file locked for it.
    pub hold: Hold,
}

impl<'a> Holder<'a> {
    /// The holder that a token names, and none where it has another form.
    pub(crate) fn read(token: &'a str) -> Option<Self> {
        let (boot, rest) = token.split_once('.')?;
        let (number, rest) = rest.split_once('.')?;
        let (start, rest) = rest.split_once('.')?;
        let (namespace, hold) = match rest.split_once('.') {
            Some((namespace, mark)) if mark == KERNEL_MARK => (namespace, Hold::Kernel),
            Some(_) => return None,
            None => (rest, Hold::Text),
        };
        if !is_boot(boot) || !is_number(number) || !is_number(start) || !is_namespace(namespace) {
            return None;
        }
        let process = Identity {
            boot,
            number,
            start,
            namespace,
        };
        Some(Holder { process, hold })
    }

    /// Whether nobody can tell that it has ended: neither the kernel nor /proc shows it.
    pub(crate) fn ends_unseen(&self) -> bool {
        self.hold == Hold::Text && self.process.boot == UNSEEN
    }
}

/// The identity of this process, which has the number, as a token begins.
pub(crate) fn own_identity<R: Files + Clock + AllocGlobal>(
    rt: &R,
    number: u32,
) -> Result<String, SystemError> {
    let identity = seen_identity(rt);
    if is_absent(&identity) {
        return unseen_identity(rt, number);
    }
    identity
}

// Whether what /proc was asked for isn't there.
fn is_absent<T>(told: &Result<T, SystemError>) -> bool {
    match told {
        Err(e) => e.kind() == io::ErrorKind::NotFound,
        Ok(_) => false,
    }
}

// The identity of this process, as /proc shows it.
fn seen_identity<R: Files + AllocGlobal>(rt: &R) -> Result<String, SystemError> {
    let mut identity = boot_id(rt)?;
    push_process(rt, &mut identity)?;
    push_namespace(rt, &mut identity)?;
    Ok(identity)
}

// Pushes the number of this process and its start.
fn push_process<R: Files + AllocGlobal>(rt: &R, identity: &mut String) -> Result<(), SystemError> {
    let stat = about(rt.alloc(), OWN_STAT, stat_at(rt, OWN_STAT))?;
    let (number, start) = (number_in(stat.as_str()), start_in(stat.as_str()));
    Ok(write!(identity, ".{number}.{start}")?)
}

// Pushes the number of this process's namespace.
fn push_namespace<R: Files + AllocGlobal>(
    rt: &R,
    identity: &mut String,
) -> Result<(), SystemError> {
    let namespace = own_namespace(rt)?;
    Ok(write!(identity, ".{namespace}")?)
}

// The identity of a process that /proc doesn't show: its number, and the moment in place of its start.
fn unseen_identity<R: Clock + AllocGlobal>(rt: &R, number: u32) -> Result<String, SystemError> {
    let now = rt.since_1970()?;
    let (seconds, nanoseconds) = (now.as_secs(), now.subsec_nanos());
    Ok(format!(in rt.alloc(); "-.{number}.{seconds}{nanoseconds:09}.-")?)
}

/// The token of a process whose lock file the kernel has locked.
pub(crate) fn locked_token(alloc: Global, identity: &str) -> Result<String, AllocError> {
    format!(in alloc; "{identity}.{KERNEL_MARK}")
}

/// Where a process is or was, as seen from this one.
#[derive(Clone, Copy, PartialEq, Eq)]
pub(crate) enum Origin {
    /// In this namespace, since this boot: /proc shows it while it runs.
    Here,
    /// In this namespace, before this boot: it has ended.
    BeforeBoot,
    /// In another namespace: nothing is seen of it from here, and its boot says nothing, as a container
    /// may be given a boot ID of its own.
    Elsewhere,
}

/// Where a process is or was. Without /proc nothing is seen of any.
pub(crate) fn origin_of<R: Files + AllocGlobal>(
    rt: &R,
    process: Identity<'_>,
) -> Result<Origin, SystemError> {
    let origin = seen_origin(rt, process);
    if is_absent(&origin) {
        return Ok(Origin::Elsewhere);
    }
    origin
}

// Where a process is or was, as /proc tells of this one.
fn seen_origin<R: Files + AllocGlobal>(
    rt: &R,
    process: Identity<'_>,
) -> Result<Origin, SystemError> {
    if process.namespace != own_namespace(rt)?.as_str() {
        return Ok(Origin::Elsewhere);
    }
    if process.boot != boot_id(rt)?.as_str() {
        return Ok(Origin::BeforeBoot);
    }
    Ok(Origin::Here)
}

/// What /proc shows of a process of this boot and namespace.
#[derive(Clone, Copy, PartialEq, Eq)]
pub(crate) enum Sight {
    /// It runs.
    Running,
    /// It has ended, whether or not its parent has waited for it.
    Ended,
    /// It may run: /proc hides the processes of others here.
    Hidden,
}

/// What /proc shows of a process of this boot and namespace.
pub(crate) fn sight_of<R: Files + AllocGlobal>(
    rt: &R,
    process: Identity<'_>,
) -> Result<Sight, SystemError> {
    match stat_of(rt, process.number) {
        Ok(stat) if runs(stat.as_str(), process.start) => Ok(Sight::Running),
        Ok(_) => Ok(Sight::Ended),
        Err(e) if is_unseen(&e) => about(rt.alloc(), "/proc/1", sight_of_unseen(rt)),
        Err(e) if e.kind() == io::ErrorKind::PermissionDenied => Ok(Sight::Hidden),
        Err(e) => Err(SystemError::new(rt.alloc(), "/proc", e)),
    }
}

/// Whether a process of this namespace has ended, of which nothing but its number is known. It isn't told
/// so where /proc is of another namespace than this process, which has the number `own`, or absent.
pub(crate) fn has_ended<R: Files + AllocGlobal>(rt: &R, own: u32, number: u32) -> bool {
    match format!(in rt.alloc(); "/proc/{number}/stat") {
        Ok(path) => shows_own(rt, own) && is_gone(rt, path.as_str()),
        Err(_) => false,
    }
}

// Whether the process with this stat file is gone, or has ended and isn't waited for.
fn is_gone<R: Files + AllocGlobal>(rt: &R, path: &str) -> bool {
    match stat_at(rt, path) {
        Ok(stat) => is_over(stat.as_str()),
        Err(e) => is_unseen(&e) && matches!(sight_of_unseen(rt), Ok(Sight::Ended)),
    }
}

// Whether /proc shows this process by its own number.
fn shows_own<R: Files + AllocGlobal>(rt: &R, own: u32) -> bool {
    match stat_at(rt, OWN_STAT) {
        Ok(stat) => read_decimal(number_in(stat.as_str()).as_bytes(), u64::MAX)
            == Ok(u64::from(own)),
        Err(_) => false,
    }
}

// What it means that a process isn't seen: where /proc hides the processes of others (its mount
// option `hidepid`), it hides the first process too, which always runs.
fn sight_of_unseen<R: Files>(rt: &R) -> io::Result<Sight> {
    match fs::metadata(rt, "/proc/1") {
        Ok(_) => Ok(Sight::Ended),
        Err(e) if e.kind() == io::ErrorKind::NotFound => Ok(Sight::Hidden),
        Err(e) => Err(e),
    }
}

// Whether the error says that no such process is seen, or that it ended while it was looked at.
fn is_unseen(error: &io::Error) -> bool {
    error.kind() == io::ErrorKind::NotFound || error.raw_os_error() == Some(NO_SUCH_PROCESS)
}

fn is_number(text: &str) -> bool {
    !text.is_empty() && text.bytes().all(|byte| byte.is_ascii_digit())
}

// Whether the text has the form of a boot's, as `0b1c2d3e-0000-4000-8000-000000000000`, or is of none.
fn is_boot(text: &str) -> bool {
    let is_whole = text.len() == 36 || text == UNSEEN;
    is_whole
        && text
            .bytes()
            .all(|byte| byte.is_ascii_hexdigit() || byte == b'-')
}

// Whether the text has the form of a namespace's, or is of none.
fn is_namespace(text: &str) -> bool {
    is_number(text) || text == UNSEEN
}

fn boot_id<R: Files + AllocGlobal>(rt: &R) -> Result<String, SystemError> {
    let path = "/proc/sys/kernel/random/boot_id";
    let text = about(rt.alloc(), path, fs::read_to_string(rt, path))?;
    Ok(String::from_str(rt.alloc(), text.as_str().trim())?)
}

// The number of this process's namespace, from a link as `pid:[4026531836]`.
fn own_namespace<R: Files + AllocGlobal>(rt: &R) -> Result<String, SystemError> {
    let path = "/proc/self/ns/pid";
    let link = about(rt.alloc(), path, fs::read_link(rt, path))?;
    let number = link
        .as_path()
        .as_str()
        .trim_matches(|letter: char| !letter.is_ascii_digit());
    Ok(String::from_str(rt.alloc(), number)?)
}
