// What is done on the disk past the folder, and what is shown of it.
use crate::texts::{bytes_of, cut, push_answer, push_text};
use acct_text::{Bytes, push_decimal};
use std::alloc::AllocError;
use std::fs::{Metadata, Permissions};
use std::os::unix::fs::{MetadataExt, PermissionsExt, symlink};
use std::rt::Files;
use std::{fs, io};

/// Does what a word says of files, and shows what it asks for.
pub(crate) fn play_on_disk<R: Files + AllocGlobal + Clone + Drop>(
    rt: &R,
    word: &str,
    rest: &str,
    shown: &mut Bytes,
) -> io::Result<()> {
    let (first, rest) = cut(rest);
    match word {
        "put" => put(rt, first, rest),
        "chmod" => set_mode(rt, first, rest),
        "mkdir" => fs::create_dir_all(rt, first),
        "link" => symlink(rt, rest, first),
        "ls" => push_names(rt, first, shown),
        "cat" => push_file(rt, first, shown),
        _ => Ok(push_answer(shown, "no such line")?),
    }
}

fn put<R: Files + AllocGlobal>(rt: &R, path: &str, text: &str) -> io::Result<()> {
    let text = bytes_of(rt.alloc(), text)?;
    fs::write(rt, path, text.as_slice())
}

// Sets a mode, whose digits are octal.
fn set_mode<R: Files>(rt: &R, mode: &str, path: &str) -> io::Result<()> {
    let mode = u32::from_str_radix(mode, 8).unwrap_or(0);
    fs::set_permissions(rt, path, Permissions::from_mode(mode))
}

// Pushes the names that stand in a folder, in the order of their bytes.
fn push_names<R: Files + AllocGlobal + Clone + Drop>(
    rt: &R,
    path: &str,
    shown: &mut Bytes,
) -> io::Result<()> {
    let names = names_in(rt, path)?;
    for name in &names {
        push_answer(shown, name.as_str())?;
    }
    Ok(())
}

fn names_in<R: Files + AllocGlobal + Clone + Drop>(rt: &R, path: &str) -> io::Result<Vec<String>> {
    let mut names = Vec::new(rt.alloc());
    for entry in fs::read_dir(rt, path)? {
        names.push(String::from_str(rt.alloc(), entry?.file_name())?)?;
    }
    names.sort()?;
    Ok(names)
}

// Pushes the mode and the text of a file.
fn push_file<R: Files + AllocGlobal>(rt: &R, path: &str, shown: &mut Bytes) -> io::Result<()> {
    let Ok(standing) = fs::metadata(rt, path) else {
        return Ok(push_answer(shown, "absent")?);
    };
    push_mode(shown, &standing)?;
    let text = fs::read(rt, path)?;
    Ok(push_text(shown, b" ", text.as_slice())?)
}

// Pushes the three octal digits of a mode, behind a blank.
fn push_mode(shown: &mut Bytes, standing: &Metadata) -> Result<(), AllocError> {
    let mode = u64::from(standing.mode());
    shown.push(b" ")?;
    push_decimal(shown, mode / 64 % 8)?;
    push_decimal(shown, mode / 8 % 8)?;
    push_decimal(shown, mode % 8)
}
