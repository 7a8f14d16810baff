// A command in a folder in memory in which two others take their steps between its calls.
use acct_outside::Name;
use memory_folder::MemoryFolder;
use side_by_side::{StagedFolder, Step};
use std::alloc::{AllocError, Global};
use std::test::Fail;
use suite_core::Suite;
use whole_commands::{
    Asked, Streams, TO_END, push_turns, run, sessions_of, sound_folder, text_at, with_file,
};

// A folder with no accounts, in which lock 4 is held by z, which doesn't run.
fn held(alloc: Global) -> Result<MemoryFolder, AllocError> {
    sound_folder(alloc, with_file(alloc, Name::Lock(4), b"held z\n")?)
}

// The steps of the two before the call of the command at the place, counted from 0: the first judges
// the holder dead before its begin, and both run whole before its fifth call, the create.
fn steps_before(alloc: Global, call: usize) -> Result<Vec<Step>, AllocError> {
    let mut steps = Vec::new(alloc);
    if call == 0 {
        push_turns(&mut steps, 0, 4)?;
    }
    if call == 4 {
        push_turns(&mut steps, 0, TO_END)?;
        push_turns(&mut steps, 1, TO_END)?;
    }
    Ok(steps)
}

// The lists of these steps.
fn lists(alloc: Global) -> Result<Vec<Vec<Step>>, AllocError> {
    let mut lists = Vec::new(alloc);
    for call in 0..5 {
        lists.push(steps_before(alloc, call)?)?;
    }
    Ok(lists)
}

// The folder with the sessions of two commands.
fn staged(alloc: Global, folder: MemoryFolder) -> Result<StagedFolder<Suite>, Fail> {
    let commands = [
        Asked::of(alloc, b"groupadd -P R staff", b"")?,
        Asked::of(alloc, b"groupadd -P R wheel", b"")?,
    ];
    let sessions = sessions_of(alloc, &commands)?;
    Ok(StagedFolder::new(folder, sessions, lists(alloc)?))
}

#[test]
fn a_command_between_others_is_outrun(rt: HostRuntime) -> Result<(), Fail> {
    let alloc = rt.alloc();
    let mut folder = staged(alloc, held(alloc)?)?;
    let mut streams = Streams::new(alloc, b"", None)?;
    run(alloc, &mut folder, b"groupadd -P R q", &mut streams)?;
    let told = b"groupadd: lock 5 was outrun by 6\n".as_slice();
    assert_eq!(rt; streams.err.held().as_slice(), told);
    assert_eq!(rt;
        text_at(folder.folder(), Name::Lock(6)),
        b"free\n".as_slice()
    );
    Ok(())
}
