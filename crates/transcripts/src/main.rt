//! Plays transcripts again: commands over folders in memory, with what they tell and do.
//!
//! A transcript comes on standard input. What it shows is left out, its commands are run, and the
//! same transcript goes to standard output with what they tell and do now. So a transcript that
//! holds comes out as it came in.
//!
//! | A line that begins with | stands for |
//! |---|---|
//! | `#`, and an empty one | a comment |
//! | `= image`, `= empty` | a new folder: the files of a small system, or an empty passwd and group |
//! | `< NAME`, `<< NAME` | a file that begins empty, or with what it has; it is in place of that of the folder |
//! | `\|TEXT` | a line more of this file |
//! | `_ COUNT TEXT` | a line more of it: the text, so many times |
//! | `\` behind these | the last of these lines has no end |
//! | `= without NAME` | the folder has no such file |
//! | `@ TOKEN` | a session of another program that is told alive |
//! | `! CALL EFFECT` | the call of the folder of this number, from 1, fails, and did so much |
//! | `! input`, `! clock`, `! output`, `! message` | a call of this stream of the next command fails |
//! | `> TEXT`, `>> COUNT TEXT` | a line of the input of the next command, the text so many times |
//! | `% CALLS COMMAND` | a command makes so many calls and dies within the next |
//! | `& CALLS COMMAND` | a command runs whole once the next command has made so many more calls |
//! | `: COMMAND` | a command waits beside the next one, at the next place from 1 |
//! | `/ PLACE CALLS, ..` | the command at the place makes so many calls; the next one is at 0 |
//! | `/ PLACE EFFECT, ..` | it dies within its next call, which did so much |
//! | `$ COMMAND` | a command; `$ ls` lists the names that stand, and `$ cat NAME` shows one |
//! | `* FIRST LAST` | the lines up to the next `*` are played for each number, in place of `~` |
//!
//! An effect is `happened`, `nothing`, `junk` (other bytes are left), or `gone` (none are).
//!
//! All else is what a command showed: its status with what it prints, and a line for each line of a
//! table that went, `-passwd LINE`, and that came, `+passwd LINE`. Those beside a command are shown
//! before it; what they have left to do, they do behind it. What the lines between two `*` show
//! stands behind the second, once for each run of numbers at which they show the same.
#![tactic(auto)]

mod beside;
mod names;
mod player;
mod scene;
mod shown;
mod sweep;

use player::Player;
use std::io;
use std::io::{Read, Write};

fn main(rt: HostRuntime) -> io::Result<()> {
    let mut text = Vec::new(rt.alloc());
    rt.reader().read_to_end(&mut text)?;
    let mut player = Player::new(rt.alloc())?;
    player.play_all(text.as_slice())?;
    rt.stdout().write_all(player.shown())
}
