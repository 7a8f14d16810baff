//! Plays a text again: calls of the real folder, its streams and its clock, with what they answer and
//! what then stands on the disk. No clause can say what these do there.
//!
//! The text comes on standard input. What it shows is left out, its lines are carried out, and the same
//! text goes to standard output with what they answer now. So a text that holds comes out as it came in.
//! All paths lead from the folder in which this runs.
//!
//! | A line | stands for |
//! |---|---|
//! | `# TEXT`, and an empty one | a comment |
//! | `= DIR` | a new image: an empty folder DIR/etc, which both sessions enter, with the token `me` |
//! | `1 CALL`, `2 CALL` | a call of the first session or of the second, as below |
//! | `put PATH TEXT`, `chmod MODE PATH` | a file is written, or its mode is set |
//! | `mkdir PATH`, `link PATH TARGET` | a folder or a symbolic link is made |
//! | `hold PATH`, `release` | a file is made, and the kernel locks it until it is let go |
//! | `ls PATH`, `cat PATH` | shows the names that stand in a folder; the mode and the text of a file |
//! | `day SECONDS`, `day SECONDS =TEXT` | the clock is asked so long after 1970-01-01; with SOURCE_DATE_EPOCH |
//! | `take TEXT COUNTS` | a source of the text is asked for so many bytes, and for so many |
//! | `fill TEXTS` | a sink with room for four bytes is given these, one after another |
//!
//! The calls are those of a folder, with the names of its files: `begin`, `locks`, `read NAME LIMIT`,
//! `verdict TOKEN`, `create NAME`, `write NAME TEXT`, `append NAME TEXT`, `rename NAME NAME`, `remove NAME`
//! and `answered`. Beside these `enter DIR` ends the session and begins another, `linkless DIR` one on a
//! file system without hard links, `procless DIR` one on a system without /proc, `stage-syncless DIR` and
//! `folder-syncless DIR` one on which what is staged, or the folder, can't be brought to the disk, `as TOKEN`
//! says whose the next calls are, and `faults` how many failed.
//!
//! In a text `|` is the end of a line, `^` a byte that is no UTF-8, and `%` the byte 0. The token that the
//! last `begin` gave is `~b.~p.~n.flock`: its boot, its process with the start of it, and its namespace. The
//! number of its process alone is `~i`.
//!
//! All else, as what begins with a blank, is what was shown.
#![tactic(auto)]

mod clock;
mod disk;
mod files;
mod names;
mod player;
mod session;
mod streams;
mod texts;

use player::Player;
use std::io::{Read, Write};
use std::{io, process};

fn main(rt: HostRuntime) -> io::Result<()> {
    let mut text = String::new(rt.alloc());
    rt.reader().read_to_string(&mut text)?;
    let mut player = Player::new(rt.clone()?, process::id(rt.process()))?;
    for line in text.as_str().lines() {
        player.play(line)?;
    }
    rt.stdout().write_all(player.shown())
}
