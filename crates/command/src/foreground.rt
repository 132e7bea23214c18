//! Whether this process may draw on its terminal: in the background a line there would disturb what the user types.

use std::fs::{File, Files};
use std::os::unix::fs::FileExt;
use std::{fs, str};

// What Linux says of this process: fields between blanks (proc_pid_stat(5)). The eighth ends before byte 200.
const STAT: &str = "/proc/self/stat";

/// Whether the process is in its terminal's foreground process group, has no controlling terminal, or Linux doesn't
/// say. A shell may move a job at any time.
pub fn is_in_foreground<R: Files<File = File>>(rt: &R) -> bool {
    let mut line = [0; 256];
    let Ok(stat) = fs::open(rt, STAT) else {
        return true;
    };
    match stat.read_at(&mut line, 0) {
        Ok(len) => str::from_utf8(&line[..len]).is_ok_and(|stat| is_foreground(stat)),
        Err(_) => true,
    }
}

// The same by that line. The name of the program, which may have any character, ends with its last parenthesis. After
// it come the state, the parent, the process group, the session, the terminal (0 for none) and its foreground group.
fn is_foreground(stat: &str) -> bool {
    let mut fields = stat
        .rsplit(')')
        .next()
        .unwrap_or("")
        .split_ascii_whitespace()
        .skip(2);
    let group = fields.next();
    let terminal = fields.nth(1);
    terminal == Some("0") || fields.next() == group
}
