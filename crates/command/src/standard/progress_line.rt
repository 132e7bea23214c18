//! The line of progress on a terminal: how it is drawn and erased.

use super::Standard;
use arrayvec::ArrayVec;
use std::io::Write;

// Controls of a VT100 (DECSC, DECRC, EL and DECAWM).
const SAVE_CURSOR: &[u8; 2] = b"\x1b7";

const RESTORE_CURSOR: &[u8; 2] = b"\x1b8";

const ERASE_TO_END: &[u8; 3] = b"\x1b[K";

const WRAP_OFF: &[u8; 5] = b"\x1b[?7l";

const WRAP_ON: &[u8; 5] = b"\x1b[?7h";

impl Standard {
    /// Whether a line of progress is on the screen.
    pub fn has_line(&self) -> bool {
        self.has_line.get()
    }

    /// Draws a line of progress behind the cursor, which goes back to where it was. So what stands before it stays, and
    /// what is typed or written meanwhile, too. The terminal cuts the line at its last column.
    pub fn show_line(&self, text: &[u8]) {
        self.has_line.set(true);
        let mut line = ArrayVec::<u8, 512>::new();
        // Every text fits.
        let _ = line.write_all(SAVE_CURSOR);
        let _ = line.write_all(ERASE_TO_END);
        let _ = line.write_all(WRAP_OFF);
        let _ = line.write_all(text);
        let _ = line.write_all(b" ");
        let _ = line.write_all(RESTORE_CURSOR);
        let _ = line.write_all(WRAP_ON);
        self.write_to_terminal(line.as_slice());
    }

    /// Erases the line of progress.
    pub fn erase_line(&self) {
        if self.has_line.get() {
            self.forget_line();
            self.write_to_terminal(ERASE_TO_END);
        }
    }

    /// Leaves the line of progress as it is, to a row that others write to.
    pub fn forget_line(&self) {
        self.has_line.set(false);
    }

    // In one piece, where the system takes it so.
    fn write_to_terminal(&self, bytes: &[u8]) {
        if !self.errors.is_shut.get() {
            let mut stderr = self.stderr;
            let _ = stderr.write_all(bytes);
        }
    }
}
