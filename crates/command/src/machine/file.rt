//! A file of a machine that is open for reading.

ghost use Rattle.std.specs.Prelude.{◌≡◌, None};
ghost use Rattle.std.specs.Io.{ReadsAtMost};

use crate::files::OpenFile;
use crate::standard::Standard;
use crate::trace::Role;
use std::fs::File;
use std::io;
use std::io::Read;

/// A file of a machine, open for reading. Standard error says what failed.
#[derive(Drop)]
pub struct MachineFile<'a> {
    pub(super) role: Role,
    pub(super) path: &'a str,
    pub(super) file: File,
    pub(super) standard: &'a Standard,
}

impl OpenFile for MachineFile<'_> {
    ghost role = { λ file. file.role };

    ghost remaining = { λ _. None };
}

impl MachineFile<'_> {
    // As `read`, whose contract doesn't say that the role stays.
    pub(super) fn read_checked(&mut self, buffer: &mut [u8]) -> io::Result<usize>
        ensures bound { ReadsAtMost result buffer.new }
        ensures role { self.new.role ≡ self.old.role }
    {
        let answer = self.file.read(buffer);
        match &answer {
            // Nobody looks for the end of random bytes, so it is a failure.
            Ok(0) if self.role == Role::Random => {
                let reason = "it ended before the bytes that are wanted";
                self.standard.say_why(self.path, "can't be read", reason);
            }
            Ok(_) => {}
            Err(error) => self.standard.say_failed(self.path, "can't be read", error),
        }
        answer
    }
}

impl Read for MachineFile<'_> {
    ghost remaining = { λ _. None };

    fn read(&mut self, buffer: &mut [u8]) -> io::Result<usize> {
        self.read_checked(buffer)
    }
}
