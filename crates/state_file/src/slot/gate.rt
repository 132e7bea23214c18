//! The gates of slots.

ghost use Rattle.std.specs.Prelude.{◌≡◌, ◌==◌};
ghost use Rattle.state_file.specs.File.{open_value};

pub(crate) const OPEN: u8 = 0xa5;

pub(crate) const CLOSED: u8 = 0;

/// Whether a gate is open. Any value but `OPEN` is a closed one.
pub(crate) fn is_open(gate: u8) -> bool
    ensures { result ≡ (gate == open_value) }
{
    gate == OPEN
}
