//! Frames of requests, read from an input: the head before a message.

ghost use Rattle.std.specs.Prelude.{◌<◌};
ghost use Rattle.sign_core.specs.inner.Frames.{FillsBuffer, ReadsField, ReadsHead, bytes_of, head_fields};
ghost use Rattle.sign_core.specs.Frames.{after_size};
ghost use Rattle.typecodes.specs.Fields.{block};

use crate::fault::ServeFault;
use arrayvec::ArrayVec;
use typecodes::{Message, read_full};

/// The head of a frame: the bytes of the name, and the announced length of the message in bytes.
#[derive(Drop)]
pub(crate) struct Head {
    pub(crate) name: ArrayVec<u8, 255>,
    pub(crate) announced: u32,
}

// Fills a buffer from an input: 35 where the input ends before, 27 where a read fails.
fn read_exact<I: Message>(input: &mut I, buffer: &mut [u8]) -> Result<(), ServeFault>
    ensures { FillsBuffer I.Message buffer.new input.old input.new result }
{
    match read_full(input, buffer) {
        Ok(n) if n < buffer.len() => Err(ServeFault::FrameCut),
        Ok(_) => Ok(()),
        Err(_) => Err(ServeFault::MessageRead),
    }
}

// Reads the bytes of a name, without a check that they are one.
fn read_name<I: Message>(input: &mut I, size: u8) -> Result<ArrayVec<u8, 255>, ServeFault>
    ensures { ReadsField I.Message (block size) bytes_of input.old input.new result }
{
    let mut bytes = [0; 255];
    let name = &mut bytes[..usize::from(size)];
    read_exact(input, name)?;
    Ok(ArrayVec::try_from(&*name).unwrap_or_else(|_| unreachable!()))
}

// Reads the rest of a head, after the size of the name.
fn read_after<I: Message>(input: &mut I, size: u8) -> Result<Head, ServeFault>
    ensures { ReadsField I.Message (after_size size) head_fields input.old input.new result }
{
    let name = read_name(input, size)?;
    let mut bytes = [0; 4];
    read_exact(input, &mut bytes)?;
    let announced = u32::from_be_bytes(bytes);
    Ok(Head { name, announced })
}

/// Reads the next head; None where the input ends before it.
pub(crate) fn read_head<I: Message>(input: &mut I) -> Result<Option<Head>, ServeFault>
    ensures { ReadsHead I.Message input.old input.new result }
{
    let mut first = [0; 1];
    match read_exact(input, &mut first) {
        Ok(()) => read_after(input, first[0]).map(Some),
        Err(ServeFault::FrameCut) => Ok(None),
        Err(fault) => Err(fault),
    }
}
