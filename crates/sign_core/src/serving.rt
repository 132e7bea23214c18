//! `serve`: requests from an input, each with its reply on an output.

ghost use Rattle.std.specs.Prelude.{◌≡◌, ◌<◌, Some, vec_capacity};
ghost use Rattle.sign_core.specs.inner.Frames.{WasReadOrFailed};
ghost use Rattle.sign_core.specs.inner.Serving.{Asks, Finishes, Turns, WritesReply, is_unread};
ghost use Rattle.sign_core.specs.Serving.{Serves, SettlesReply};
ghost use Rattle.sign_core.specs.Serving.{reply_bytes, reply_frame};
ghost use Rattle.sign_core.specs.Progress.{types_of_key};
ghost use Rattle.sign_core.specs.Records.{the_key};
ghost use Rattle.sign_core.specs.Signing.{KeepsCapacity};

use crate::fault::{ServeFault, SignFault};
use crate::frames::read_head;
use crate::progress::{KeyProgress, TreeProgress};
use crate::signer::Signer;
use crate::source::Source;
use merkle::Silent;
use state_file::Store;
use std::alloc::Global;
use std::io::Write;
use typecodes::{Message, Name, NextBytes, discard, write_all};

// The greatest number of replies.
const REPLIES: u64 = 1 << 32;

/// The reply to a request.
#[derive(Clone, Copy)]
pub(crate) enum Reply {
    /// The signature.
    Signed,
    /// The signer's refusal.
    Refused(SignFault),
    /// 34: the bytes are no name.
    BadName,
}

/// Answers the requests of an input one after the other, and writes the reply to each before it reads the next one. A
/// request is the size of its name in one byte, the name, the size of its message in four bytes, and the message. It is
/// signed as it is read. A reply is its number in one byte, the size of its body in four, and the body. The body is the
/// signature for 0, the slot in four bytes for 28, and empty for any other number. All sizes are big-endian.
///
/// A name that isn't 1 to 128 visible characters of ASCII is answered 34. After a refusal the rest of the message is
/// read first, and discarded.
///
/// It ends with the number of replies where the input ends between two frames, and after 2^32 replies. Else it ends
/// with
///
/// - 35 where the input ends inside a frame, before its message;
/// - 27 where the input ends inside a message, or a read fails;
/// - 36 where a reply can't be written; what was bound stays bound.
///
/// 35 and 27 are replied, too, unless the request was refused for another reason before.
///
/// A message is read as far as it comes, whether or not its reply can be written. Reader and writer have no trace in
/// common, so the following is tested. A reply is written after the last byte of its message was read and before the
/// next request is, and is flushed at once. 36 comes only where a write fails. 27 comes only where a read fails or the
/// input ends, also of a reader that doesn't say how its reads end. It takes no memory but the signer's.
pub fn serve<S: Store, R: Source, I: Message, W: Write>(
    alloc: Global,
    signer: &mut Signer<S, R>,
    reader: &mut I,
    writer: &mut W,
) -> Result<u64, ServeFault>
    ensures { Serves S.Store R.Source I.Message signer.old signer.new reader.old reader.new
        (W.contents writer.old) (W.contents writer.new) result }
{
    let silent = Silent::new();
    let progress = KeyProgress::of(&signer.spec(), &silent);
    serve_telling(alloc, signer, reader, writer, &progress)
}

/// As `serve`, telling the progress of the trees that each request makes, as `sign_telling`.
pub fn serve_telling<S: Store, R: Source, I: Message, W: Write, P: TreeProgress>(
    alloc: Global,
    signer: &mut Signer<S, R>,
    reader: &mut I,
    writer: &mut W,
    progress: &KeyProgress<'_, P>,
) -> Result<u64, ServeFault>
    requires { types_of_key (the_key signer.old.records) ≡ Some progress.now.spec }
    ensures { Serves S.Store R.Source I.Message signer.old signer.new reader.old reader.new
        (W.contents writer.old) (W.contents writer.new) result }
{
    let mut signature = Vec::new(alloc);
    for count in 0..REPLIES {
        if !take_turn(signer, reader, writer, &mut signature, progress)? {
            return Ok(count);
        }
    }
    Ok(REPLIES)
}

// Reads the next frame and replies to it; false at the end of the input. Its message is read as far as it comes, before
// the reply is written.
fn take_turn<S: Store, R: Source, I: Message, W: Write, P: TreeProgress>(
    signer: &mut Signer<S, R>,
    reader: &mut I,
    writer: &mut W,
    signature: &mut Vec<u8>,
    progress: &KeyProgress<'_, P>,
) -> Result<bool, ServeFault>
    requires { types_of_key (the_key signer.old.records) ≡ Some progress.now.spec }
    ensures { Turns S.Store R.Source I.Message signer.old signer.new reader.old reader.new
        (W.contents writer.old) (W.contents writer.new) (vec_capacity signature.old) (vec_capacity signature.new)
        result }
{
    let head = match read_head(reader) {
        Ok(Some(head)) => head,
        Ok(None) => return Ok(false),
        Err(fault) => {
            write_reply(writer, fault.number(), &[])?;
            return Err(fault);
        }
    };
    let mut message = NextBytes {
        input: reader,
        left: head.announced,
    };
    let name = head.name.as_slice();
    let reply = ask(signer, name, &mut message, signature, progress);
    // For the prover: after each request the signer has its invariant.
    signer.keeps_invariant();
    let is_whole = finish(&mut message, &reply);
    let written = write_answer(&message, writer, &reply, signature);
    let NextBytes { input, .. } = message;
    // For the prover: this use tells what was read.
    let _ = &*input;
    written?;
    if !is_whole {
        return Err(ServeFault::MessageRead);
    }
    Ok(true)
}

// Reads the rest of a message after this reply; false where it can't be read.
fn finish<M: Message>(message: &mut M, reply: &Reply) -> bool
    ensures { Finishes M.Message (is_unread reply.now) message.old message.new result }
{
    !matches!(reply, Reply::Refused(SignFault::MessageRead)) && discard(message).is_ok()
}

// Asks the signer to sign a message, if the bytes are a name.
fn ask<S: Store, R: Source, M: Message, P: TreeProgress>(
    signer: &mut Signer<S, R>,
    name: &[u8],
    message: &mut M,
    signature: &mut Vec<u8>,
    progress: &KeyProgress<'_, P>,
) -> Reply
    requires { types_of_key (the_key signer.old.records) ≡ Some progress.now.spec }
    ensures asks { Asks S.Store R.Source M.Message name.now signer.old signer.new message.old message.new
        (vec_capacity signature.old) signature.new.items result }
    ensures capacity { KeepsCapacity signer.old.records (vec_capacity signature.old) (vec_capacity signature.new) }
    ensures caches { SettlesReply result name.now signer.old signer.new (vec_capacity signature.new) }
{
    let Ok(name) = Name::new(name) else {
        return Reply::BadName;
    };
    match signer.sign_telling(&name, message, signature, progress) {
        Ok(()) => Reply::Signed,
        Err(fault) => Reply::Refused(fault),
    }
}

// Writes a reply, for Ok with this signature. The message was read to its end before, or can't be read.
fn write_answer<M: Message, W: Write>(
    message: &M,
    writer: &mut W,
    reply: &Reply,
    signature: &[u8],
) -> Result<(), ServeFault>
    requires { WasReadOrFailed M.Message message.now }
    ensures { WritesReply (reply_bytes reply.now signature.now) (W.contents writer.old) (W.contents writer.new) result }
{
    // For the prover: the contract alone needs the message.
    let _ = message;
    match reply {
        Reply::Signed => write_reply(writer, 0, signature),
        Reply::Refused(SignFault::Damaged(slot)) => { write_reply(writer, 28, &slot.to_be_bytes()) }
        Reply::Refused(fault) => write_reply(writer, fault.number(), &[]),
        Reply::BadName => write_reply(writer, 34, &[]),
    }
}

// Writes a reply and flushes it. A body has fewer than 2^32 bytes, as each signature has.
fn write_reply<W: Write>(writer: &mut W, number: u8, body: &[u8]) -> Result<(), ServeFault>
    ensures { WritesReply (reply_frame number body.now) (W.contents writer.old) (W.contents writer.new) result }
{
    let size = u32::try_from(body.len()).map_err(write_failed)?;
    write_part(writer, &[number])?;
    write_part(writer, &size.to_be_bytes())?;
    write_part(writer, body)?;
    writer.flush().map_err(write_failed)
}

// Writes all of the bytes, or those before a write that fails.
fn write_part<W: Write>(writer: &mut W, bytes: &[u8]) -> Result<(), ServeFault>
    ensures { WritesReply bytes.now (W.contents writer.old) (W.contents writer.new) result }
{
    write_all(writer, bytes).map_err(write_failed)
}

// 36, whatever the error.
fn write_failed<E: Drop>(_error: E) -> ServeFault
    ensures { result ≡ ServeFault.WriteFailed }
{
    ServeFault::WriteFailed
}
