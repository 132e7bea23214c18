//! The log of a disk in memory: writes and syncs, and what a crash may leave after them.

ghost use Rattle.std.specs.Prelude.{reverse, ◌↔◌, IsTrue, ◌≡◌, ◌+◌, ◌≤◌, ◌<◌, ◌∷◌, [], ◌++◌, length, take, slice_range};
ghost use Rattle.std.specs.Prelude.{IfOk, OnOk, OnErr, MatchOption, ℕ, max, slice_index};
ghost use Rattle.state_file.specs.Disk.{IsOutside, greatest_end};
ghost use Rattle.state_file.specs.Log.{base_of, ranges_of, IsLongestLeft, Overlays};

use std::alloc::{AllocError, Global};

/// A write, done or refused, of this range; or a sync that succeeded, with the content then.
#[derive(Drop)]
pub(crate) enum Entry {
    Wrote { from: u64, to: u64 },
    Synced(Vec<u8>),
}

/// The content at the last sync.
#[tactic(auto, using(crate::proofs::Log::newest_taken))]
pub(crate) fn base<'a>(first: &'a [u8], log: &'a [Entry]) -> &'a [u8]
    ensures { result.now ≡ base_of first.now (reverse log.now) }
{
    let mut base = first;
    for entry in log {
        if let Entry::Synced(content) = entry {
            base = content;
        }
    }
    base
}

// The greatest length that a crash may leave.
#[tactic(auto, using(crate::proofs::Log::newest_taken))]
fn longest(base: &[u8], log: &[Entry]) -> u64
    ensures { result ≡ greatest_end (length base.now) (ranges_of (reverse log.now)) }
{
    let mut longest = base.len() as u64;
    for entry in log {
        longest = match entry {
            Entry::Wrote { to, .. } => longest.max(*to),
            Entry::Synced(_) => base.len() as u64,
        };
    }
    longest
}

// Whether no write since the last sync touched this offset.
#[tactic(auto, using(crate::proofs::Log::newest_taken))]
fn is_outside(offset: u64, log: &[Entry]) -> bool
    ensures { IsTrue result ↔ IsOutside offset (ranges_of (reverse log.now)) }
{
    let mut outside = true;
    for entry in log {
        outside = match entry {
            Entry::Wrote { from, to } => outside && (offset < *from || *to <= offset),
            Entry::Synced(_) => true,
        };
    }
    outside
}

/// The longest content that a crash may leave, with `byte` wherever it may leave any.
pub(crate) fn longest_left(
    alloc: Global,
    base: &[u8],
    log: &[Entry],
    byte: u8,
) -> Result<Vec<u8>, AllocError>
    ensures { IfOk result (λ c. IsLongestLeft byte base.now (ranges_of (reverse log.now)) c.items) }
{
    let longest = usize::try_from(longest(base, log)).map_err(|_| AllocError)?;
    let mut left = Vec::new(alloc);
    for offset in 0..longest {
        let kept = offset < base.len() && is_outside(offset as u64, log);
        left.push(if kept { base[offset] } else { byte })?;
    }
    Ok(left)
}

/// `len` bytes from `at` on, if they are there.
pub(crate) fn part(content: &[u8], at: u64, len: usize) -> Option<&[u8]>
    ensures { MatchOption result (length content.now < at + len)
        (λ p. (at + len ≤ length content.now) × (p.now ≡ slice_range content.now at (at + len))) }
{
    let at = usize::try_from(at).ok()?;
    content.get(at..at.checked_add(len)?)
}

/// Logs a write of all bytes, and writes the first `written` ones. Where memory is refused it does nothing.
pub(crate) fn write(
    content: &mut Vec<u8>,
    log: &mut Vec<Entry>,
    at: u64,
    bytes: &[u8],
    written: usize,
) -> Result<(), AllocError>
    requires { written ≤ length bytes.now }
    ensures content { OnOk result (Overlays at (take written bytes.now) content.old.items content.new.items) }
    ensures log { OnOk result (log.new.items ≡ log.old.items ++ Entry.Wrote at (at + length bytes.now) ∷ []) }
    ensures content_err { OnErr result (content.new.items ≡ content.old.items) }
    ensures log_err { OnErr result (log.new.items ≡ log.old.items) }
{
    let to = at.checked_add(bytes.len() as u64).ok_or(AllocError)?;
    log.push(Entry::Wrote { from: at, to })?;
    let done = overlay(content, at, &bytes[..written]);
    if done.is_err() {
        let _entry = log.pop();
    }
    done
}

// Puts bytes at `at`, with zeros in a gap before them. Where memory is refused it does nothing.
fn overlay(content: &mut Vec<u8>, at: u64, bytes: &[u8]) -> Result<(), AllocError>
    ensures content { OnOk result (Overlays at bytes.now content.old.items content.new.items) }
    ensures content_err { OnErr result (content.new.items ≡ content.old.items) }
{
    if bytes.is_empty() {
        return Ok(());
    }
    let at = usize::try_from(at).map_err(|_| AllocError)?;
    overwrite(content, at, bytes)
}

fn overwrite(content: &mut Vec<u8>, at: usize, bytes: &[u8]) -> Result<(), AllocError>
    ensures len { OnOk result (length content.new.items ≡ max (length content.old.items) (at + length bytes.now)) }
    ensures put { OnOk result
        ((i : ℕ) → i < length bytes.now → slice_index content.new.items (at + i) ≡ slice_index bytes.now i) }
    ensures before { OnOk result
        ((i : ℕ) → i < length content.old.items → i < at →
        slice_index content.new.items i ≡ slice_index content.old.items i) }
    ensures after { OnOk result
        ((i : ℕ) → i < length content.old.items → at + length bytes.now ≤ i →
        slice_index content.new.items i ≡ slice_index content.old.items i) }
    ensures gap { OnOk result
        ((i : ℕ) → length content.old.items ≤ i → i < at → i < length content.new.items →
        slice_index content.new.items i ≡ 0) }
    ensures content_err { OnErr result (content.new.items ≡ content.old.items) }
{
    let end = at.checked_add(bytes.len()).ok_or(AllocError)?;
    if end > content.len() {
        content.resize(end, 0)?;
    }
    content[at..end].copy_from_slice(bytes);
    Ok(())
}

/// Logs a sync.
pub(crate) fn keep(alloc: Global, content: &[u8], log: &mut Vec<Entry>) -> Result<(), AllocError>
    ensures log { OnOk result
        ((copy : _) × (copy.items ≡ content.now) × (log.new.items ≡ log.old.items ++ Entry.Synced copy ∷ [])) }
    ensures log_err { OnErr result (log.new.items ≡ log.old.items) }
{
    let copy = content.to_vec(alloc)?;
    log.push(Entry::Synced(copy))?;
    Ok(())
}
