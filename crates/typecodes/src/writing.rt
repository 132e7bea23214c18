//! Writing bytes part by part.

ghost use Rattle.std.specs.Prelude.{◌≡◌, ◌+◌, ◌≤◌, ◌++◌, drop, length, take};

/// Writes bytes at an offset and returns the offset after them. Later bytes stay as they were.
pub fn put(into: &mut [u8], offset: usize, bytes: &[u8]) -> usize
    requires { offset + length bytes.now ≤ length into.old }
    ensures offset { result ≡ offset + length bytes.now }
    ensures bytes { take result into.new ≡ take offset into.old ++ bytes.now }
    ensures rest { drop result into.new ≡ drop result into.old }
{
    let end = offset + bytes.len();
    into[offset..end].copy_from_slice(bytes);
    end
}
