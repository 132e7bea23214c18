//! Signatures of a key: how many bytes they have, the room for them, and their bytes.

ghost use Rattle.std.specs.Prelude.{◌≡◌, ◌≤◌, ◌<◌, ◌++◌, ◌∷◌, [], Some, length, IfErr, OnOk, OnErr, max, vec_capacity};
ghost use Rattle.sign_core.specs.Signer.{signature_size};
ghost use Rattle.sign_core.specs.inner.KeyTrees.{AreMade};
ghost use Rattle.sign_core.specs.inner.Signing.{WritesChain, pairs_of};
ghost use Rattle.sign_core.specs.Textbook.{Trees, trees_of};

use crate::fault::SignFault;
use hss::Level;
use state_file::Secret;

// Gives `out` the length of a signature of the key.
pub(crate) fn make_room(secret: &Secret, out: &mut Vec<u8>) -> Result<(), SignFault>
    ensures room { OnOk result (length out.new.items ≡ signature_size secret.now) }
    ensures reserved { OnOk result (signature_size secret.now ≤ vec_capacity out.new) }
    ensures refused { IfErr result (λ fault. fault ≡ SignFault.OutOfMemory) }
    // Memory is requested only where there is no room for it yet.
    ensures full { OnErr result (vec_capacity out.old < signature_size secret.now) }
    ensures capacity { vec_capacity out.old ≤ vec_capacity out.new }
    ensures most { vec_capacity out.new ≤ max (vec_capacity out.old) (signature_size secret.now) }
{
    let size = match secret {
        Secret::Lms(secret) => secret.pair.signature_len(),
        Secret::Hss { levels, .. } => hss::signature_len(levels),
        Secret::Xmss(secret) => secret.tree.signature_len(),
    };
    let size = size as usize;
    out.clear();
    out.reserve_exact(size).map_err(|_| SignFault::OutOfMemory)?;
    push_zeros(out, size);
    Ok(())
}

// Fills an empty output within its room. No contract says that `resize` takes no memory then.
fn push_zeros(out: &mut Vec<u8>, size: usize)
    requires empty { length out.old.items ≡ 0 }
    requires room { size ≤ vec_capacity out.old }
    ensures size { length out.new.items ≡ size }
    ensures capacity { vec_capacity out.new ≡ vec_capacity out.old }
{
    for _ in 0..size {
        out.push_reserved(0);
    }
}

/// Writes the signature of a key with this chain of trees, from the top down, over the whole of `into`. An XMSS key has
/// no chain.
pub(crate) fn write_chain(secret: &Secret, above: &[Level], last: &Level, into: &mut [u8])
    requires within_limit { length above.now ≤ 7 }
    requires made { AreMade (above.now ++ last.now ∷ []) }
    requires pairs { (trees : Trees) → trees_of secret.now ≡ Some trees
        → pairs_of (above.now ++ last.now ∷ []) ≡ trees.pairs }
    requires trees { (trees : Trees) × (trees_of secret.now ≡ Some trees) }
    requires room { length into.old ≡ signature_size secret.now }
    ensures { WritesChain secret.now (above.now ++ last.now ∷ []) into.new }
{
    match secret {
        Secret::Lms(_) => last.write(into),
        Secret::Hss { .. } => hss::write_signature(above, last, into),
        Secret::Xmss(_) => {}
    }
}
