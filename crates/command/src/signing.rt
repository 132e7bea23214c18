//! What the commands do with a signer over any store, and what they write after its Ok.

ghost use Rattle.std.specs.Prelude.{Ok};
ghost use Rattle.sign_core.specs.Records.{the_key};
ghost use Rattle.command.specs.Signing.{Delivers, Publishes, RetiresBelow, WritesPublic};

use crate::files::Outlet;
use crate::refusal::Refusal;
use crate::trace::Role;
use arrayvec::ArrayVec;
use sign_core::{AnyPublic, Signer, Source};
use state_file::Store;

/// Writes a signature to its file, and gives its size in bytes. If that fails (53), the record stays, and the same
/// request gives the same signature again.
pub fn deliver<W: Outlet>(outlet: &mut W, path: &str, signature: &[u8]) -> Result<usize, Refusal>
    ensures { Delivers (Ok signature.now) path.now (W.trace outlet.old) (W.trace outlet.new) result }
{
    outlet.write(Role::Signature, path, signature)?;
    Ok(signature.len())
}

/// Writes a signer's public key to its file, and gives its 56 to 68 bytes.
pub fn publish<S: Store, R: Source, W: Outlet>(
    signer: &Signer<S, R>,
    outlet: &mut W,
    path: &str,
) -> Result<ArrayVec<u8, 68>, Refusal>
    ensures { Publishes (the_key signer.now.records) path.now (W.trace outlet.old) (W.trace outlet.new) result }
{
    write_public(&signer.public_key(), outlet, path)
}

/// Writes a public key to its file, and gives its 56 to 68 bytes.
pub fn write_public<W: Outlet>(
    public: &AnyPublic,
    outlet: &mut W,
    path: &str,
) -> Result<ArrayVec<u8, 68>, Refusal>
    ensures { WritesPublic public.now path.now (W.trace outlet.old) (W.trace outlet.new) result }
{
    let bytes = public.write();
    outlet.write(Role::Public, path, bytes.as_slice())?;
    Ok(bytes)
}

/// Retires the leaves of the current bottom tree below `upto`.
pub fn retire<S: Store, R: Source>(signer: &mut Signer<S, R>, upto: u32) -> Result<(), Refusal>
    ensures { RetiresBelow S.Store signer.old signer.new upto result }
{
    match signer.retire(upto) {
        Ok(()) => Ok(()),
        Err(fault) => Err(Refusal::Signer(fault)),
    }
}
