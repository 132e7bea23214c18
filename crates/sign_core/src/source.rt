//! Sources of random bytes.

ghost use Rattle.std.specs.Prelude.{◌≡◌, ◌<◌, ◌↔◌, ◌∷◌, [], ℕ, List, Option, None, Some, IsErr, length};
ghost use Rattle.std.specs.Prelude.{IfOk, OnOk};
ghost use Rattle.typecodes.specs.Layout.{AreBytes};
ghost use Rattle.sign_core.specs.Events.{AreFields};
ghost use Rattle.sign_core.specs.inner.Source.{DrawsBytes};
ghost use Rattle.sign_core.specs.Source.{Fills};

use crate::fault::SignFault;
use rand_core::TryRng;
use thiserror::Error;
use typecodes::Count;

/// 23: the source has no bytes to give.
#[derive(Clone, Copy, Debug, PartialEq, Eq, Error)]
#[error("the source has no bytes to give")]
pub struct SourceFault;

/// A source of random bytes.
pub trait Source {
    ghost use Rattle.sign_core.specs.Source.{Fills};

    // how often it has failed
    ghost failures: { Self → ℕ };

    // the bytes still to come, if they are known
    ghost upcoming: { Self → Option (List ℕ) };

    /// Fills `into` with the next bytes, or answers 23.
    fn fill(&mut self, into: &mut [u8]) -> Result<(), SourceFault>
        ensures { Fills (failures self.old) (failures self.new) (upcoming self.old) (upcoming self.new) into.new
            result };
}

// For the prover: the same bytes, each below 256.
fn bytes_of<const N: usize>(bytes: [u8; N]) -> [u8; N]
    ensures same { result ≡ bytes.entry }
    ensures range { AreBytes result }
{
    bytes
}

pub(crate) fn draw<R: Source, const N: usize>(random: &mut R) -> Result<[u8; N], SignFault>
    ensures drawn { DrawsBytes (R.failures random.old) (R.failures random.new)
        (R.upcoming random.old) (R.upcoming random.new) result }
    ensures field { IfOk result (λ bytes. AreFields (N ∷ []) (bytes ∷ [])) }
{
    let mut bytes = [0u8; N];
    match random.fill(&mut bytes) {
        Ok(()) => Ok(bytes_of(bytes)),
        Err(_) => Err(SignFault::RandomFailed),
    }
}

/// A source of known bytes in their order, for tests and known answers.
#[derive(Drop)]
pub struct TapeSource<'a> {
    bytes: &'a [u8],
    failures: Count,
}

impl<'a> TapeSource<'a> {
    ghost use Rattle.sign_core.specs.Source.{tape_failures_of, tape_rest_of};

    /// The source of these bytes.
    pub fn new(bytes: &'a [u8]) -> Self
        ensures bytes { tape_rest_of result ≡ bytes.entry.now }
        ensures failures { tape_failures_of result ≡ 0 }
    {
        let failures = Count::new();
        TapeSource { bytes, failures }
    }
}

impl Source for TapeSource<'_> {
    ghost use Rattle.sign_core.specs.Source.{tape_failures_of, tape_rest_of};

    ghost failures = { tape_failures_of };

    ghost upcoming = { λ source. Some (tape_rest_of source) };

    /// Fills `into` with the next bytes; answers 23 if fewer are left.
    fn fill(&mut self, into: &mut [u8]) -> Result<(), SourceFault>
        ensures gives { Fills (tape_failures_of self.old) (tape_failures_of self.new)
            (Some (tape_rest_of self.old)) (Some (tape_rest_of self.new)) into.new result }
        ensures refuses { IsErr result ↔ length (tape_rest_of self.old) < length into.old }
    {
        if self.bytes.len() < into.len() {
            self.failures.add_one();
            return Err(SourceFault);
        }
        let (first, rest) = self.bytes.split_at(into.len());
        into.copy_from_slice(first);
        self.bytes = rest;
        Ok(())
    }
}

/// A source that draws from a generator of random bytes, such as the operating system's. Its next bytes aren't known.
#[derive(Drop)]
pub struct RngSource<T: TryRng> {
    rng: T,
    failures: Count,
}

impl<T: TryRng> RngSource<T> {
    ghost use Rattle.sign_core.specs.Source.{rng_failures_of, rng_of};

    /// The source that draws from this generator.
    pub fn new(rng: T) -> Self
        ensures rng { rng_of result ≡ rng }
        ensures failures { rng_failures_of result ≡ 0 }
    {
        let failures = Count::new();
        RngSource { rng, failures }
    }
}

impl<T: TryRng> Source for RngSource<T> {
    ghost use Rattle.sign_core.specs.Source.{rng_failures_of, rng_of};

    ghost failures = { rng_failures_of };

    ghost upcoming = { λ source. None };

    /// Fills `into` from the generator; answers 23 if the generator fails. That it fails only then is tested.
    fn fill(&mut self, into: &mut [u8]) -> Result<(), SourceFault>
        ensures fills { Fills (rng_failures_of self.old) (rng_failures_of self.new) None None into.new result }
        ensures gives { OnOk result (T.may_fill (rng_of self.old) into.new (rng_of self.new)) }
    {
        if self.rng.try_fill_bytes(into).is_err() {
            self.failures.add_one();
            return Err(SourceFault);
        }
        Ok(())
    }
}
