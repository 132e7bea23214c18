//! The two ways to climb the chains of a signature.

/// Chains climb side by side, one per lane of a vector: fast, with stack for the values of all chains, and with code
/// for vectors.
#[derive(Clone, Copy, Debug)]
pub struct InLanes;

/// Chains climb one after the other: slower, with little stack and code, and without vectors.
#[derive(Clone, Copy, Debug)]
pub struct OneByOne;
