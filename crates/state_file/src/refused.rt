//! What a refused call gives back.

/// The refusal of a call that took `given` by value.
#[derive(Drop)]
pub struct Refused<T, F> {
    pub fault: F,
    pub given: T,
}
