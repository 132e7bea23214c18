//! What is said to a person beside an answer's line.

ghost use Rattle.std.specs.Prelude.{◌≡◌, ◌∷◌, ℕ, List};
ghost use Rattle.command.specs.Refusal.{number_of};

use crate::refusal::Refusal;

/// Tells a person what an answer means. No contract has the words; they are tested.
pub trait Notes {
    // The numbers of the refusals that it heard of, the last one first; 0 for an answer that couldn't be written.
    ghost told: { Self → List ℕ };

    /// A command was refused. `word` is the name or the spec of its line, or empty.
    fn refused(&mut self, refusal: &Refusal, word: &str)
        ensures { told self.new ≡ number_of refusal.now ∷ told self.old };

    /// An answer couldn't be written to the output.
    fn unwritten(&mut self)
        ensures { told self.new ≡ 0 ∷ told self.old };
}
