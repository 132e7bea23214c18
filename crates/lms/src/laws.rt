//! Laws of spellings and verdicts. The functions do nothing: their contracts are proved for every key and signature.

ghost use Rattle.std.specs.Prelude.{◌≡◌};
ghost use Rattle.typecodes.specs.Layout.{IsUnambiguous};
ghost use Rattle.typecodes.specs.Verdict.{VerdictLaws};
ghost use Rattle.typecodes.specs.declared.refusal.Refusal.{Refusal};
ghost use Rattle.lms.specs.declared.key.LmsPublic.{LmsPublic};
ghost use Rattle.lms.specs.Key.{public_key};
ghost use Rattle.lms.specs.Signature.{signature};
ghost use Rattle.lms.specs.Verification.{IsValid, Verdict};

/// No public key or signature has two spellings, no bytes spell two of them, and no spelling begins another.
pub fn spelling_laws()
    ensures keys { IsUnambiguous public_key }
    ensures signatures { IsUnambiguous signature }
{}

/// The laws of verification's answers.
///
/// - A valid signature is refused only if the message can't be read (`accepted`).
/// - No bytes have two other refusals (`one_refusal`).
/// - Where the message may be refused, no earlier refusal comes (`read_in_turn`).
pub fn verdict_laws()
    ensures { VerdictLaws Verdict (λ key. signature) IsValid
        (λ key refusal. refusal ≡ Refusal.RootMismatch 0) }
{}
