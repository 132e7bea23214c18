//! Laws of spellings and of verdicts. The functions do nothing: their contracts are theorems about every key and every
//! signature.

ghost use Rattle.std.specs.Prelude.{◌≡◌};
ghost use Rattle.typecodes.specs.Layout.{IsUnambiguous};
ghost use Rattle.typecodes.specs.Verdict.{VerdictLaws};
ghost use Rattle.typecodes.specs.declared.refusal.Refusal.{Refusal};
ghost use Rattle.typecodes.specs.declared.types.XmssType.{XmssType};
ghost use Rattle.xmss.specs.declared.key.XmssPublic.{XmssPublic};
ghost use Rattle.xmss.specs.Key.{public_key};
ghost use Rattle.xmss.specs.Signature.{signature};
ghost use Rattle.xmss.specs.Verification.{IsValid, Verdict};

/// Public keys, and signatures of each type, have one spelling. No bytes spell two of them, and no spelling begins
/// another.
pub fn spelling_laws()
    ensures keys { IsUnambiguous public_key }
    ensures signatures { (tree : XmssType) → IsUnambiguous (signature tree) }
{}

/// Laws of verification:
///
/// - `accepted`: a valid signature of the key's type is refused only where the message can't be read.
/// - `one_refusal`: apart from `MessageRead`, no bytes have two refusals.
/// - `read_in_turn`: where `MessageRead` may come, no refusal before it does.
pub fn verdict_laws()
    ensures { VerdictLaws Verdict (λ key. signature key.tree) IsValid
        (λ key refusal. refusal ≡ Refusal.RootMismatch 0) }
{}
