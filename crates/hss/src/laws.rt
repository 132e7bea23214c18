//! Laws of spellings, verdicts and textbook signatures. The functions do nothing: their contracts are proved for every
//! key and signature.

ghost use Rattle.std.specs.Prelude.{◌≡◌, List, [], ◌∷◌, ◌++◌, ℕ, ◌+◌, ◌≤◌, length};
ghost use Rattle.typecodes.specs.declared.refusal.Refusal.{Refusal};
ghost use Rattle.typecodes.specs.Layout.{IsUnambiguous, Spells};
ghost use Rattle.typecodes.specs.Verdict.{VerdictLaws};
ghost use Rattle.hss.specs.declared.key.HssPublic.{HssPublic};
ghost use Rattle.lmots.specs.Hashes.{u32str};
ghost use Rattle.lms.specs.Signature.{signature as lms_signature};
ghost use Rattle.hss.specs.Key.{public_key};
ghost use Rattle.hss.specs.SignedKey.{SignedKey, signed_key, signed_keys};
ghost use Rattle.hss.specs.Signature.{Signature, signature};
ghost use Rattle.hss.specs.Verification.{IsValid, Verdict};
ghost use Rattle.hss.specs.Secret.{Signing};
ghost use Rattle.hss.specs.Writing.{AreSigning, AreSized, IsSized, level_at};
ghost use Rattle.hss.specs.Writing.{public_bytes, public_of, signature_bytes, textbook};

/// No public key or signature has two spellings, no bytes spell two of them, and no spelling begins another.
pub fn spelling_laws()
    ensures keys { IsUnambiguous public_key }
    ensures signatures { IsUnambiguous signature }
{}

/// The laws of verification's answers.
///
/// - A valid signature is refused only if the message can't be read (`accepted`).
/// - No bytes have two other refusals (`one_refusal`).
/// - Where the message may be refused, no earlier refusal comes (`read_in_turn`).
pub fn verdict_laws()
    ensures { VerdictLaws Verdict (λ key. signature) IsValid (λ key refusal.
        (bottom : ℕ) × (bottom + 1 ≡ key.levels) × (refusal ≡ Refusal.RootMismatch bottom)) }
{}

/// Laws of the textbook signatures of any levels.
///
/// - They are valid under the levels' key, if each level's digest is the digest of what it signs (`valid`).
/// - The bytes of the key and of a signature of at most 8 levels spell them, if the levels' values have their sizes
///   (`key`, `signature`).
pub fn textbook_laws()
    ensures valid { (above : List Signing) (bottom : Signing) (message : List ℕ) → AreSigning above bottom message
        → IsValid (public_of above bottom) message (textbook above bottom) }
    ensures key { (above : List Signing) (bottom : Signing) → length above ≤ 7 → IsSized (level_at above bottom 0)
        → Spells public_key (public_of above bottom) (public_bytes (public_of above bottom)) }
    ensures signature { (above : List Signing) (bottom : Signing) → length above ≤ 7 → AreSized above bottom
        → Spells signature (textbook above bottom) (signature_bytes (textbook above bottom)) }
{}

/// Laws of a signature that is written part by part. Signed keys one after the other spell themselves (`none`, `more`).
/// With their number before them and the bottom level's signature after them, they spell the signature (`whole`).
pub fn joining_laws()
    ensures none { Spells (signed_keys 0) [] [] }
    ensures more { (n : ℕ) (keys : List SignedKey) (last : SignedKey) (a b : List ℕ)
        → Spells (signed_keys n) keys a → Spells signed_key last b
        → Spells (signed_keys (n + 1)) (keys ++ last ∷ []) (a ++ b) }
    ensures whole { (s : Signature) (a b : List ℕ) → length s.signed ≤ 7
        → Spells (signed_keys (length s.signed)) s.signed a → Spells lms_signature s.bottom b
        → Spells signature s (u32str (length s.signed) ++ a ++ b) }
{}
