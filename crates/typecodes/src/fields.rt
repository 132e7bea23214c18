//! The laws of the fields that layouts are made of (`specs/Fields.antt`). The function does nothing: its contract is
//! the law, proved once.

ghost use Rattle.std.specs.Prelude.{◌≡◌, ◌≢◌, All, ◌↔◌, ℕ, List, Some, None};
ghost use Rattle.typecodes.specs.Layout.{OneSpelling};
ghost use Rattle.typecodes.specs.Fields.{number, block, values, typed};
ghost use Rattle.typecodes.specs.Types.{named};

/// Laws of the fields of layouts, and of any table of codes for types T.
///
/// - Each field's values are spelled in one way: numbers, blocks, values, and types by their code (`number`, `block`,
///   `values`, `typed`).
/// - The type that a code names has this code (`named`). A code names none exactly where no type of the table has it
///   (`unnamed`).
pub fn field_laws<T>()
    ensures number { OneSpelling number }
    ensures block { (n : ℕ) → OneSpelling (block n) }
    ensures values { (n : ℕ) → OneSpelling (values n) }
    ensures typed { (code : T → ℕ) (types : List T) → OneSpelling (typed code types) }
    ensures named { (code : T → ℕ) (types : List T) (c : ℕ) (t : T) → named code types c ≡ Some t → code t ≡ c }
    ensures unnamed { (code : T → ℕ) (types : List T) (c : ℕ) →
        (named code types c ≡ None) ↔ All (λ t. code t ≢ c) types }
{}
