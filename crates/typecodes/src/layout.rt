//! The laws of layouts (`specs/Layout.antt`). These functions do nothing: their contracts are proved for every layout,
//! so that no format proves them again.

ghost use Rattle.std.specs.Prelude.{◌≡◌, ◌≤◌, ◌+◌, ◌↔◌, ◌⊎◌, ℕ, List, [], ◌++◌, length, Result, Ok, Err};
ghost use Rattle.typecodes.specs.declared.fault.ReadFault.{ReadFault};
ghost use Rattle.typecodes.specs.Layout.{Layout, Spells, HasFault, InTurn, sequenced, OneSpelling, Shows};
ghost use Rattle.typecodes.specs.Cursor.{read, read_all, and_then, Gives, Reads, StandsAt};

/// Laws of every layout of values V.
///
/// - Bytes spell a value or have a fault (`either`), not both (`not_both`), and only one of each (`one_value`,
///   `one_fault`).
/// - No spelling begins another (`no_longer`).
/// - Reading to the end gives the spelled value (`value_read`), or else the first fault (`fault_read`).
/// - Reading amid other bytes finds the value that stands at the place, and only such a value (`found`, `stands`).
pub fn layout_laws<V>()
    ensures either { (layout : Layout V) (bytes : List ℕ) →
        ((v : V) × Spells layout v bytes) ⊎ ((fault : ReadFault) × HasFault layout bytes 0 fault) }
    ensures not_both { (layout : Layout V) (v : V) (bytes : List ℕ) (fault : ReadFault) →
        Spells layout v bytes → HasFault layout bytes 0 fault → ⊥ }
    ensures one_value { (layout : Layout V) (v w : V) (bytes : List ℕ) →
        Spells layout v bytes → Spells layout w bytes → v ≡ w }
    ensures one_fault { (layout : Layout V) (bytes : List ℕ) (fault other : ReadFault) →
        HasFault layout bytes 0 fault → HasFault layout bytes 0 other → fault ≡ other }
    ensures no_longer { (layout : Layout V) (v w : V) (a b : List ℕ) →
        Spells layout v a → Spells layout w (a ++ b) → (b ≡ []) × (v ≡ w) }
    ensures value_read { (layout : Layout V) (v : V) (bytes : List ℕ) →
        Spells layout v bytes ↔ (read_all layout bytes ≡ Ok v) }
    ensures fault_read { (layout : Layout V) (fault : ReadFault) (bytes : List ℕ) →
        HasFault layout bytes 0 fault ↔ (read_all layout bytes ≡ Err fault) }
    ensures found { (layout : Layout V) (v : V) (before own after : List ℕ) → Spells layout v own →
        read layout (before ++ (own ++ after)) (length before) ≡ Ok (v, length before + length own) }
    ensures stands { (layout : Layout V) (v : V) (bytes : List ℕ) (place next : ℕ) → place ≤ length bytes →
        read layout bytes place ≡ Ok (v, next) → StandsAt layout v bytes place next }
{}

/// Laws of a layout of values V, followed by a layout of values W that depends on the first value.
///
/// - The bytes spell one value after the other (`in_turn`), and are read in this order (`read_on`).
/// - If each layout spells its values in one way, and the second's show the first's, both together do (`one_spelling`).
/// - A reader whose answer, seen as a V, is the answer of reading to the end reads the layout (`reader`).
pub fn following_laws<V, W>()
    ensures in_turn { (first : Layout V) (next : V → Layout W) (w : W) (bytes : List ℕ) →
        Spells (sequenced first next) w bytes ↔ InTurn first next w bytes }
    ensures read_on { (first : Layout V) (next : V → Layout W) (bytes : List ℕ) (place : ℕ) →
        read (sequenced first next) bytes place
        ≡ and_then (read first bytes place) (λ x. read (next x.0) bytes x.1) }
    ensures one_spelling { (first : Layout V) (next : V → Layout W) (of : W → V) → OneSpelling first →
        ((v : V) → OneSpelling (next v)) → ((v : V) → Shows (next v) of v) → OneSpelling (sequenced first next) }
    ensures reader { (layout : Layout V) (view : W → V) (bytes : List ℕ) (result : Result W ReadFault) →
        Gives view result (read_all layout bytes) → Reads layout view bytes result }
{}
