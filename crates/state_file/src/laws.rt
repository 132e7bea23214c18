//! Laws of slots, of contents, of stores over disks and of legal lists. The functions do nothing: their contracts are
//! theorems about every list of bytes or of records, and every store.

ghost use Rattle.std.specs.Prelude.{◌≡◌, ◌⊎◌, ◌+◌, ◌<◌, ◌≤◌, ◌↔◌, ℕ, List, [], ◌∷◌, ◌++◌, length, true};
ghost use Rattle.typecodes.specs.Layout.{Spells, OneSpelling};
ghost use Rattle.state_file.specs.declared.record.Record.{Record};
ghost use Rattle.state_file.specs.File.{HasNoKey, IsLongerThanAppended, SpellsRecords};
ghost use Rattle.state_file.specs.Opening.{ContentKind, OpensAs, no_key, spelled};
ghost use Rattle.state_file.specs.Laws.{CanSign, IsCurrent, IsLegal, has_moved};
ghost use Rattle.state_file.specs.Disk.{ChangesOnly, range_of};
ghost use Rattle.state_file.specs.File.{StandsFor};
ghost use Rattle.state_file.specs.FileStore.{StoreLaw};
ghost use Rattle.state_file.specs.Gates.{slot_and_gate};
ghost use Rattle.state_file.specs.Migration.{PlaceLaw, SealedLaw};
ghost use Rattle.state_file.specs.Slot.{slot_record};
ghost use Rattle.state_file.specs.declared.record.Version.{Version};

use crate::disk::Disk;

/// Bytes 1 to 223 of a slot, in either version: a record has one spelling (`once`), and bytes spell at most one record
/// (`one_record`).
pub fn slot_laws()
    ensures once { (version : Version) → OneSpelling (slot_record version) }
    ensures one_record { (version : Version) (entry other : Record) (fields : List ℕ) →
        Spells (slot_record version) entry fields → Spells (slot_record version) other fields → entry ≡ other }
{}

/// Laws of a disk's content:
///
/// - `kind_exists`, `once`: it opens as exactly one kind: the records of a key, or a reason why there are none.
/// - `standing`: if it stands for a list of records, it spells them or has no key. Each content that a crash in an
///   append leaves stands for one, so opening it reports none of 41 to 43.
/// - `prepared`: what a crash leaves while a place of under 257 bytes is prepared has no key.
/// - `appended`: what an append leaves, even one that a crash cut, is longer than appended only if the old content was.
/// - `cut_short`: if bytes of a file change, and two or more of its last records aren't found any more, it is longer
///   than appended. So each gate that closes shows, but the last record's.
pub fn content_laws()
    ensures kind_exists { (content : List ℕ) → (kind : ContentKind) × OpensAs content kind }
    ensures once { (content : List ℕ) (kind other : ContentKind) → OpensAs content kind → OpensAs content other →
        kind ≡ other }
    ensures standing { (records : List Record) (content : List ℕ) (kind : ContentKind) → StandsFor records content →
        OpensAs content kind → (kind ≡ no_key) ⊎ (kind ≡ spelled records) }
    ensures prepared { (content c : List ℕ) → length content < 257 →
        ChangesOnly (range_of 0 (0 ∷ []) ∷ []) content c → HasNoKey c }
    ensures appended { (count : ℕ) (content c : List ℕ) → ChangesOnly (slot_and_gate count ∷ []) content c →
        IsLongerThanAppended count c → IsLongerThanAppended count content }
    ensures cut_short { (records fewer : List Record) (content c : List ℕ) → SpellsRecords content records →
        SpellsRecords c fewer → length c ≡ length content → length fewer + 1 < length records →
        IsLongerThanAppended (length fewer) c }
{}

/// While a `FileStore` runs, a crash between two calls leaves a content that spells its records. Where there are none,
/// it leaves one without a key.
pub fn store_laws<D: Disk + Drop>()
    ensures { StoreLaw D.Disk }
{}

/// Laws of legal lists:
///
/// - `current`: records before a place decide which tree is current there.
/// - `one_current`: a level has at most one current tree.
/// - `no_key`, `moved`: a content without a key can't sign, nor one whose records end with a Moved.
/// - `beginning`: the first records of a legal list, one at least, are legal.
pub fn legal_laws()
    ensures current { (records more : List Record) (k level tree : ℕ) → k ≤ length records →
        IsCurrent (records ++ more) k level tree ↔ IsCurrent records k level tree }
    ensures one_current { (records : List Record) (k level tree other : ℕ) → IsCurrent records k level tree →
        IsCurrent records k level other → tree ≡ other }
    ensures no_key { (content : List ℕ) → HasNoKey content → CanSign content → ⊥ }
    ensures moved { (records : List Record) (content : List ℕ) → has_moved records ≡ true → StandsFor records content →
        CanSign content → ⊥ }
    ensures beginning { (records more : List Record) → 0 < length records → IsLegal (records ++ more) →
        IsLegal records }
{}

/// While a `Place` exists, a crash leaves no key on its disk (`places`). While a `Sealed` exists, it leaves records
/// that end with a Moved (`sealed`). So neither can sign.
pub fn migration_laws<D: Disk + Drop, E: Disk + Drop>()
    ensures places { PlaceLaw E.Disk }
    ensures sealed { SealedLaw D.Disk }
{}
