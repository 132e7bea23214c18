//! Laws of records, of textbook signatures and of the world of one key. The functions do nothing; their contracts are
//! proved for every list of records and of events.

ghost use Rattle.std.specs.Prelude.{◌≡◌, ◌≢◌, ◌⊎◌, ◌↔◌, ℕ, ◌+◌, ◌<◌, List, Some, None, Ok, true, length, slice_get};
ghost use Rattle.std.specs.Prelude.{Option, take};
ghost use Rattle.state_file.specs.declared.record.Bound.{Bound};
ghost use Rattle.state_file.specs.declared.record.Key.{Key};
ghost use Rattle.state_file.specs.declared.record.Record.{Record};
ghost use Rattle.state_file.specs.declared.record.Record.TheVariants.{Bound as BoundRecord};
ghost use Rattle.state_file.specs.declared.record.Secret.{Secret};
ghost use Rattle.state_file.specs.Laws.{IsCurrent, IsLegal, bottom_of, identifier_of, levels_of};
ghost use Rattle.sign_core.specs.declared.key.AnyPublic.{AnyPublic};
ghost use Rattle.sign_core.specs.Records.{IsNext, binding_at, current, deepest, first_illegal, free_at};
ghost use Rattle.sign_core.specs.Records.{has_identifier, the_key, next_leaf};
ghost use Rattle.sign_core.specs.BoundNames.{BoundInCalls, BoundInMoved, BoundInSession};
ghost use Rattle.sign_core.specs.Cuts.{CutLaw, StopLaw};
ghost use Rattle.sign_core.specs.Headline.{HeadlineLaw, IsBoundTo, IsValidUnder};
ghost use Rattle.sign_core.specs.HeadlineOfCalls.{HeadlineOfCalls, HeadlineOfMoved, SessionLaw};
ghost use Rattle.sign_core.specs.Key.{KeyVerdict};
ghost use Rattle.sign_core.specs.Lasting.{LastingLaw};
ghost use Rattle.sign_core.specs.Left.{LeftLaw};
ghost use Rattle.sign_core.specs.Once.{OnceLaw};
ghost use Rattle.sign_core.specs.Sound.{SoundLaw};
ghost use Rattle.sign_core.specs.AfterRefusal.{AfterRefusalLaw};
ghost use Rattle.sign_core.specs.Calls.{CallsLaw, StoppedLaw};
ghost use Rattle.sign_core.specs.Lives.{LivesLaw};
ghost use Rattle.sign_core.specs.Moves.{MovesLaw};
ghost use Rattle.sign_core.specs.NotEmpty.{NotEmptyLaw, NotEmptyOfCalls, RefusesWrongAnswers, RefusesWrongSigners};
ghost use Rattle.sign_core.specs.Opened.{OpenedLaw};
ghost use Rattle.sign_core.specs.RefusalOrder.{RefusalLaw};
ghost use Rattle.sign_core.specs.Sessions.{RequestLaw, ServeLaw};
ghost use Rattle.sign_core.specs.Signer.{View};
ghost use Rattle.sign_core.specs.SignerCalls.{SignerLaw};
ghost use Rattle.sign_core.specs.TwoSources.{SourcesLaw, either};
ghost use Rattle.sign_core.specs.World.{Handed};
ghost use Rattle.sign_core.specs.Textbook.{AllHaveSizes, AreSound, any_public_of, current_at, damaged_at};
ghost use Rattle.sign_core.specs.Textbook.{IsTreeChain, textbook_signature, tree_chain};

use crate::source::Source;
use state_file::{Disk, FileStore, Store};
use typecodes::Message;

/// What lookups find in a key's records.
///
/// - `current`: the current tree of a level. `chain`: the trees from the Key's down to one that was current. `next`:
///   the least number above all leaves that records name or retire in a tree.
/// - `legal`: a list of one record or more is legal exactly if none of its records is illegal. `first`: the first
///   illegal record is the first at which the list stops being legal.
/// - `deepest`: the deepest level with a free leaf. `exhausted`: where there is none, no leaf is free.
/// - `bound`, `unbound`: a record that binds the name; without one, no record binds it.
/// - `identifier`: an I stands in the records exactly if one of them makes a tree with it.
pub fn ledger_laws()
    ensures current { (records : List Record) (level tree : ℕ) →
        (current level records ≡ Some tree) ↔ IsCurrent records (length records) level tree }
    ensures chain { (records : List Record) (k level tree : ℕ) → IsCurrent records k level tree →
        IsTreeChain records level tree (tree_chain level records tree) }
    ensures next { (secret : Secret) (records : List Record) (tree : ℕ) →
        IsNext secret records tree (next_leaf secret records tree) }
    ensures legal { (records : List Record) → 0 < length records →
        (first_illegal records ≡ None) ↔ IsLegal records }
    ensures first { (records : List Record) (k : ℕ) → first_illegal records ≡ Some k →
        (k < length records) × ((k ≡ 0) ⊎ IsLegal (take k records)) × (IsLegal (take (k + 1) records) → ⊥) }
    ensures deepest { (secret : Secret) (records : List Record) (level : ℕ) → deepest secret records ≡ Some level →
        (level < levels_of secret) × (0 < free_at secret records level)
        × ((below : ℕ) → level < below → below < levels_of secret → free_at secret records below ≡ 0) }
    ensures exhausted { (secret : Secret) (records : List Record) → deepest secret records ≡ None →
        (level : ℕ) → level < levels_of secret → free_at secret records level ≡ 0 }
    ensures bound { (records : List Record) (name : List ℕ) (k : ℕ) (bound : Bound) →
        binding_at records name ≡ Some (k, bound) →
        (slice_get records k ≡ Some (BoundRecord bound)) × (bound.name ≡ name) }
    ensures unbound { (records : List Record) (name : List ℕ) (k : ℕ) (bound : Bound) →
        binding_at records name ≡ None → slice_get records k ≡ Some (BoundRecord bound) → bound.name ≢ name }
    ensures identifier { (records : List Record) (identifier : List ℕ) →
        (has_identifier records identifier ≡ true)
        ↔ ((k : ℕ) × (entry : Record) × (slice_get records k ≡ Some entry) × (identifier_of entry ≡ Some identifier)) }
{}

/// What holds of textbook signatures.
///
/// - `valid`: over sound records, a binding's signature is valid for each message with its digest.
/// - `checked`: the same over legal records, if the chain of the binding's trees is sound.
/// - `undamaged`: sound records have no damaged chain.
/// - `accepted`: a signature is valid exactly if `Ok` is a right answer of verification (`verify_any`).
pub fn textbook_laws()
    ensures valid { (records : List Record) (key : Key) (name message : List ℕ) (k : ℕ) (bound : Bound)
        (public : AnyPublic) →
        AreSound records → AllHaveSizes records → IsBoundTo records key name message k bound →
        any_public_of key ≡ Some public → IsValidUnder public message (textbook_signature key records k bound) }
    ensures checked { (records : List Record) (key : Key) (name message : List ℕ) (k : ℕ) (bound : Bound)
        (public : AnyPublic) → IsLegal records → AllHaveSizes records → IsBoundTo records key name message k bound →
        damaged_at key (bottom_of key.secret) records (current_at (bottom_of key.secret) records k) ≡ None →
        any_public_of key ≡ Some public → IsValidUnder public message (textbook_signature key records k bound) }
    ensures undamaged { (records : List Record) (key : Key) (level tree : ℕ) → AreSound records →
        the_key records ≡ Some key → damaged_at key level records tree ≡ None }
    ensures accepted { (public : AnyPublic) (message bytes : List ℕ) →
        IsValidUnder public message bytes ↔ KeyVerdict public message bytes (Ok (tt {0})) }
{}

/// No leaf of a key signs twice.
///
/// The law is about every run that begins with no records: any creates, openings, requests, retirings, migrations and
/// crashes, in any number and order. A request may come again, as after a lost answer, or with another message under
/// the same name. In each event a load, the random source, memory, the message or the store may fail. An append that is
/// cut leaves the old records, or the new one as well, and closes the signer until the next opening. After each such
/// run these hold:
///
/// - No leaf at any level signs two digests, and none of the bottom level signs under two names. A signature's leaves
///   and digests are read from the bytes handed out, the message and the public key.
/// - One name has one signature.
/// - Every signature handed out is the one that the records determine, and it is valid for its message under the key.
///   That message was read.
/// - An open signer refuses a bound name with another digest as changed. For the bound digest it gives the recorded
///   signature, unless memory is refused or the message can't be read. Neither changes anything.
/// - A request for a new name gets the next leaf if one is left, the name fits the key's version, the store isn't full
///   and nothing fails. Then only an I that is drawn again refuses it (24).
/// - No refusal of a request binds a name, unless the store's device failed (25).
/// - A retiring beyond the next leaf is recorded, if the tree has these leaves, the store isn't full and nothing fails.
///   Any other changes nothing, unless the device failed, and the law says what it answers.
/// - The recorded root is the recorded secret's, so no request is refused for a damaged record.
///
/// The clause `headline` says: no leaf signs two digests or under two names, one name has one signature, and each
/// signature is recorded and valid (`specs/Headline.antt`). `once` has it, too, and the other clauses by subject
/// (`specs/Requests.antt`, `Retirings.antt`, `Openings.antt`). The events are in `specs/Events.antt` and `World.antt`.
/// The law speaks of digests: it doesn't tell two messages with one digest apart.
pub fn once_law()
    ensures headline { HeadlineLaw }
    ensures once { OnceLaw }
{}

/// Each event leaves sound records: their roots and digests are what the recorded secrets make.
///
/// A create where no record stands leaves sound records, or none, and every later event leaves them sound. Over them no
/// request is refused for a damaged record, and no opening for records that aren't legal (`once_law`).
pub fn sound_law()
    ensures sound { SoundLaw }
{}

/// What holds over any legal records whose parts have their sizes, whoever wrote them.
///
/// Their roots and digests may be wrong: before it signs under a tree a signer compares it with its record, and refuses
/// a record that differs as damaged. So
///
/// - an opening where nothing fails opens the signer on them, and answers the public key of record 0;
/// - every event leaves legal records;
/// - each signature that a request gives, or a run hands out, is valid under that key for the message that was read, in
///   every scheme;
/// - a record refused as damaged (28) is the first in its chain of trees, from the top down, that differs from the
///   secrets, and nothing changed.
///
/// The clauses are in `specs/Opened.antt`.
pub fn opened_law()
    ensures opened { OpenedLaw }
{}

/// Which refusal an event answers: the first cause that applies, in the event's order. Without one the answer is Ok.
///
/// - A request: 26, 31.
/// - Under a bound name then: 27, 21, 29, 28.
/// - Under a new name then: 33, 22, 30, 29, 28. For each new tree: 23 where I isn't drawn, 24, 23 where SEED or C
///   isn't, 25 or 29 of its append. For the binding: 23, 27, 25 or 29.
/// - A retiring: 26, 31, 32; then Ok where it retires nothing; else 30, 25 or 29.
/// - A create: why record 0 couldn't be loaded, 50, 23, 29, 25 or 29 of its append.
/// - An opening: 44 of the first record that isn't legal, if each one up to it was loaded; why one couldn't be loaded;
///   40.
///
/// The clauses are in `specs/RefusalOrder.antt`: each refusal has one of these causes, and no earlier cause applies. So
/// no two refusals fit one event.
pub fn refusal_law()
    ensures refusals { RefusalLaw }
{}

/// What stands after a refusal.
///
/// A refused request binds no name. It leaves the old records and drew nothing, unless it was to bind a new name. Then
/// the trees that it had begun, if any, stand after the old records. They go from the deepest level with a free leaf
/// downwards, each under the next leaf of the one above, and made of its draw. It drew what these and the next record
/// are made of; after 24 only the I of the next.
///
/// Only after 25 one more record may stand, the one whose append failed. It is the next tree; or, after the last tree,
/// this name's binding to the next leaf, with the drawn C and the digest of the message.
///
/// A refused retiring, create or opening leaves the old records. After 25 of an append its Retire may stand, or the Key
/// of the drawn secret.
///
/// The clauses are in `specs/AfterRefusal.antt`.
pub fn after_refusal_law()
    ensures refused { AfterRefusalLaw }
{}

/// No event removes or replaces a record or a signature. Only a migration drops a Moved, and makes version 1 version 2.
pub fn lasting_law()
    ensures lasting { LastingLaw }
{}

/// Where an append is cut, the event with the other outcome can come as well, and leaves the other list.
pub fn cut_law()
    ensures cut { CutLaw }
{}

/// What a crash inside an event leaves, whole events leave as well: the event with its append cut there, or a crash
/// alone.
pub fn stop_law()
    ensures stops { StopLaw }
{}

/// A chain of calls is a run of the world, and the law over all runs holds of it.
///
/// Each call ends, or a crash at a moment of it leaves a beginning of the records that the call reaches, no shorter
/// than the old records. Whatever the crash leaves, the next call may be an opening of it.
pub fn calls_law()
    ensures calls { CallsLaw }
{}

/// A run of the world leaves what a crash leaves of a store, at any moment since the first of some calls on it. The
/// first of these calls end, and then events that can come leave it.
///
/// Each call is an event. By its contract a crash at any moment of it leaves a beginning of the records that the event
/// reaches, no shorter than the old records. Or it leaves the store as it was.
pub fn stopped_law<S: Store>()
    ensures stopped { StoppedLaw S.Store }
{}

/// The lives of one disk are a run of the world, and the law over all runs holds of it.
///
/// In each life a store is opened on the disk (`FileStore::open`), or prepared (`FileStore::format`), and calls of
/// signers on it end. A crash may come at any moment of an opening or of a call, or between two. The next life begins
/// with what it left, or without a crash with the same disk. Whatever content is left at the end has one list of
/// records. A run of the world leads to this list, and hands out exactly the signatures of the calls that ended.
///
/// The disk keeps what was synced. As the first life begins it has no key, or a run of the world leads to its records.
/// The latter holds of the new place of a migration, with all that was handed out before (`migrates`). `signer_law`
/// says which calls of a signer are such calls (`lasts`).
pub fn lives_law<D: Disk + Drop>()
    ensures lives { LivesLaw D.Disk ⟦<FileStore<D> as Store>⟧ }
{}

/// A migration goes on with the lives of one key: the law over all runs holds across it.
///
/// A run of the world leads to the old disk's content, as after any of its lives (`lives_law`). Then a run that handed
/// out the same signatures leads to whatever a crash at any moment of the migration leaves there. It also leads to
/// whatever a crash leaves at the new place, except for what a crash just before could leave, and a place without a
/// key. After Ok that is the only content at the new place. So lives of the new disk may begin there, and in all
/// signatures, from before and after the migration, no leaf signs two digests.
///
/// Lives of both disks side by side are no run: `migrate_key` says that no two files can sign.
pub fn moves_law<D: Disk + Drop, E: Disk + Drop>()
    ensures moves { MovesLaw D.Disk E.Disk }
{}

/// Over an honest store, each call of an open signer, each create and each opening is an event of `once_law`'s world:
/// the one in its own contract. Over any store, a call of a closed signer answers 26, and is an event that leaves the
/// world as it was. So is a create or an opening on a store that has stopped.
///
/// A crash at any moment of the call leaves what a crash of the event leaves. After the call the signer is open exactly
/// if the world is, and then on the same records. Its answer is what the event hands out, for the message that was
/// read. A refused create or opening leaves no signer open, and the world on the records of the store that is handed
/// back. A call of a closed signer, or on a store that has stopped, leaves the store as it was, and hands out nothing.
///
/// So all calls of one signer from its create or opening on, whatever they answer, are a chain of calls for
/// `stopped_law`, and each of them lasts, as `lives_law` requires.
///
/// `requests`: a call of `sign` is a request of `headline_law`, whose text its message gave to the end. `serves`: a
/// serve is a chain of such requests, which hand out exactly the signatures of its replies.
pub fn signer_law<S: Store, R: Source, M: Message>()
    ensures signer { SignerLaw S.Store R.Source M.Message }
    ensures requests { RequestLaw S.Store R.Source M.Message }
    ensures serves { ServeLaw S.Store R.Source M.Message }
{}

/// The headline, of all calls over one store: creates, openings, signings, requests of a serve and retirings, one after
/// the other, whatever they answer.
///
/// The store is honest, runs, and begins without records, as one in memory does. Then what `headline_law` says of calls
/// over a disk holds of these.
pub fn session_law<S: Store, R: Source, M: Message>()
    ensures session { SessionLaw S.Store R.Source }
    ensures names { BoundInSession S.Store R.Source }
{
    signer_law::<S, R, M>();
}

/// The headline, of all calls over one disk, in all its lives, and over another to which the key was moved.
///
/// In each life a store is opened on the disk, or prepared. Then come creates, openings, signings, requests of a serve
/// and retirings, one after the other, whatever they answer. Or the key is moved to another disk, which may fail. A
/// crash may come between two calls or inside one, also in the opening of the store. The next life begins with what it
/// left, or without a crash with the same disk. The disk keeps what was synced, and has no key as the first life
/// begins. A request has the text that its message gave; of `sign` that is the clause `requests` of `signer_law`. Then
/// of all signatures that these calls answered (`calls`):
///
/// - No leaf at any level signs two digests, and none of the bottom level signs under two names. One name has one
///   signature. Each is valid for the text that was read, under whichever public key a create or an opening gave.
/// - The next request under a name that was signed is refused as changed (21), if its text has another digest under
///   the signature's bottom leaf. For the signed digest it gets the signature that was handed out, or 29 where memory
///   is refused. Before these come 26 of a closed signer, 31 after a Moved, and 27 of a message that can't be read;
///   nothing else comes. Names that a crash left bound are `bound_law`'s.
///
/// So it is, too, where the key was moved and the calls go on over the new disk, of all signatures of both (`moved`).
/// They go on after an Ok. After any other answer, or a crash in the migration, they go on once all that a crash may
/// leave at the new place has the key. The premises are the calls' own contracts, and the signer's invariant after each
/// call (`Signer::keeps_invariant`). `specs/HeadlineOfCalls.antt` says it, and `specs/Sessions.antt` has the calls and
/// the lives.
pub fn headline_law<D: Disk + Drop, E: Disk + Drop, R: Source, M: Message>()
    ensures calls { HeadlineOfCalls D.Disk E.Disk ⟦<FileStore<D> as Store>⟧ R.Source }
    ensures moved { HeadlineOfMoved D.Disk E.Disk ⟦<FileStore<D> as Store>⟧ ⟦<FileStore<E> as Store>⟧ R.Source }
{
    signer_law::<FileStore<D>, R, M>();
    signer_law::<FileStore<E>, R, M>();
}

/// The headline, where signers have sources of two types, as those of `sign` and `retire` may.
///
/// A source of either type is one of a type that has both (`specs/TwoSources.antt`). With it a signer's calls are the
/// same: each meets its contract, hands out the same signatures and gives the same public key (`same`). And the
/// headline holds of all these calls in any order (`calls`, `moved`).
pub fn two_sources_law<D: Disk + Drop, E: Disk + Drop, R: Source, Q: Source, M: Message>()
    ensures same { SourcesLaw ⟦<FileStore<D> as Store>⟧ R.Source Q.Source }
    ensures calls { HeadlineOfCalls D.Disk E.Disk ⟦<FileStore<D> as Store>⟧ (either R.Source Q.Source) }
    ensures moved { HeadlineOfMoved D.Disk E.Disk ⟦<FileStore<D> as Store>⟧ ⟦<FileStore<E> as Store>⟧
        (either R.Source Q.Source) }
{
    signer_law::<FileStore<D>, R, M>();
    signer_law::<FileStore<E>, R, M>();
}

/// What the next request gets under a bound name, after the calls of `headline_law`.
///
/// It has one signature, also where none was handed out for it, as after a crash. The next request under it is refused
/// as changed (21), if its message hasn't the bound digest. For the bound digest it gets this signature, or 29 where
/// the output lacks memory for it or a cache of its trees is missing. Before these come 26 of a closed signer, 31 after
/// a Moved, and 27 of a message that can't be read. A name that was signed is bound, and the signature is the one that
/// was handed out.
pub fn bound_law<D: Disk + Drop, E: Disk + Drop, R: Source, M: Message>()
    ensures calls { BoundInCalls D.Disk E.Disk ⟦<FileStore<D> as Store>⟧ R.Source }
    ensures moved { BoundInMoved D.Disk E.Disk ⟦<FileStore<D> as Store>⟧ ⟦<FileStore<E> as Store>⟧ R.Source }
{
    signer_law::<FileStore<D>, R, M>();
    signer_law::<FileStore<E>, R, M>();
}

/// `left` counts the signatures that leaves allow, for each request to `sign` or to a serve and each retiring. A full
/// store refuses with 30 before.
///
/// A free leaf of the bottom level signs a name, and one above it a new tree of the next level with all of its leaves.
/// `signatures_left` in `specs/Left.antt` adds up the counts that `Signer::left` gives in this way.
///
/// - An open signer whose records end with no Moved answers 22 to a new name exactly where the sum is 0. A file of the
///   key's version can hold the name.
/// - A new name that is signed takes one, also where new trees are made for it.
/// - A refused name takes none of the signer's records, and neither does a bound one. After 25 the file may still have
///   the binding. A retiring takes the leaves that it retires.
pub fn left_law<S: Store, R: Source>()
    ensures left { LeftLaw S.Store R.Source }
{}

/// Signatures are handed out: the laws over all runs aren't empty.
///
/// For every spec, and any name that a file of the key's version can hold, some run of the world hands out a signature
/// under this name, for any message: a create, and then the request. The store takes nine records. So do two calls by
/// their contracts, over a store in memory and any source whose next bytes aren't known (`calls`).
pub fn not_empty_law<R: Source>()
    ensures runs { NotEmptyLaw }
    ensures calls { NotEmptyOfCalls R.Source }
{}

/// The headline's clauses are false of signers that go wrong, whatever their contracts are.
///
/// - `signatures`: two signers, as of a disk and an old copy, that sign two digests by one leaf; lives with different
///   keys; a life that forgot the records, and gives a name another signature.
/// - `answers`: under a name that was signed, other bytes than its signature, bytes for a changed text, 21 for a
///   repeat, 26 of an open signer, 31 without a Moved, 27 of a message that can be read, and any other refusal but 29,
///   as 22.
pub fn wrong_signers_law<S, R>()
    ensures signatures { RefusesWrongSigners }
    ensures answers { (public : AnyPublic) (signer : View S R) (x : Handed) (given : Option (List ℕ)) →
        RefusesWrongAnswers public signer x given }
{}
