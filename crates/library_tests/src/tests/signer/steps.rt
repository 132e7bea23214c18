//! What a key is asked, step by step, and what it answers. A create, an opening or a step that is refused memory comes
//! again, and is then answered.

use super::*;
use std::cell::Cell;

// Fills a draw with one number, and the next draw with the next number.
#[derive(Drop)]
pub(crate) struct Numbers<'a> {
    pub(super) next: &'a Cell<u8>,
}

impl Source for Numbers<'_> {
    ghost use Rattle.std.specs.Prelude.{None};

    ghost failures = { λ _. 0 };

    ghost upcoming = { λ _. None };

    fn fill(&mut self, into: &mut [u8]) -> Result<(), SourceFault> {
        let next = self.next.get();
        into.fill(next);
        self.next.set(next.wrapping_add(1));
        Ok(())
    }
}

// - `Sign`: a name's number, the byte of the message, and the fault.
// - `Retire`: the end of the retired leaves, and the fault.
// - `Left`: the free leaves of each level.
// - `Made`: how many leaves the caches of levels 0 to 2 have made, None without a cache.
#[derive(Clone, Copy)]
pub(super) enum Step<'a> {
    Sign(u8, u8, Option<SignFault>),
    Retire(u32, Option<SignFault>),
    Left(&'a [u32]),
    Made([Option<u64>; 3]),
}

// The next number of a key's source, and how often memory was refused to its create or an opening, and to a step. Of
// these, `names` counts each `Sign` after a draw, and `retires` each `Retire`.
#[derive(Drop)]
pub(crate) struct Seen {
    pub(crate) next: Cell<u8>,
    pub(super) openings: Cell<u32>,
    pub(super) steps: Cell<u32>,
    pub(super) names: Cell<u32>,
    pub(super) retires: Cell<u32>,
}

pub(crate) fn seen_from(next: u8) -> Seen {
    Seen {
        next: Cell::new(next),
        openings: Cell::new(0),
        steps: Cell::new(0),
        names: Cell::new(0),
        retires: Cell::new(0),
    }
}

fn count_one(count: &Cell<u32>) {
    count.set(count.get().wrapping_add(1));
}

// Counts a refusal of memory to a step. `before` was the source's next number before it.
fn note(seen: &Seen, step: &Step<'_>, before: u8) {
    count_one(&seen.steps);
    match step {
        Step::Sign(_, _, _) if seen.next.get() != before => count_one(&seen.names),
        Step::Retire(_, _) => count_one(&seen.retires),
        _ => {}
    }
}

// The signer of a new key. If memory is refused it is made at the second try, with the same draws.
pub(crate) fn created_by<'a, S: Store + Drop>(
    alloc: Global,
    text: &str,
    store: S,
    seen: &'a Seen,
) -> Option<Signer<S, Numbers<'a>>> {
    if store.limit() == 0 {
        return None;
    }
    let spec = Spec::parse(text).ok()?;
    let first = seen.next.get();
    match create(alloc, spec, store, Numbers { next: &seen.next }) {
        Ok(signer) => Some(signer),
        Err(refused) => match refused.fault {
            SignFault::OutOfMemory => {
                count_one(&seen.openings);
                seen.next.set(first);
                let (store, random) = refused.given;
                created(alloc, text, store, random)
            }
            _ => None,
        },
    }
}

// The signer of a store, at the second try if memory is refused.
fn opened_by<'a, S: Store + Drop>(
    alloc: Global,
    store: S,
    seen: &'a Seen,
) -> Option<Signer<S, Numbers<'a>>> {
    match open(alloc, store, Numbers { next: &seen.next }) {
        Ok(signer) => Some(signer),
        Err(refused) => match refused.fault {
            SignFault::NoMemoryToOpen => {
                count_one(&seen.openings);
                let (store, random) = refused.given;
                open(alloc, store, random).ok()
            }
            _ => None,
        },
    }
}

pub(super) fn name_of(number: u8) -> Option<Name> {
    Name::new(&[b'0'.wrapping_add(number)]).ok()
}

// Whether no name was bound, by the free leaves of the lowest tree before and after. A tree of height 5 may have
// replaced a used-up one.
fn binds_none(before: Option<u32>, after: Option<u32>) -> bool {
    before == after || (before == Some(0) && after == Some(32))
}

// Whether the signature is valid, a refusal leaves no byte, and refused memory binds no name. `before` has the free
// leaves of the lowest tree before the request.
fn is_right<S: Store, R: Source>(
    signer: &Signer<S, R>,
    before: Option<u32>,
    text: &[u8],
    fault: Option<SignFault>,
    out: &[u8],
) -> bool {
    match fault {
        None => is_valid(&signer.public_key(), text, out),
        Some(SignFault::OutOfMemory) => out.is_empty() && binds_none(before, lowest_left(signer)),
        Some(_) => out.is_empty(),
    }
}

// The fault of a request, if any. None where that isn't right.
fn request<S: Store, R: Source>(
    signer: &mut Signer<S, R>,
    name: &Name,
    text: &[u8],
    out: &mut Vec<u8>,
) -> Option<Option<SignFault>> {
    let before = lowest_left(signer);
    let fault = sign(signer, name, text, out);
    if is_right(signer, before, text, fault, out) {
        Some(fault)
    } else {
        None
    }
}

// The same for a name by its number.
fn request_by<S: Store, R: Source>(
    signer: &mut Signer<S, R>,
    number: u8,
    message: u8,
    out: &mut Vec<u8>,
) -> Option<Option<SignFault>> {
    match name_of(number) {
        Some(name) => request(signer, &name, &[message], out),
        None => None,
    }
}

fn has_left<S: Store, R: Source>(signer: &Signer<S, R>, counts: &[u32]) -> bool {
    signer.left().as_slice() == counts
}

fn has_made<S: Store, R: Source>(signer: &Signer<S, R>, made: &[Option<u64>; 3]) -> bool {
    signer.cache_leaves(0) == made[0]
        && signer.cache_leaves(1) == made[1]
        && signer.cache_leaves(2) == made[2]
}

// The fault of a step, if any. None where another part of its answer is wrong.
fn came<S: Store, R: Source>(
    signer: &mut Signer<S, R>,
    step: &Step<'_>,
    out: &mut Vec<u8>,
) -> Option<Option<SignFault>> {
    match step {
        Step::Sign(number, message, _) => request_by(signer, *number, *message, out),
        Step::Retire(upto, _) => Some(signer.retire(*upto).err()),
        Step::Left(counts) if has_left(signer, counts) => Some(None),
        Step::Made(made) if has_made(signer, made) => Some(None),
        Step::Left(_) | Step::Made(_) => None,
    }
}

fn wanted_of(step: &Step<'_>) -> Option<SignFault> {
    match step {
        Step::Sign(_, _, fault) => *fault,
        Step::Retire(_, fault) => *fault,
        Step::Left(_) | Step::Made(_) => None,
    }
}

// Whether a step has its expected answer: false where it is refused memory, None where it has another answer.
fn is_answered<S: Store, R: Source>(
    signer: &mut Signer<S, R>,
    step: &Step<'_>,
    out: &mut Vec<u8>,
) -> Option<bool> {
    match came(signer, step, out) {
        Some(fault) if fault == wanted_of(step) => Some(true),
        Some(Some(SignFault::OutOfMemory)) => Some(false),
        _ => None,
    }
}

// Whether all steps have their expected answers, at the second try if memory is refused, and memory is refused at most
// once.
pub(super) fn are_taken<S: Store, R: Source>(
    signer: &mut Signer<S, R>,
    seen: &Seen,
    steps: &[Step<'_>],
    out: &mut Vec<u8>,
) -> Option<bool> {
    for step in steps {
        let before = seen.next.get();
        if !is_answered(signer, step, out)? {
            note(seen, step, before);
            if !is_answered(signer, step, out)? {
                return Some(false);
            }
        }
    }
    Some(seen.openings.get().checked_add(seen.steps.get())? <= 1)
}

// The store of a new key after these steps.
pub(super) fn begins<S: Store + Drop>(
    alloc: Global,
    (text, store): (&str, S),
    seen: &Seen,
    steps: &[Step<'_>],
    out: &mut Vec<u8>,
) -> Option<S> {
    let mut signer = created_by(alloc, text, store, seen)?;
    let are_taken = are_taken(&mut signer, seen, steps, out);
    let store = signer.into_store();
    if are_taken == Some(true) {
        Some(store)
    } else {
        None
    }
}

// The same for a key that is opened.
pub(super) fn goes_on<S: Store + Drop>(
    alloc: Global,
    store: S,
    seen: &Seen,
    steps: &[Step<'_>],
    out: &mut Vec<u8>,
) -> Option<S> {
    let mut signer = opened_by(alloc, store, seen)?;
    let are_taken = are_taken(&mut signer, seen, steps, out);
    let store = signer.into_store();
    if are_taken == Some(true) {
        Some(store)
    } else {
        None
    }
}

pub(super) fn has_records<S: Store>(store: &mut S, count: u32) -> bool {
    let is_last = match count.checked_sub(1) {
        Some(last) => matches!(store.load(last), Ok(Some(_))),
        None => true,
    };
    is_last && store.load(count) == Ok(None)
}

// Whether a new key takes the first steps, and once it is opened again the second ones, and then has this many
// records.
pub(super) fn lived<S: Store + Drop>(
    alloc: Global,
    key: (&str, S),
    seen: &Seen,
    (first, second): (&[Step<'_>], &[Step<'_>]),
    records: u32,
) -> Option<bool> {
    let mut out = Vec::new(alloc);
    let store = begins(alloc, key, seen, first, &mut out)?;
    let mut store = goes_on(alloc, store, seen, second, &mut out)?;
    Some(has_records(&mut store, records))
}
