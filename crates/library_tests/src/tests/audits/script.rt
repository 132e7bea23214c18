//! A key of two levels whose disk fails, or crashes, at each of its calls in turn. What that leaves is audited, and the
//! script runs again with the same names and messages: no leaf signs twice, and no name has two signatures. The script
//! runs in two forms: with a signer opened for each step, and with one that stays open until a step fails.

use super::*;
use key_audit::Report;
use state_file::{OpenFault, Pick};
use std::slice;

// Whether an audit accepts an open file, or finds no key where there was none before.
fn accepts<D: Disk + Drop>(
    alloc: Global,
    store: &mut FileStore<D>,
    anchor: Option<Anchor>,
) -> bool {
    match audit(alloc, store, anchor) {
        Ok(_report) => true,
        Err(fault) => anchor.is_none() && fault == AuditFault::NoKey,
    }
}

// Whether two audits accept a disk's file. One with no key, where there was none before, needn't be opened.
fn is_accepted<D: Disk + Drop>(alloc: Global, disk: D, anchor: Option<Anchor>) -> bool {
    match FileStore::open(disk) {
        Ok(mut store) => accepts(alloc, &mut store, anchor) && accepts(alloc, &mut store, anchor),
        Err(refused) => anchor.is_none() && refused.fault == OpenFault::NoKey,
    }
}

// The anchor of a file's first `count` records. For 0 it has the first slot's tag.
fn anchor_in(file: &[u8], count: usize) -> Option<Anchor> {
    let slot = count.saturating_sub(1);
    let mut tag = [0; 32];
    tag.copy_from_slice(file.as_chunks::<256>().0.get(slot)?.get(224..)?);
    let count = u32::try_from(count).ok()?;
    Some(Anchor { count, tag })
}

// `Sign` signs a letter as its own name.
enum Step {
    Create,
    Sign(u8),
    Retire(u32),
}

const SCRIPT: &[Step] = &[
    Step::Create,
    Step::Sign(b'a'),
    Step::Sign(b'b'),
    Step::Sign(b'c'),
    Step::Retire(10),
    Step::Sign(b'd'),
];

const PICKS: &[Pick] = &[
    Pick::Old,
    Pick::New,
    Pick::Fill(0xA5),
    Pick::Fill(0x00),
    Pick::Fill(0xFF),
];

// Which call failed: the store's `format` or `open`, or the signer's `create` or `open`.
#[derive(Clone, Copy)]
enum Closed {
    Format,
    File(OpenFault),
    Signer,
}

// The signer of a disk with a key, or the disk and why not. Its draws begin with the number `next`.
fn open_on<D: Disk + Drop>(
    alloc: Global,
    disk: D,
    next: u8,
) -> Result<Signer<FileStore<D>, Numbers>, (D, Closed)> {
    match FileStore::open(disk) {
        Ok(store) => match open(alloc, store, Numbers { next }) {
            Ok(signer) => Ok(signer),
            Err(refused) => {
                let (store, _random) = refused.given;
                Err((store.into_disk(), Closed::Signer))
            }
        },
        Err(refused) => Err((refused.given, Closed::File(refused.fault))),
    }
}

// As `open_on`, by a new key.
fn create_on<D: Disk + Drop>(
    alloc: Global,
    spec: &str,
    disk: D,
    next: u8,
) -> Option<Result<Signer<FileStore<D>, Numbers>, (D, Closed)>> {
    let spec = Spec::parse(spec).ok()?;
    let store = match FileStore::format(disk) {
        Ok(store) => store,
        Err(refused) => return Some(Err((refused.given, Closed::Format))),
    };
    match create(alloc, spec, store, Numbers { next }) {
        Ok(signer) => Some(Ok(signer)),
        Err(refused) => {
            let (store, _random) = refused.given;
            Some(Err((store.into_disk(), Closed::Signer)))
        }
    }
}

fn sign_letter<S: Store, R: Source>(
    alloc: Global,
    signer: &mut Signer<S, R>,
    letter: u8,
    given: &mut Vec<Given>,
) -> Option<()> {
    let mut signature = Vec::new(alloc);
    sign_byte(signer, &[letter], letter, &mut signature)?;
    match message_of(alloc, letter) {
        Some(message) => given.push(Given { message, signature }).ok(),
        None => None,
    }
}

fn message_of(alloc: Global, letter: u8) -> Option<Vec<u8>> {
    let mut message = Vec::new(alloc);
    message.push(letter).ok()?;
    Some(message)
}

// None where the step fails. `begin_on` has made the key.
fn do_step<S: Store, R: Source>(
    alloc: Global,
    signer: &mut Signer<S, R>,
    doing: &Step,
    given: &mut Vec<Given>,
) -> Option<()> {
    match doing {
        Step::Create => Some(()),
        Step::Sign(letter) => sign_letter(alloc, signer, *letter, given),
        Step::Retire(upto) => signer.retire(*upto).ok(),
    }
}

// The signer of a disk, by a new key where there is none and the first step is Create. Else the disk.
fn begin_on<D: Disk + Drop>(
    alloc: Global,
    disk: D,
    first: &Step,
    next: u8,
) -> Option<Result<Signer<FileStore<D>, Numbers>, D>> {
    match open_on(alloc, disk, next) {
        Ok(signer) => Some(Ok(signer)),
        Err(refused) => {
            let (disk, closed) = refused;
            match closed {
                Closed::File(OpenFault::NoKey) => match first {
                    Step::Create => match create_on(alloc, TWO_LEVELS, disk, next)? {
                        Ok(signer) => Some(Ok(signer)),
                        Err((disk, _)) => Some(Err(disk)),
                    },
                    _ => Some(Err(disk)),
                },
                _ => Some(Err(disk)),
            }
        }
    }
}

// Takes steps by one signer, up to the first that fails. The store afterwards, and how many steps were done.
fn do_steps<S: Store + Drop, R: Source + Drop>(
    alloc: Global,
    signer: Signer<S, R>,
    steps: &[Step],
    given: &mut Vec<Given>,
) -> (S, usize) {
    let mut signer = signer;
    for (done, doing) in steps.iter().enumerate() {
        if do_step(alloc, &mut signer, doing, given).is_none() {
            return (signer.into_store(), done);
        }
    }
    (signer.into_store(), steps.len())
}

// One life of a disk: one signer takes these steps, up to the first that fails. The disk afterwards, and how many steps
// were done.
fn live<D: Disk + Drop>(
    alloc: Global,
    disk: D,
    steps: &[Step],
    next: u8,
    given: &mut Vec<Given>,
) -> Option<(D, usize)> {
    match begin_on(alloc, disk, steps.first()?, next)? {
        Ok(signer) => {
            let (store, done) = do_steps(alloc, signer, steps, given);
            Some((store.into_disk(), done))
        }
        Err(disk) => Some((disk, 0)),
    }
}

// A run without a mishap: the file before each step with the number of earlier signatures, and all signatures.
#[derive(Drop)]
struct Run {
    files: Vec<(Vec<u8>, usize)>,
    given: Vec<Given>,
}

fn copy_of(given: &Given) -> Option<Given> {
    let signature = given.signature.clone().ok()?;
    match given.message.clone() {
        Ok(message) => Some(Given { message, signature }),
        Err(_) => None,
    }
}

// Adds copies of earlier signatures.
fn copy_into(given: &mut Vec<Given>, before: &[Given]) -> bool {
    for earlier in before {
        match copy_of(earlier) {
            Some(copy) => {
                if given.push(copy).is_err() {
                    return false;
                }
            }
            None => return false,
        }
    }
    true
}

fn copies_of(alloc: Global, before: &[Given]) -> Option<Vec<Given>> {
    let mut given = Vec::new(alloc);
    if copy_into(&mut given, before) {
        Some(given)
    } else {
        None
    }
}

// Notes the file before a step.
fn note_file(disk: &MemoryDisk, run: &mut Run) -> bool {
    match disk.stop(Pick::New) {
        Ok(file) => run.files.push((file, run.given.len())).is_ok(),
        Err(_) => false,
    }
}

// Takes a step in a life of its own: the disk afterwards.
fn run_step(
    alloc: Global,
    disk: MemoryDisk,
    doing: &Step,
    next: u8,
    run: &mut Run,
) -> Option<MemoryDisk> {
    if !note_file(&disk, run) {
        return None;
    }
    match live(alloc, disk, slice::from_ref(doing), next, &mut run.given) {
        Some((disk, 1)) => Some(disk),
        _ => None,
    }
}

// Runs the script without a mishap, each step in a life of its own. `before` are earlier signatures. The draws of step
// i begin with the number `next` + 8 * i.
fn run_script(
    alloc: Global,
    disk: MemoryDisk,
    next: u8,
    before: &[Given],
) -> Option<(MemoryDisk, Run)> {
    let files = Vec::new(alloc);
    let given = copies_of(alloc, before)?;
    let mut run = Run { files, given };
    let mut disk = disk;
    let mut next = next;
    for doing in SCRIPT {
        disk = run_step(alloc, disk, doing, next, &mut run)?;
        next = next.wrapping_add(8);
    }
    Some((disk, run))
}

// A disk of a file with a mishap at this call: it fails, or the power goes before it.
fn disk_with_mishap(alloc: Global, file: &[u8], call: u32, stops: bool) -> Option<MemoryDisk> {
    let mut disk = MemoryDisk::of(alloc, file).ok()?;
    if stops {
        disk.stop_at(call);
    } else {
        disk.fail_at(call);
    }
    Some(disk)
}

// The disk, if opening fails for another reason than that there is no key.
fn not_opened<D: Disk + Drop>(alloc: Global, disk: D) -> Option<D> {
    match open_on(alloc, disk, 0) {
        Ok(_signer) => None,
        Err(refused) => {
            let (disk, closed) = refused;
            match closed {
                Closed::File(OpenFault::NoKey) => None,
                _ => Some(disk),
            }
        }
    }
}

// Whether a crash leaves this file.
fn leaves(disk: &MemoryDisk, pick: Pick, file: &[u8]) -> bool {
    match disk.stop(pick) {
        Ok(left) => left.as_slice() == file,
        Err(_) => false,
    }
}

// Whether a crash leaves this file by every pick.
fn leaves_only(disk: &MemoryDisk, file: &[u8]) -> bool {
    for pick in PICKS {
        if !leaves(disk, *pick, file) {
            return false;
        }
    }
    true
}

// Whether a mishap at a call of an opening leaves the file alone. None where the opening makes fewer calls.
fn is_left(alloc: Global, file: &[u8], call: u32, stops: bool) -> Option<bool> {
    let disk = disk_with_mishap(alloc, file, call, stops)?;
    match not_opened(alloc, disk) {
        Some(disk) => Some(leaves_only(&disk, file)),
        None => None,
    }
}

// Whether a mishap at any call of an opening leaves the file as it is.
fn lasts(alloc: Global, file: &[u8], stops: bool) -> bool {
    for call in 1..200u32 {
        match is_left(alloc, file, call, stops) {
            Some(true) => {}
            Some(false) => return false,
            None => return true,
        }
    }
    false
}

// Runs the whole script in one life: the disk afterwards, and all signatures, also the earlier ones `before`.
fn run_in_one_life(
    alloc: Global,
    disk: MemoryDisk,
    before: &[Given],
) -> Option<(MemoryDisk, Vec<Given>)> {
    let mut given = copies_of(alloc, before)?;
    match live(alloc, disk, SCRIPT, 128, &mut given) {
        Some((disk, 6)) => Some((disk, given)),
        _ => None,
    }
}

// The same on a file, in one life or in one for each step.
fn run_again(
    alloc: Global,
    file: &[u8],
    before: &[Given],
    in_one_life: bool,
) -> Option<(MemoryDisk, Vec<Given>)> {
    let disk = MemoryDisk::of(alloc, file).ok()?;
    if in_one_life {
        return run_in_one_life(alloc, disk, before);
    }
    match run_script(alloc, disk, 128, before) {
        Some((disk, run)) => Some((disk, run.given)),
        None => None,
    }
}

// Whether a signature isn't another one of a message.
fn agrees(a: &Given, given: &[Given]) -> bool {
    for b in given {
        if a.message == b.message && a.signature != b.signature {
            return false;
        }
    }
    true
}

// Whether no message has two different signatures.
fn agree(given: &[Given]) -> bool {
    for a in given {
        if !agrees(a, given) {
            return false;
        }
    }
    true
}

// Whether a report has the whole script's counts, and all signatures pass `check_given`.
fn is_reported(alloc: Global, report: &Report, given: &[Given]) -> bool {
    report.records == 7
        && report.left.as_slice() == [31, 21].as_slice()
        && check_given(alloc, &report.public, given).is_ok()
}

// Whether an audit of a disk has that report.
fn is_whole<D: Disk + Drop>(alloc: Global, disk: D, given: &[Given]) -> bool {
    match FileStore::open(disk) {
        Ok(mut store) => match audit(alloc, &mut store, None) {
            Ok(report) => is_reported(alloc, &report, given),
            Err(_) => false,
        },
        Err(_) => false,
    }
}

// Whether the whole script is done on a file, after the signatures `before`.
fn ends_well(alloc: Global, file: &[u8], before: &[Given], in_one_life: bool) -> bool {
    match run_again(alloc, file, before, in_one_life) {
        Some((disk, given)) => agree(&given) && is_whole(alloc, disk, &given),
        None => false,
    }
}

// Whether an audit accepts what a mishap left.
fn is_audited(alloc: Global, content: &[u8], anchor: Option<Anchor>) -> bool {
    match MemoryDisk::of(alloc, content) {
        Ok(disk) => is_accepted(alloc, disk, anchor),
        Err(_) => false,
    }
}

// Whether a key goes on well from what a mishap left. An audit accepts it, or finds no key where none was before. A
// second mishap, while it is opened, changes nothing. The script ends well on it.
fn goes_on_well(
    alloc: Global,
    content: &[u8],
    anchor: Option<Anchor>,
    before: &[Given],
    in_one_life: bool,
) -> bool {
    is_audited(alloc, content, anchor)
        && lasts(alloc, content, false)
        && lasts(alloc, content, true)
        && ends_well(alloc, content, before, in_one_life)
}

fn go_on_well(
    alloc: Global,
    contents: &[Vec<u8>],
    anchor: Option<Anchor>,
    before: &[Given],
) -> bool {
    for content in contents {
        if !goes_on_well(alloc, content, anchor, before, false) {
            return false;
        }
    }
    true
}

// Adds what a crash leaves of a disk, without repeats.
fn add_left(disk: &MemoryDisk, pick: Pick, seen: &mut Vec<Vec<u8>>) -> bool {
    match disk.stop(pick) {
        Ok(left) => seen.contains(&left) || seen.push(left).is_ok(),
        Err(_) => false,
    }
}

// The same by every pick.
fn add_all_left(disk: &MemoryDisk, seen: &mut Vec<Vec<u8>>) -> bool {
    for pick in PICKS {
        if !add_left(disk, *pick, seen) {
            return false;
        }
    }
    true
}

// Whether a step is done in spite of a mishap at this call, which it then doesn't make. If not, adds what that may
// leave.
fn is_done(
    alloc: Global,
    file: &[u8],
    place: usize,
    (call, stops): (u32, bool),
    seen: &mut Vec<Vec<u8>>,
) -> Option<bool> {
    let step = slice::from_ref(SCRIPT.get(place)?);
    let disk = disk_with_mishap(alloc, file, call, stops)?;
    match live(alloc, disk, step, 8 * place as u8, &mut Vec::new(alloc)) {
        Some((_, 1)) => Some(true),
        Some((disk, _)) => {
            if add_all_left(&disk, seen) {
                Some(false)
            } else {
                None
            }
        }
        None => None,
    }
}

// A call, from 1 on, and whether the power goes before it. Each call has two mishaps.
fn mishap_at(number: u32) -> (u32, bool) {
    (number / 2 + 1, number % 2 == 1)
}

// The contents that a mishap at any call of a step may leave, without repeats, and how many calls the step makes.
fn left_in(alloc: Global, file: &[u8], place: usize) -> Option<(Vec<Vec<u8>>, u32)> {
    let mut seen = Vec::new(alloc);
    for number in 0..200u32 {
        if is_done(alloc, file, place, mishap_at(number), &mut seen)? {
            return Some((seen, number / 2));
        }
    }
    None
}

// How many disk calls a step makes. None where a mishap at one may leave a content that doesn't go on well.
fn survives_in(alloc: Global, file: &[u8], before: &[Given], place: usize) -> Option<u32> {
    let anchor = anchor_in(file, file.len() / 256);
    let (contents, calls) = left_in(alloc, file, place)?;
    if go_on_well(alloc, &contents, anchor, before) {
        Some(calls)
    } else {
        None
    }
}

// The script without a mishap, on a new disk.
fn well_run(alloc: Global) -> Option<Run> {
    match run_script(alloc, MemoryDisk::of(alloc, &[]).ok()?, 0, &[]) {
        Some((_, run)) => Some(run),
        None => None,
    }
}

// As `survives_in`, for a step of that.
fn survives(alloc: Global, place: usize) -> Option<u32> {
    let run = well_run(alloc)?;
    let (file, count) = run.files.get(place)?;
    survives_in(alloc, file, run.given.get(..*count)?, place)
}

// The file after the first `done` steps in one life.
fn file_after(alloc: Global, done: usize) -> Option<Vec<u8>> {
    let steps = SCRIPT.get(..done)?;
    let disk = MemoryDisk::of(alloc, &[]).ok()?;
    match live(alloc, disk, steps, 0, &mut Vec::new(alloc)) {
        Some((disk, _)) => disk.stop(Pick::New).ok(),
        None => None,
    }
}

// Its anchor; none after 0.
fn anchor_after(alloc: Global, done: usize) -> Option<Option<Anchor>> {
    if done == 0 {
        return Some(None);
    }
    let file = file_after(alloc, done)?;
    Some(anchor_in(&file, file.len() / 256))
}

// Whether a content that is left after a number of steps goes on well. One in `seen` isn't tried again.
fn goes_on_once(
    alloc: Global,
    left: (usize, Vec<u8>),
    anchor: Option<Anchor>,
    given: &[Given],
    seen: &mut Vec<(usize, Vec<u8>)>,
) -> bool {
    seen.contains(&left)
        || goes_on_well(alloc, &left.1, anchor, given, true) && seen.push(left).is_ok()
}

// Whether each content that a disk may leave after `done` steps goes on well.
fn each_goes_on_well(
    alloc: Global,
    disk: &MemoryDisk,
    done: usize,
    given: &[Given],
    seen: &mut Vec<(usize, Vec<u8>)>,
) -> Option<()> {
    let anchor = anchor_after(alloc, done)?;
    for pick in PICKS {
        let left = disk.stop(*pick).ok()?;
        if !goes_on_once(alloc, (done, left), anchor, given, seen) {
            return None;
        }
    }
    Some(())
}

// Whether the script is done in one life in spite of a mishap at this call, which it then doesn't make. None where that
// may leave a content that doesn't go on well.
fn is_whole_done(
    alloc: Global,
    (call, stops): (u32, bool),
    seen: &mut Vec<(usize, Vec<u8>)>,
) -> Option<bool> {
    let mut given = Vec::new(alloc);
    let disk = disk_with_mishap(alloc, &[], call, stops)?;
    match live(alloc, disk, SCRIPT, 0, &mut given) {
        Some((_, 6)) => Some(true),
        Some((disk, done)) => {
            each_goes_on_well(alloc, &disk, done, &given, seen)?;
            Some(false)
        }
        None => None,
    }
}

// How many disk calls the script makes in one life.
fn survives_in_one_life(alloc: Global) -> Option<u32> {
    let mut seen = Vec::new(alloc);
    for number in 0..200u32 {
        if is_whole_done(alloc, mishap_at(number), &mut seen)? {
            return Some(number / 2);
        }
    }
    None
}

// An opening of up to 255 records makes 4 calls: a sync, the length, a read of the first slot and one of all. For n
// records a signer's makes 3 * n - 1 more. An append makes 4. The first life looks for a key by 2 calls, and prepares
// the place by 4.
#[test]
fn a_create_survives(rt: HostRuntime) {
    expect(&rt, survives(rt.alloc(), 0) == Some(10));
}

#[test]
fn the_first_name_survives(rt: HostRuntime) {
    expect(&rt, survives(rt.alloc(), 1) == Some(14));
}

#[test]
fn the_second_name_survives(rt: HostRuntime) {
    expect(&rt, survives(rt.alloc(), 2) == Some(16));
}

#[test]
fn the_third_name_survives(rt: HostRuntime) {
    expect(&rt, survives(rt.alloc(), 3) == Some(19));
}

#[test]
fn retired_leaves_survive(rt: HostRuntime) {
    expect(&rt, survives(rt.alloc(), 4) == Some(22));
}

#[test]
fn a_name_after_retired_leaves_survives(rt: HostRuntime) {
    expect(&rt, survives(rt.alloc(), 5) == Some(25));
}

// The first life looks for a key by 2 calls, prepares the place by 4, and makes 4 for each of the 7 records.
#[test]
fn the_script_survives_in_one_life(rt: HostRuntime) {
    expect(&rt, survives_in_one_life(rt.alloc()) == Some(34));
}
