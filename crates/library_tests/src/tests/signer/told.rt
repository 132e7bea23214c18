//! Which trees calls tell of, up to their last leaf. The number of a tree's leaves follows from its height.

ghost use Rattle.std.specs.Prelude.{◌≤◌};

use super::steps::Numbers;
use super::*;
use sign_core::{KeyProgress, Progress, TreeProgress, serve_telling};
use std::cell::Cell;

// A tree's level, and its number of leaves.
type Tree = (u8, u64);

// The trees still to be told of, and for the one before them its number of leaves and how many are made.
#[derive(Clone, Copy)]
struct Awaited<'a> {
    trees: &'a [Tree],
    leaves: u64,
    made: u64,
}

// Awaits these trees in order. None once it hears of another tree, or of leaves out of order.
#[derive(Drop)]
struct Listener<'a> {
    awaited: Cell<Option<Awaited<'a>>>,
}

impl Listener<'_> {
    // Whether each tree was told of, up to its last leaf.
    fn is_done(&self) -> bool {
        match self.awaited.get() {
            Some(awaited) => awaited.trees.is_empty() && awaited.made == awaited.leaves,
            None => false,
        }
    }
}

// Hears of one tree's leaves for a listener.
#[derive(Drop)]
struct TreeListener<'b, 'a> {
    listener: &'b Listener<'a>,
    level: u8,
    told: u64,
    leaves: u64,
}

impl<'b, 'a> TreeProgress for &'b Listener<'a> {
    type Tree = TreeListener<'b, 'a>;

    ghost level_of = { λ tree. tree.level };

    fn begin(&self, level: u8, leaves: u64) -> TreeListener<'b, 'a> {
        let mut next = None;
        if let Some(awaited) = self.awaited.get() {
            if let Some((tree, trees)) = awaited.trees.split_first() {
                if *tree == (level, leaves) && awaited.made == awaited.leaves {
                    let made = 0;
                    next = Some(Awaited {
                        trees,
                        leaves,
                        made,
                    });
                }
            }
        }
        self.awaited.set(next);
        TreeListener {
            listener: *self,
            level,
            told: 0,
            leaves,
        }
    }
}

impl Progress for TreeListener<'_, '_> {
    ghost told = { λ tree. tree.told };

    ghost most = { λ tree. tree.leaves };

    // One leaf more is made, or eight.
    fn tell(&mut self, made: u64) {
        let mut next = None;
        if let Some(
            Awaited {
                trees,
                leaves,
                made: before,
            },
        ) = self.listener.awaited.get()
        {
            let more = made.wrapping_sub(before);
            if more == 1 || more == 8 {
                next = Some(Awaited {
                    trees,
                    leaves,
                    made,
                });
            }
        }
        self.listener.awaited.set(next);
        self.told = made;
    }
}

fn awaiting(trees: &[Tree]) -> Listener<'_> {
    let (leaves, made) = (0, 0);
    Listener {
        awaited: Cell::new(Some(Awaited {
            trees,
            leaves,
            made,
        })),
    }
}

// A spec, and the trees that calls tell of. A second name tells of none. `served` is a name after `retired` leaves are
// retired, and `repeated` the first name again, once the key is opened again.
struct Row<'a> {
    spec: &'a str,
    created: &'a [Tree],
    first: &'a [Tree],
    retired: u32,
    served: &'a [Tree],
    repeated: &'a [Tree],
}

fn created_telling<'a, S: Store + Drop>(
    alloc: Global,
    store: S,
    next: &'a Cell<u8>,
    row: &Row<'_>,
) -> Option<Signer<S, Numbers<'a>>> {
    if store.limit() == 0 {
        return None;
    }
    match Spec::parse(row.spec) {
        Ok(spec) => created_of(alloc, spec, store, Numbers { next }, &awaiting(row.created)),
        Err(_) => None,
    }
}

// None where the listener isn't told of all its trees.
fn created_of<'a, S: Store + Drop>(
    alloc: Global,
    spec: Spec,
    store: S,
    random: Numbers<'a>,
    listener: &Listener<'_>,
) -> Option<Signer<S, Numbers<'a>>>
    requires { 1 ≤ S.most store }
{
    let progress = KeyProgress::of(&spec, &listener);
    match Signer::create_telling(alloc, Version::One, spec, store, random, progress) {
        Ok(signer) if listener.is_done() => Some(signer),
        _ => None,
    }
}

fn signs_telling<S: Store, R: Source>(
    signer: &mut Signer<S, R>,
    number: u8,
    out: &mut Vec<u8>,
    trees: &[Tree],
) -> bool {
    match name_of(number) {
        Some(name) => signs_telling_of(signer, &name, out, &awaiting(trees)),
        None => false,
    }
}

fn signs_telling_of<S: Store, R: Source>(
    signer: &mut Signer<S, R>,
    name: &Name,
    out: &mut Vec<u8>,
    listener: &Listener<'_>,
) -> bool {
    let mut text: &[u8] = &[1];
    let progress = KeyProgress::of(&signer.spec(), &listener);
    signer.sign_telling(name, &mut text, out, &progress) == Ok(()) && listener.is_done()
}

// Serves name 2.
fn serves_telling<S: Store, R: Source>(
    alloc: Global,
    signer: &mut Signer<S, R>,
    trees: &[Tree],
) -> bool {
    let listener = &awaiting(trees);
    let mut input = b"\x012\0\0\0\x01\x01".as_slice();
    let mut replies = Vec::new(alloc);
    let progress = KeyProgress::of(&signer.spec(), &listener);
    let end = serve_telling(alloc, signer, &mut input, &mut replies, &progress);
    end == Ok(1) && replies.first() == Some(&0) && listener.is_done()
}

fn works_telling<S: Store, R: Source>(
    alloc: Global,
    signer: &mut Signer<S, R>,
    row: &Row<'_>,
) -> bool {
    let mut out = Vec::new(alloc);
    signs_telling(signer, 0, &mut out, row.first)
        && signs_telling(signer, 1, &mut out, &[])
        && signer.retire(row.retired).is_ok()
        && serves_telling(alloc, signer, row.served)
}

// Signs the first name again, once the key is opened again.
fn repeats_telling<S: Store + Drop>(alloc: Global, store: S, trees: &[Tree]) -> bool {
    let next = Cell::new(99);
    match Signer::open(alloc, store, Numbers { next: &next }) {
        Ok(signer) => {
            let mut signer = signer;
            signs_telling(&mut signer, 0, &mut Vec::new(alloc), trees)
        }
        Err(_) => false,
    }
}

fn lives_telling<S: Store + Drop>(alloc: Global, store: S, row: &Row<'_>) -> bool {
    let next = Cell::new(7);
    match created_telling(alloc, store, &next, row) {
        Some(signer) => {
            let mut signer = signer;
            let works = works_telling(alloc, &mut signer, row);
            repeats_telling(alloc, signer.into_store(), row.repeated) && works
        }
        None => false,
    }
}

// A repeat makes no cache of a tree newer than its name. It tells of its own tree, which it makes again.
const ROWS: [Row<'static>; 4] = [
    Row {
        spec: LMS,
        created: &[(0, 32)],
        first: &[(0, 32)],
        retired: 0,
        served: &[],
        repeated: &[(0, 32)],
    },
    Row {
        spec: TWO,
        created: &[(0, 32)],
        first: &[(0, 32), (1, 32)],
        retired: 32,
        served: &[(1, 32)],
        repeated: &[(0, 32), (1, 32)],
    },
    Row {
        spec: "hss:H10/W1,H5/W1",
        created: &[(0, 1024)],
        first: &[(0, 1024), (1, 32)],
        retired: 0,
        served: &[],
        repeated: &[(0, 1024), (1, 32)],
    },
    Row {
        spec: XMSS,
        created: &[(0, 1024)],
        first: &[(0, 1024)],
        retired: 0,
        served: &[],
        repeated: &[(0, 1024)],
    },
];

#[test]
fn calls_tell_of_the_trees_that_they_make(rt: HostRuntime) {
    for row in &ROWS {
        let store = MemoryStore::with_limit(rt.alloc(), 100);
        expect(&rt, lives_telling(rt.alloc(), store, row));
    }
}
