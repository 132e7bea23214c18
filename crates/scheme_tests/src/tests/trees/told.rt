//! Trees and caches that tell how many of their leaves were made.

ghost use Rattle.std.specs.Prelude.{◌≡◌, ◌≤◌};

use super::sums::{Sums, Tally, worked_out};
use crate::tests::expecting::expect;
use merkle::{PathCache, Progress, Told, root};
use std::alloc::Global;
use std::cell::Cell;

// The number that was told last, and how often one was told.
#[derive(Drop)]
struct Numbers {
    last: Cell<u64>,
    often: Cell<u32>,
}

impl Numbers {
    fn new() -> Self {
        Numbers {
            last: Cell::new(99),
            often: Cell::new(0),
        }
    }

    fn get(&self) -> (u64, u32) {
        (self.last.get(), self.often.get())
    }
}

// Notes what it hears.
#[derive(Drop)]
struct Heard<'a> {
    last: u64,
    most: u64,
    numbers: &'a Numbers,
}

impl Progress for Heard<'_> {
    ghost told = { λ heard. heard.last };

    ghost most = { λ heard. heard.most };

    fn tell(&mut self, made: u64) {
        self.last = made;
        self.numbers.last.set(made);
        self.numbers
            .often
            .set(self.numbers.often.get().wrapping_add(1));
    }
}

fn noting(numbers: &Numbers, most: u64) -> Heard<'_>
    ensures last { result.last ≡ 0 }
    ensures most { result.most ≡ most }
{
    Heard {
        last: 0,
        most,
        numbers,
    }
}

// The root; `numbers` hears of its leaves.
fn told_root(tally: &Tally, numbers: &Numbers, height: u8, last: u64) -> [u8; 32]
    requires { height ≤ 10 }
{
    let mut told = Told::new(Sums::new(tally), noting(numbers, last), last);
    root(&mut told, height)
}

// Whether the root of a tree of this height is right, and this number was told last, and one this often.
fn tells_of_root(height: u8, last: u64, often: u32) -> bool {
    if height > 10 {
        return false;
    }
    let (tally, numbers) = (Tally::new(), Numbers::new());
    let root = told_root(&tally, &numbers, height, last);
    root == worked_out(height, 0) && numbers.get() == (last, often)
}

// `numbers` hears after each leaf, or each eight. In the last line the tree is taken to have 20 leaves, and it hears of
// no more.
fn tell_of_roots() -> bool {
    tells_of_root(0, 1, 1)
        && tells_of_root(1, 2, 2)
        && tells_of_root(2, 4, 4)
        && tells_of_root(3, 8, 1)
        && tells_of_root(5, 32, 4)
        && tells_of_root(5, 20, 3)
}

#[test]
fn a_root_is_told_of(rt: HostRuntime) {
    expect(&rt, tell_of_roots());
}

// Whether a cache of a tree of this height has the root, and this number was told last, and one this often.
fn tells_of_cache(alloc: Global, height: u8, last: u64, often: u32) -> bool {
    if height > 10 {
        return false;
    }
    let (tally, numbers) = (Tally::new(), Numbers::new());
    let heard = noting(&numbers, 2u64.pow(u32::from(height)));
    match PathCache::for_leaf_telling(alloc, Sums::new(&tally), height, 0, heard) {
        Ok((cache, heard)) => {
            heard.last == last
                && numbers.get() == (last, often)
                && cache.root() == worked_out(height, 0)
        }
        Err(_) => false,
    }
}

// The blocks have half the height: at height 5 three nodes have eight leaves each, at height 6 each block has eight.
fn tell_of_caches(alloc: Global) -> bool {
    tells_of_cache(alloc, 0, 1, 1)
        && tells_of_cache(alloc, 2, 4, 4)
        && tells_of_cache(alloc, 5, 32, 11)
        && tells_of_cache(alloc, 6, 64, 8)
}

#[test]
fn a_cache_is_told_of(rt: HostRuntime) {
    expect(&rt, tell_of_caches(rt.alloc()));
}
