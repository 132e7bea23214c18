//! How much of a key's chains the lanes climb.

ghost use Rattle.std.specs.Prelude.{◌≤◌, length};

use crate::tests::expecting::expect;
use std::cell::Cell;
use winternitz::lanes::LANES;
use winternitz::{Step, climb_to};

// A step that changes no value, and counts how often it is taken: by one chain alone, and in lanes.
#[derive(Drop)]
struct Still {
    alone: Cell<usize>,
    in_lanes: Cell<usize>,
}

impl Step for Still {
    ghost step_of = { λ self chain at value. value };

    fn step(&self, _chain: u16, _at: u8, value: &[u8; 32]) -> [u8; 32] {
        self.alone.set(self.alone.get().wrapping_add(1));
        *value
    }

    fn step_in_lanes(
        &self,
        _chains: &[u16; LANES],
        _at: &[u8; LANES],
        values: &[[u8; 32]; LANES],
    ) -> [[u8; 32]; LANES] {
        self.in_lanes.set(self.in_lanes.get().wrapping_add(LANES));
        *values
    }
}

// How many steps are taken by one chain alone, because the lanes left them, and how many are taken more than once.
fn left_by_lanes(digits: &[u8]) -> (usize, usize)
    requires { length digits.now ≤ 265 }
{
    let step = Still {
        alone: Cell::new(0),
        in_lanes: Cell::new(0),
    };
    let values = [[0; 32]; 265];
    climb_to(&step, digits, &values[..digits.len()]);
    let mut wanted: usize = 0;
    for digit in digits {
        wanted = wanted.saturating_add(usize::from(*digit));
    }
    let left = step.alone.get();
    let taken = left.wrapping_add(step.in_lanes.get());
    (left, taken.wrapping_sub(wanted))
}

// The first chain's digit, the step to each next digit, the modulus of both, and the number of chains. No chain is
// longer than a lane's part.
const KEYS: [(usize, usize, usize, usize); 7] = [
    (1, 0, 2, 265),
    (0, 1, 2, 265),
    (1, 1, 4, 133),
    (3, 7, 16, 67),
    (255, 0, 256, 34),
    (200, 37, 256, 34),
    (9, 0, 256, 9),
];

// A key's digits.
fn digits_of(first: usize, more: usize, modulus: usize) -> [u8; 265] {
    let mut digits = [0; 265];
    for i in 0..265usize {
        let digit = first.wrapping_add(i.wrapping_mul(more)) % modulus.max(1);
        digits[i] = (digit % 256) as u8;
    }
    digits
}

// Whether at most seven of these chains are left, and none is taken twice.
fn leaves_few(digits: &[u8; 265], count: usize) -> bool
    requires { count ≤ 265 }
{
    let (left, twice) = left_by_lanes(&digits[..count]);
    left < LANES && twice == 0
}

// Fewer steps are left than there are lanes. No contract says so, since it changes no value.
#[test]
fn lanes_leave_fewer_steps_than_lanes(rt: HostRuntime) {
    for (first, more, modulus, count) in KEYS {
        expect(&rt, leaves_few(&digits_of(first, more, modulus), count));
    }
}

// Keys with a chain that is longer than a lane's part.
const LONG: [[u8; 6]; 6] = [
    [0, 0, 255, 0, 0, 0],
    [255, 0, 0, 0, 0, 1],
    [0, 0, 0, 0, 0, 255],
    [9, 200, 9, 9, 9, 9],
    [20, 20, 20, 200, 3, 1],
    [60, 100, 60, 0, 60, 0],
];

// No chain is in two lanes: each step is taken once, or left.
#[test]
fn a_chain_climbs_in_one_lane(rt: HostRuntime) {
    for digits in LONG {
        expect(&rt, left_by_lanes(&digits).1 == 0);
    }
}
