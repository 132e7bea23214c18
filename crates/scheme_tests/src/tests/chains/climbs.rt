//! Walks of a step that counts.

ghost use Rattle.std.specs.Prelude.{ℕ, ◌≤◌, ◌<◌, ◌+◌, ◌%◌, length, slice_index, slice_set};
ghost use Rattle.winternitz.specs.Lanes.{lanes};

use crate::tests::expecting::{expect, expect_none};
use winternitz::lanes::LANES;
use winternitz::{Step, added, climb, climb_from, climb_to, climb_whole};

// Counts steps in byte 0, and writes its own number and its chain to the bytes after it.
struct Counting;

impl Step for Counting {
    ghost step_of = { λ self chain at value.
        slice_set (slice_set (slice_set value 0 ((slice_index value 0 + 1) % 256)) 1 at) 2 (chain % 256) };

    fn step(&self, chain: u16, at: u8, value: &[u8; 32]) -> [u8; 32] {
        let mut next = *value;
        next[0] = next[0].wrapping_add(1);
        next[1] = at;
        next[2] = (chain % 256) as u8;
        next
    }
}

// Whether a climb ends after this number of steps, the last of them at this place.
fn ends(from: u8, to: u8, steps: u8, last: u8) -> bool
    requires { from ≤ to }
{
    let end = climb(&Counting, 264, from, to, &[0; 32]);
    end[0] == steps && end[1] == last
}

fn take_steps() -> bool {
    ends(7, 7, 0, 0)
        && ends(255, 255, 0, 0)
        && ends(0, 1, 1, 0)
        && ends(3, 8, 5, 7)
        && ends(0, 255, 255, 254)
        && climb(&Counting, 264, 9, 9, &[0; 32]) == [0; 32]
        && climb(&Counting, 264, 0, 255, &[0; 32])[2] == 8
}

#[test]
fn climbs_take_a_step_for_each_number(rt: HostRuntime) {
    expect(&rt, take_steps());
}

// For each lane a chain, the least and the greatest number among them, and a value.
const CHAINS: [u16; LANES] = [0, 264, 7, 65535, 255, 256, 1, 32768];

const VALUES: [[u8; 32]; LANES] = [
    [1; 32], [2; 32], [3; 32], [4; 32], [255; 32], [6; 32], [0; 32], [8; 32],
];

fn climb_by(digits: &[u8; LANES]) -> bool {
    wrong_chain(digits, &VALUES).is_none()
}

// Whether chains begin and end at these places.
fn climb_between(from: &[u8; LANES], to: &[u8; LANES]) -> bool {
    climb_by(from) && climb_by(to)
}

// 0, 1, 2, 15 and 255 steps, each in some lanes.
fn climb_between_places() -> bool {
    climb_between(
        &[0, 0, 0, 0, 0, 0, 0, 0],
        &[255, 255, 255, 255, 255, 255, 255, 255],
    ) && climb_between(
        &[0, 3, 240, 254, 0, 254, 3, 240],
        &[255, 4, 255, 254, 1, 255, 3, 242],
    ) && climb_between(
        &[9, 0, 0, 240, 9, 0, 0, 240],
        &[9, 2, 255, 255, 24, 0, 1, 242],
    ) && climb_between(
        &[0, 7, 13, 0, 7, 0, 0, 13],
        &[1, 7, 15, 255, 22, 255, 0, 14],
    ) && climb_between(
        &[1, 0, 100, 200, 200, 100, 0, 1],
        &[3, 15, 101, 200, 201, 115, 2, 1],
    ) && climb_between(&[0, 1, 2, 3, 4, 5, 6, 7], &[15, 15, 2, 5, 5, 20, 255, 7])
        && climb_between(&[5, 5, 0, 5, 5, 5, 5, 0], &[5, 5, 255, 5, 5, 5, 6, 0])
}

#[test]
fn chains_climb_from_any_place_and_to_any_other(rt: HostRuntime) {
    expect(&rt, climb_between_places());
}

// The first lane whose chain, of those that climb together, ends elsewhere by itself.
fn wrong_lane(from: &[u8; LANES], steps: u8) -> Option<usize>
    requires { (j : ℕ) → j < lanes → slice_index from.now j + steps < 256 }
{
    let ends = Counting.steps_in_lanes(&CHAINS, from, steps, &VALUES);
    let to = added(from, steps);
    for lane in 0..LANES {
        if ends[lane] != climb(&Counting, CHAINS[lane], from[lane], to[lane], &VALUES[lane]) {
            return Some(lane);
        }
    }
    None
}

// Each number of steps, from place 0 on, and up to place 255.
#[test]
fn each_length_climbs_in_lanes(rt: HostRuntime) {
    for steps in 0..=255u8 {
        expect_none(&rt, wrong_lane(&[0; LANES], steps));
        expect_none(&rt, wrong_lane(&[255 - steps; LANES], steps));
    }
}

// Numbers of steps that are this far apart, one for each lane.
fn others_from(steps: u8) -> [u8; LANES] {
    let mut others = [0; LANES];
    for lane in 0..LANES {
        others[lane] = steps.wrapping_add((256 / LANES * lane % 256) as u8);
    }
    others
}

// Each number of steps in each lane, with equal and with other numbers beside it.
#[test]
fn each_length_climbs_in_each_lane(rt: HostRuntime) {
    for steps in 0..=255u8 {
        expect_none(&rt, wrong_chain(&[steps; LANES], &VALUES));
        expect_none(&rt, wrong_chain(&others_from(steps), &VALUES));
    }
}

// The first chain that ends elsewhere by itself: up to its digit, from there to place 255, and from place 0 to 15.
fn wrong_chain(digits: &[u8], values: &[[u8; 32]]) -> Option<usize>
    requires within_limit { length values.now ≤ 265 }
    requires digits { length values.now ≤ length digits.now }
{
    let to = climb_to(&Counting, digits, values);
    let from = climb_from(&Counting, digits, 255, values);
    let whole = climb_whole(&Counting, 15, values);
    for i in 0..values.len() {
        let (chain, digit, value) = (i as u16, digits[i], &values[i]);
        if to[i] != climb(&Counting, chain, 0, digit, value)
            || from[i] != climb(&Counting, chain, digit, 255, value)
            || whole[i] != climb(&Counting, chain, 0, 15, value)
        {
            return Some(i);
        }
    }
    None
}

// Rows of chains: the first digit, the step to each next digit (modulo 256), and chain 2's digit. They have chains of
// all sizes, of one size, and one chain with all of the steps.
const ROWS: [(usize, usize, u8); 8] = [
    (0, 37, 74),
    (0, 1, 2),
    (255, 0, 255),
    (1, 0, 1),
    (0, 0, 255),
    (255, 0, 0),
    (3, 85, 200),
    (128, 128, 7),
];

// A row's digits.
fn digits_of(first: usize, more: usize, third: u8) -> [u8; 265] {
    let mut digits = [0; 265];
    for i in 0..265 {
        digits[i] = (first.wrapping_add(i.wrapping_mul(more)) % 256) as u8;
    }
    digits[2] = third;
    digits
}

// Value i is the byte i modulo 256, 32 times.
fn values() -> [[u8; 32]; 265] {
    let mut values = [[0; 32]; 265];
    for i in 0..265 {
        values[i] = [(i % 256) as u8; 32];
    }
    values
}

// Numbers of chains that the lanes divide, and others. Each lane takes a part of the row, and chains begin and end
// anywhere in it.
#[test]
fn all_chains_climb_as_each_by_itself(rt: HostRuntime) {
    let values = values();
    for (first, more, third) in ROWS {
        let digits = digits_of(first, more, third);
        for count in [0, 1, 2, 3, 4, 5, 6, 7, 8, 9, 15, 16, 34, 67, 133, 265usize] {
            expect_none(&rt, wrong_chain(&digits, &values[..count]));
        }
    }
}
