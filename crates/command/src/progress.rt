//! The progress of long work: a line on a terminal, rewritten while trees are made, and erased at the end of each.
//!
//! Contracts say what the line has, and `line_laws` what its reader gets. When it is drawn and erased depends on a
//! clock and a terminal: tests/suites/progress tests that.

ghost use Rattle.std.specs.Prelude.{◌≡◌, ◌<◌, ◌≤◌, OnOk, IfOk};
ghost use Rattle.std.specs.Io.KnownBytes.{Appends};
ghost use Rattle.command.specs.Progress.{bar, counts, fitting_text, group, grouped, has_room, head, is_due, line_text};
ghost use Rattle.command.specs.Progress.{long_text, margin, percent, seconds_left, separator, short_text, times};
ghost use Rattle.command.specs.ProgressLaws.{LineLaws};

use crate::foreground::is_in_foreground;
use crate::number::read_number;
use crate::standard::Standard;
use arrayvec::ArrayVec;
use sign_core::{Progress, TreeProgress};
use std::cell::Cell;
use std::env::{Env, FillError};
use std::fs::{File, Files};
use std::io;
use std::io::Write;
use std::time::Clock;

// The variable of the environment that turns the line off, and the sentences beside refusals, unless it is empty.
const QUIET: &str = "HBSIGN_QUIET";

// The width of a terminal that doesn't tell its own, and the greatest width that is believed.
const USUAL_COLUMNS: u32 = 80;

const MOST_COLUMNS: u32 = 10_000;

// A tree of a lower level that begins within this time after a tree's last leaf belongs to the same work; milliseconds.
const LONGEST_PAUSE: u64 = 1_000;

// A longer time between two calls means that the process was stopped, as by ^Z; milliseconds. Eight leaves of W8, the
// slowest, take 8 of them.
const LONGEST_STEP: u64 = 2_000;

// U+2588 and U+2591 in UTF-8.
const FULL_BLOCK: &[u8; 3] = b"\xe2\x96\x88";

const LIGHT_BLOCK: &[u8; 3] = b"\xe2\x96\x91";

#[derive(Clone, Copy)]
struct Look {
    columns: u32,
    has_blocks: bool,
}

// A tree and its number of leaves; times in milliseconds of the clock.
#[derive(Clone, Copy)]
struct Tree {
    level: u8,
    leaves: u32,
    // the work began with this tree or one above it
    work_begun: u64,
    begun: u64,
    // the last call, and the last line, of this tree or an earlier one
    told: u64,
    shown: u64,
}

/// Shows the progress of trees, if standard error is a terminal.
#[derive(Drop)]
pub struct Bar<'a, R> {
    rt: R,
    standard: &'a Standard,
    // None: nothing is shown
    look: Option<Look>,
    tree: Cell<Tree>,
}

impl<'a, R: Env + Clock + Files<File = File>> Bar<'a, R> {
    /// Told of no tree yet. TERM, HBSIGN_QUIET, COLUMNS and the locale decide how the line looks.
    pub fn new(rt: R, standard: &'a Standard) -> Self {
        let shows = standard.is_on_terminal && !is_dumb(&rt) && !is_quiet(&rt);
        let look = if shows { Some(look_in(&rt)) } else { None };
        Bar {
            rt,
            standard,
            look,
            tree: Cell::new(Tree {
                level: 0,
                leaves: 0,
                work_begun: 0,
                begun: 0,
                told: 0,
                shown: 0,
            }),
        }
    }

    // Milliseconds of the clock.
    fn now(&self) -> Option<u64> {
        let Ok(time) = self.rt.monotonic() else {
            return None;
        };
        let seconds = time.as_secs().saturating_mul(1_000);
        Some(seconds.saturating_add(u64::from(time.subsec_millis())))
    }

    // In the background nothing is drawn or erased.
    fn show(&self, look: Look, tree: Tree, made: u32, now: u64) {
        if !is_in_foreground(&self.rt) {
            return self.standard.forget_line();
        }
        let spent = u32::try_from(now.saturating_sub(tree.begun)).unwrap_or(u32::MAX);
        if made == 0 || made > tree.leaves {
            return;
        }
        let left = seconds_left(spent, made, tree.leaves);
        if let Ok(text) = line_text(look, tree.level, made, tree.leaves, left) {
            self.standard.show_line(text.as_slice());
        }
    }
}

impl<R: Env + Clock + Files<File = File>> Bar<'_, R> {
    fn begin_tree(&self, level: u8, leaves: u64) {
        if self.look.is_none() {
            return;
        }
        self.standard.erase_line();
        let Some(now) = self.now() else {
            return;
        };
        let last = self.tree.get();
        let goes_on = level > last.level && now.saturating_sub(last.told) <= LONGEST_PAUSE;
        self.tree.set(Tree {
            level,
            leaves: u32::try_from(leaves).unwrap_or(u32::MAX),
            work_begun: if goes_on { last.work_begun } else { now },
            begun: now,
            told: now,
            shown: last.shown,
        });
    }

    fn show_made(&self, made: u64) {
        let Some(look) = self.look else {
            return;
        };
        let Some(now) = self.now() else {
            return;
        };
        let mut tree = self.tree.get();
        let step = now.saturating_sub(tree.told);
        if step > LONGEST_STEP {
            // A stop doesn't count for the estimate.
            tree.begun = tree.begun.saturating_add(step);
        }
        tree.told = now;
        let made = u32::try_from(made).unwrap_or(u32::MAX);
        if made >= tree.leaves {
            if self.standard.has_line() {
                self.show(look, tree, tree.leaves, now);
                self.standard.erase_line();
            }
        } else if is_due(tree.work_begun, tree.shown, now) {
            self.show(look, tree, made, now);
            tree.shown = now;
        }
        self.tree.set(tree);
    }
}

/// The leaves of one tree, which a bar shows.
#[derive(Drop)]
pub struct BarLeaves<'b, 'a, R> {
    bar: &'b Bar<'a, R>,
    level: u8,
    told: u64,
    leaves: u64,
}

impl<'b, 'a, R: Env + Clock + Files<File = File>> TreeProgress for &'b Bar<'a, R> {
    type Tree = BarLeaves<'b, 'a, R>;

    ghost level_of = { λ tree. tree.level };

    fn begin(&self, level: u8, leaves: u64) -> BarLeaves<'b, 'a, R> {
        self.begin_tree(level, leaves);
        BarLeaves {
            bar: *self,
            level,
            told: 0,
            leaves,
        }
    }
}

impl<R: Env + Clock + Files<File = File>> Progress for BarLeaves<'_, '_, R> {
    ghost told = { λ tree. tree.told };

    ghost most = { λ tree. tree.leaves };

    fn tell(&mut self, made: u64) {
        self.told = made;
        self.bar.show_made(made);
    }
}

/// What the line tells, how wide it is, and how often it is drawn. The function does nothing: its contract is proved
/// for all numbers.
pub fn line_laws()
    ensures { LineLaws }
{}

// Whether a line is drawn now: a second after the work began, and then each 200 ms. Times in milliseconds.
fn is_due(begun: u64, shown: u64, now: u64) -> bool
    ensures { result ≡ is_due begun shown now }
{
    if now.saturating_sub(begun) < 1_000 {
        return false;
    }
    now.saturating_sub(shown) >= 200
}

fn percent(made: u32, leaves: u32) -> u64
    requires { 0 < leaves }
    ensures { result ≡ percent made leaves }
{
    u64::from(made) * 100 / u64::from(leaves)
}

// The seconds that the other leaves take, if each takes as long as those that were made in `spent` milliseconds.
fn seconds_left(spent: u32, made: u32, leaves: u32) -> u64
    requires not_zero { 0 < made }
    requires within_limit { made ≤ leaves }
    ensures { result ≡ seconds_left spent made leaves }
{
    let left = u64::from(spent) * u64::from(leaves - made) / u64::from(made);
    left.div_ceil(1_000)
}

// The text that fits into the terminal, and before it a bar or a margin.
fn line_text(
    look: Look,
    level: u8,
    made: u32,
    leaves: u32,
    left: u64,
) -> io::Result<ArrayVec<u8, 256>>
    requires { 0 < leaves }
    ensures { IfOk result (λ text. text.items ≡ line_text look.has_blocks look.columns level made leaves left) }
{
    let text = fitting_text(look.columns, level, made, leaves, left)?;
    let mut line = ArrayVec::new();
    write_margin(&mut line, look, text.len(), percent(made, leaves))?;
    line.write_all(text.as_slice())?;
    Ok(line)
}

// A bar if there is room before a text of `len` bytes, else three blanks.
fn write_margin<W: Write>(writer: &mut W, look: Look, len: usize, percent: u64) -> io::Result<()>
    requires { len ≤ 256 }
    ensures { OnOk result (Appends (W.contents writer.old) (W.contents writer.new)
        (margin look.has_blocks look.columns len percent)) }
{
    if has_room(look, len) {
        write_bar(writer, percent)
    } else {
        writer.write_all("   ".as_bytes())
    }
}

// Whether a bar fits before an ASCII text of `len` bytes.
fn has_room(look: Look, len: usize) -> bool
    requires { len ≤ 256 }
    ensures { result ≡ has_room look.has_blocks look.columns len }
{
    if look.has_blocks {
        len + 11 < look.columns as usize
    } else {
        false
    }
}

// The long text, or the short one if the long one leaves no blank behind it and a margin.
fn fitting_text(
    columns: u32,
    level: u8,
    made: u32,
    leaves: u32,
    left: u64,
) -> io::Result<ArrayVec<u8, 256>>
    requires { 0 < leaves }
    ensures { IfOk result (λ text. text.items ≡ fitting_text columns level made leaves left) }
{
    let mut long = ArrayVec::new();
    write_long(&mut long, level, made, leaves, left)?;
    if long.len() + 3 < columns as usize {
        return Ok(long);
    }
    let mut short = ArrayVec::new();
    write_short(&mut short, made, leaves, left)?;
    Ok(short)
}

fn write_long<W: Write>(
    writer: &mut W,
    level: u8,
    made: u32,
    leaves: u32,
    left: u64,
) -> io::Result<()>
    requires { 0 < leaves }
    ensures { OnOk result (Appends (W.contents writer.old) (W.contents writer.new) (long_text level made leaves left)) }
{
    write_head(writer, level)?;
    write_counts(writer, made, leaves)?;
    write_short(writer, made, leaves, left)
}

fn write_head<W: Write>(writer: &mut W, level: u8) -> io::Result<()>
    ensures { OnOk result (Appends (W.contents writer.old) (W.contents writer.new) (head level)) }
{
    writer.write_all("making the tree of level ".as_bytes())?;
    writer.write_fmt(u64::from(level))?;
    writer.write_all(": ".as_bytes())
}

fn write_counts<W: Write>(writer: &mut W, made: u32, leaves: u32) -> io::Result<()>
    ensures { OnOk result (Appends (W.contents writer.old) (W.contents writer.new) (counts made leaves)) }
{
    write_grouped(writer, u64::from(made))?;
    writer.write_all(" of ".as_bytes())?;
    write_grouped(writer, u64::from(leaves))?;
    writer.write_all(" leaves, ".as_bytes())
}

fn write_short<W: Write>(writer: &mut W, made: u32, leaves: u32, left: u64) -> io::Result<()>
    requires { 0 < leaves }
    ensures { OnOk result (Appends (W.contents writer.old) (W.contents writer.new) (short_text made leaves left)) }
{
    writer.write_fmt(percent(made, leaves))?;
    writer.write_all(" %, ".as_bytes())?;
    write_grouped(writer, left)?;
    writer.write_all(" s left".as_bytes())
}

// Below 10^9, with a comma between thousands.
fn write_grouped<W: Write>(writer: &mut W, number: u64) -> io::Result<()>
    ensures { OnOk result (Appends (W.contents writer.old) (W.contents writer.new) (grouped number)) }
{
    if number < 1_000 {
        writer.write_fmt(number)
    } else if number < 1_000_000 {
        writer.write_fmt(number / 1_000)?;
        write_group(writer, number % 1_000)
    } else {
        writer.write_fmt(number / 1_000_000)?;
        write_group(writer, number / 1_000 % 1_000)?;
        write_group(writer, number % 1_000)
    }
}

// A comma and three digits.
fn write_group<W: Write>(writer: &mut W, number: u64) -> io::Result<()>
    ensures { OnOk result (Appends (W.contents writer.old) (W.contents writer.new) (group number)) }
{
    writer.write_all(separator(number).as_bytes())?;
    writer.write_fmt(number)
}

// The comma, and the zeros before a number below a thousand.
fn separator(number: u64) -> &'static str
    ensures { result.now ≡ separator number }
{
    if number < 10 {
        ",00"
    } else if number < 100 {
        ",0"
    } else {
        ","
    }
}

// Ten blocks; each ten percent fill one.
fn write_bar<W: Write>(writer: &mut W, percent: u64) -> io::Result<()>
    ensures { OnOk result (Appends (W.contents writer.old) (W.contents writer.new) (bar percent)) }
{
    let full = (percent / 10).min(10);
    write_times(writer, FULL_BLOCK, full)?;
    write_times(writer, LIGHT_BLOCK, 10 - full)?;
    writer.write_all(" ".as_bytes())
}

fn write_times<W: Write>(writer: &mut W, bytes: &[u8], count: u64) -> io::Result<()>
    ensures { OnOk result (Appends (W.contents writer.old) (W.contents writer.new) (times count bytes.now)) }
{
    for turn in 0..count {
        writer.write_all(bytes)?;
    }
    Ok(())
}

// A variable of the environment; empty if it isn't set, or longer than any name of a locale.
fn variable<E: Env>(env: &E, name: &str) -> ArrayVec<u8, 64> {
    let mut buffer = [0; 64];
    let mut value = ArrayVec::new();
    if let Ok(len) = env.var(name, &mut buffer) {
        // 64 bytes fit.
        let _ = value.write_all(&buffer[..len]);
    }
    value
}

// A dumb terminal can't rewrite a line.
fn is_dumb<E: Env>(env: &E) -> bool {
    variable(env, "TERM").as_slice() == "dumb".as_bytes()
}

/// Whether the user wants no line of progress, and no sentence beside a refusal.
pub fn is_quiet<E: Env>(env: &E) -> bool {
    !matches!(env.var(QUIET, &mut [0]), Ok(0) | Err(FillError::NotPresent))
}

fn look_in<E: Env>(env: &E) -> Look {
    let columns = match read_number(variable(env, "COLUMNS").as_slice(), MOST_COLUMNS) {
        Some(columns) if columns > 0 => columns,
        _ => USUAL_COLUMNS,
    };
    Look {
        columns,
        has_blocks: has_blocks(env),
    }
}

// Whether the locale is one of UTF-8. The first of these variables that is set decides.
fn has_blocks<E: Env>(env: &E) -> bool {
    for name in ["LC_ALL", "LC_CTYPE", "LANG"] {
        let locale = variable(env, name);
        if !locale.is_empty() {
            return names_utf8(locale.as_slice());
        }
    }
    false
}

// For example de_DE.UTF-8 or C.utf8.
fn names_utf8(locale: &[u8]) -> bool {
    for start in 0..locale.len() {
        if begins_with_utf8(&locale[start..]) {
            return true;
        }
    }
    false
}

fn begins_with_utf8(text: &[u8]) -> bool {
    is_start(text, b"utf8") || is_start(text, b"utf-8")
}

// `start` is lower-case; the text may have either case.
fn is_start(text: &[u8], start: &[u8]) -> bool {
    text.len() >= start.len() && text[..start.len()].eq_ignore_ascii_case(start)
}
