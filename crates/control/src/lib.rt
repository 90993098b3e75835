// The control buffer: its fields, whether it is lawful, and what the calls write into it.
#![tactic(auto)]

ghost use Rattle.std.specs.Prelude.{◌≡◌, true, false, ◌+◌, ◌^◌, ◌≤◌, ◌<◌, length};
ghost use Rattle.words.specs.Wrapping.{largest_word};
ghost use Rattle.runs.specs.PageWords.{last_space};
ghost use Rattle.control.specs.Control.{control_buffer_words, log_places, all_open, pool_size, removals, open_mask, word_of_place, record_space, record_first, record_count, used, record_ok, record_fits, lawful_control, is_open, with_opened, with_closed, appended, fresh_control};

use blocks::LARGEST_POOL;
use runs::{LAST_SPACE, PAGES, Page};

// Where F, C and the open mask stand.
const POOL: usize = 0;

const REMOVALS: usize = 1;

const MASK: usize = 2;

// Where the removal records begin, how many words each has, and how many places there are.
const RECORDS: u32 = 3;

const RECORD_WORDS: u32 = 3;

pub const PLACES: u32 = 64;

// The words of the control buffer.
pub const WORDS: usize = 195;

// The mask with all four spaces open.
const ALL_OPEN: u32 = 15;

// Stays: with `&[u32; WORDS]` in place of the clause on the length, tried here, each caller that has a slice needs a branch for another length, which cannot be taken.
pub fn pool_size(control: &[u32]) -> u32
    requires { length control.now ≡ control_buffer_words }
    ensures { result ≡ pool_size control.now }
{
    control[POOL]
}

pub fn removal_count(control: &[u32]) -> u32
    requires { length control.now ≡ control_buffer_words }
    ensures { result ≡ removals control.now }
{
    control[REMOVALS]
}

pub fn open_mask(control: &[u32]) -> u32
    requires { length control.now ≡ control_buffer_words }
    ensures { result ≡ open_mask control.now }
{
    control[MASK]
}

// Stays: a place of the log is a number with its bound as a clause. It is a record's number modulo 64, made where it is used: a type for it is no plainer.
// The first word of place j.
fn word_of_place(j: u32) -> usize
    requires { j < log_places }
    ensures value { result ≡ word_of_place j }
    ensures result_bound { result + 2 < control_buffer_words }
{
    (RECORDS + RECORD_WORDS * j) as usize
}

// The space of the record in place j.
pub fn record_space(control: &[u32], j: u32) -> u32
    requires control_len { length control.now ≡ control_buffer_words }
    requires j_lt_log_places { j < log_places }
    ensures { result ≡ record_space control.now j }
{
    let at = word_of_place(j);
    control[at]
}

// Its first page.
pub fn record_first(control: &[u32], j: u32) -> Page
    requires control_len { length control.now ≡ control_buffer_words }
    requires j_lt_log_places { j < log_places }
    ensures { result.0 ≡ record_first control.now j }
{
    let at = word_of_place(j);
    Page(control[at + 1])
}

// Its page count.
pub fn record_count(control: &[u32], j: u32) -> u32
    requires control_len { length control.now ≡ control_buffer_words }
    requires j_lt_log_places { j < log_places }
    ensures { result ≡ record_count control.now j }
{
    let at = word_of_place(j);
    control[at + 2]
}

// Stays: that a space is below 4 is a clause: each call has judged the number that it was given, and a type for it is no plainer.
// The mask of space s alone.
fn bit_of(s: u32) -> u32
    requires { s ≤ last_space }
    ensures value { result ≡ 2 ^ s }
    ensures lower_bound { 1 ≤ result }
    ensures upper_bound { result ≤ 8 }
{
    1u32 << s
}

// Whether space s is open in a mask.
pub fn is_open(mask: u32, s: u32) -> bool
    requires { s ≤ last_space }
    ensures { result ≡ is_open mask s }
{
    let bit = bit_of(s);
    mask / bit % 2 == 1
}

// Whether one of the records 1 to c stands in place j.
fn is_used(c: u32, j: u32) -> bool
    ensures { result ≡ used c j }
{
    PLACES <= c || (1 <= j && j <= c)
}

// Whether a place may hold these three words. The sum of first page and page count may not fit a word, so it is not made.
fn record_ok(used: bool, space: u32, first: u32, count: u32) -> bool
    ensures { result ≡ record_ok used space first count }
{
    if !used {
        return (space, first, count) == (0, 0, 0);
    }
    if LAST_SPACE < space || count < 1 || PAGES < count {
        return false;
    }
    first <= PAGES - count
}

fn record_fits(control: &[u32], j: u32) -> bool
    requires control_len { length control.now ≡ control_buffer_words }
    requires j_lt_log_places { j < log_places }
    ensures { result ≡ record_fits control.now j }
{
    let stands = is_used(removal_count(control), j);
    let space = record_space(control, j);
    let first = record_first(control, j);
    record_ok(stands, space, first.0, record_count(control, j))
}

// Whether the control buffer keeps its layout.
pub fn control_lawful(control: &[u32]) -> bool
    requires { length control.now ≡ control_buffer_words }
    ensures { result ≡ lawful_control control.now }
{
    let pool = pool_size(control);
    let mask = open_mask(control);
    if pool < 1 || LARGEST_POOL < pool || ALL_OPEN < mask {
        return false;
    }
    (0..PLACES).all(|j| record_fits(control, j))
}

// Appends a removal record.
pub fn append(control: &mut [u32], space: u32, first: Page, count: u32)
    requires control_len { length control.old ≡ control_buffer_words }
    requires number_left { removals control.old ≡ largest_word → ⊥ }
    ensures { control.new ≡ appended control.old space first.0 count }
{
    let m = removal_count(control) + 1;
    let at = word_of_place(m % PLACES);
    control[REMOVALS] = m;
    control[at] = space;
    control[at + 1] = first.0;
    control[at + 2] = count;
}

// Opens space s in the mask.
pub fn open_space(control: &mut [u32], s: u32)
    requires control_len { length control.old ≡ control_buffer_words }
    requires s_le_last_space { s ≤ last_space }
    requires control_bound { open_mask control.old ≤ all_open }
    requires s_value { is_open (open_mask control.old) s ≡ false }
    ensures { control.new ≡ with_opened control.old s }
{
    let mask = open_mask(control);
    control[MASK] = mask + bit_of(s);
}

// Closes space s in the mask.
pub fn close_space(control: &mut [u32], s: u32)
    requires control_len { length control.old ≡ control_buffer_words }
    requires s_le_last_space { s ≤ last_space }
    requires control_bound { open_mask control.old ≤ all_open }
    requires s_value { is_open (open_mask control.old) s ≡ true }
    ensures { control.new ≡ with_closed control.old s }
{
    let mask = open_mask(control);
    control[MASK] = mask - bit_of(s);
}

// The control buffer of a pool just set up.
pub fn fresh_control(control: &mut [u32], pool: u32)
    requires { length control.old ≡ control_buffer_words }
    ensures { control.new ≡ fresh_control pool }
{
    control[..WORDS].fill(0);
    control[POOL] = pool;
}
