// Whether a call is refused, and by what: the first refusal that applies, if one does. Nothing is written here.
#![tactic(auto)]

mod spans;

ghost use Rattle.std.specs.Prelude.{◌≡◌, eqb, length};
ghost use Rattle.words.specs.Wrapping.{largest_word};
ghost use Rattle.words.specs.Refusals.{decide};
ghost use Rattle.words.specs.Rows.{number_of};
ghost use Rattle.control.specs.Control.{control_buffer_words, removals};
ghost use Rattle.layout.specs.declared.TableCall.TheVariants.{SetUpPool, Open, Close, Map, Unmap, Protect};
ghost use Rattle.words.specs.Answers.{judged};
ghost use Rattle.layout.specs.Lent.{read};
ghost use Rattle.layout.specs.Calls.{row};
ghost use Rattle.refusals.specs.Inner.{of_tables, shared};

use crate::spans::judge_span;
use blocks::LARGEST_POOL;
use layout::Lent;
use runs::{LAST_SPACE, PAGE_WORDS, PAGES};
use tablecheck::{all_mapped, any_mapped, right_lengths, tables_sound};
use words::LARGEST_WORD;
use words::answers::Refused;

// The buffers: 1, 2.
fn judge_tables(lent: Lent) -> Result<(), Refused>
    ensures { judged result ≡ decide (of_tables (read lent.entry)) 0 }
{
    if !right_lengths(lent) {
        return Err(Refused::WrongLength);
    }
    if !tables_sound(lent) {
        return Err(Refused::Unsound);
    }
    Ok(())
}

// What the calls on a space share: 1, 2, 5, 6, 17, 8, 10. A call that gives no rights asks for 0, one that names no span for the whole space.
pub fn judge_shared(
    lent: Lent,
    space: u32,
    first: u32,
    count: u32,
    rights: u32,
) -> Result<(), Refused>
    ensures { judged result ≡ decide (shared (read lent.entry) space first count rights) 0 }
{
    judge_tables(lent)?;
    judge_span(lent.control, space, first, count, rights)
}

// Whether the removal numbers are used up.
fn no_number_left(control: &[u32]) -> bool
    requires { length control.now ≡ control_buffer_words }
    ensures { result ≡ eqb (removals control.now) largest_word }
{
    control::removal_count(control) == LARGEST_WORD
}

pub fn judge_set_up(lent: Lent, pool: u32) -> Result<(), Refused>
    ensures { judged result ≡ number_of (row (read lent.entry) (SetUpPool pool)) }
{
    if !right_lengths(lent) {
        return Err(Refused::WrongLength);
    }
    if pool < 1 {
        return Err(Refused::WrongPoolSize);
    }
    if LARGEST_POOL < pool {
        return Err(Refused::WrongPoolSize);
    }
    Ok(())
}

pub fn judge_open(lent: Lent, space: u32) -> Result<(), Refused>
    ensures { judged result ≡ number_of (row (read lent.entry) (Open space)) }
{
    judge_tables(lent)?;
    if LAST_SPACE < space {
        return Err(Refused::NoSuchSpace);
    }
    if control::is_open(control::open_mask(lent.control), space) {
        return Err(Refused::AlreadyOpen);
    }
    Ok(())
}

pub fn judge_close(lent: Lent, space: u32) -> Result<(), Refused>
    ensures { judged result ≡ number_of (row (read lent.entry) (Close space)) }
{
    judge_shared(lent, space, 0, PAGES, 0)?;
    if no_number_left(lent.control) {
        return Err(Refused::NoNumberLeft);
    }
    Ok(())
}

pub fn judge_map(lent: Lent, space: u32, first: u32, count: u32, rights: u32) -> Result<(), Refused>
    ensures { judged result ≡ number_of (row (read lent.entry) (Map space first count rights)) }
{
    judge_shared(lent, space, first, count, rights)?;
    let a = PAGE_WORDS * (space as usize);
    let e = a + PAGE_WORDS;
    if any_mapped(&lent.pages[a..e], first, count) {
        return Err(Refused::AlreadyMapped);
    }
    if frames::unchecked::count_free(lent.frames, control::pool_size(lent.control)) < count {
        return Err(Refused::TooFewFrames);
    }
    Ok(())
}

pub fn judge_protect(
    lent: Lent,
    space: u32,
    first: u32,
    count: u32,
    rights: u32,
) -> Result<(), Refused>
    ensures { judged result ≡ number_of (row (read lent.entry) (Protect space first count rights)) }
{
    judge_shared(lent, space, first, count, rights)?;
    let a = PAGE_WORDS * (space as usize);
    let e = a + PAGE_WORDS;
    if !all_mapped(&lent.pages[a..e], first, count) {
        return Err(Refused::NotMapped);
    }
    if no_number_left(lent.control) {
        return Err(Refused::NoNumberLeft);
    }
    Ok(())
}

// Refused as protect is with rights 0, which are always allowed.
pub fn judge_unmap(lent: Lent, space: u32, first: u32, count: u32) -> Result<(), Refused>
    ensures { judged result ≡ number_of (row (read lent.entry) (Unmap space first count)) }
{
    judge_protect(lent, space, first, count, 0)
}
