// The frame pool as it ships: set up, check, count, allocate and free over a lent buffer of 4,096 frame words.
// Each call judges what it is lent. The functions of `unchecked` ask for that beforehand, and serve callers that have judged it themselves.
#![tactic(auto)]

pub mod unchecked;

ghost use Rattle.std.specs.Prelude.{◌≡◌, [], ◌∷◌};
ghost use Rattle.words.specs.Answers.{outcome, judged};
ghost use Rattle.words.specs.Refusals.{decide};
ghost use Rattle.blocks.specs.declared.PoolCall.TheVariants.{SetUp, Check, Count, Allocate, Free};
ghost use Rattle.blocks.specs.FrameWords.{is_pool_size};
ghost use Rattle.blocks.specs.Calls.{lent, in_owners, wrong_length, wrong_pool_size, judged as buffer_refusals, Called};

use blocks::{BUFFER_WORDS, Frame, LARGEST_OWNER, LARGEST_POOL};
use framewords::owners::{all_held, any_held, count_free};
use merging::{fresh, lawful, release};
use splitting::take_frames;
pub use words::answers::outcome;
use words::answers::{Answer, Refused, Values};

fn is_pool_size(pool: u32) -> bool
    ensures { result ≡ is_pool_size pool }
{
    1 <= pool && pool <= LARGEST_POOL
}

// Whether the n owners from `owner` on are at least one, and all from 1 to 4,096.
fn in_owners(owner: u32, n: usize) -> bool
    ensures { result ≡ in_owners owner n }
{
    let last = LARGEST_OWNER as usize;
    if n < 1 || owner < 1 || last < n {
        return false;
    }
    owner as usize + n <= last + 1
}

// The judgement of the sizes, with which every call begins.
fn judge_sizes(frames: &[u32], pool: u32) -> Result<(), Refused>
    ensures { judged result ≡ decide (wrong_length frames.now ∷ wrong_pool_size pool ∷ []) 0 }
{
    if frames.len() != BUFFER_WORDS {
        return Err(Refused::WrongLength);
    }
    if !is_pool_size(pool) {
        return Err(Refused::WrongPoolSize);
    }
    Ok(())
}

// The judgement of the buffer, with which every call but set up begins.
fn judge(frames: &[u32], pool: u32) -> Result<(), Refused>
    ensures { judged result ≡ decide (buffer_refusals pool frames.now []) 0 }
{
    judge_sizes(frames, pool)?;
    if !lawful(frames, pool) {
        return Err(Refused::Unsound);
    }
    Ok(())
}

// Sets up the words of a pool whose `pool` frames are all free. Refused: 1, 4.
pub fn set_up(frames: &mut [u32], pool: u32) -> Answer
    ensures { Called (SetUp pool) (lent frames.old []) (outcome result) (lent frames.new []) }
{
    judge_sizes(frames, pool)?;
    fresh(frames, pool);
    Ok(Values::from(0))
}

// Whether the words are lawful for a pool of `pool` frames. Refused: 1, 2, 4.
pub fn check(frames: &[u32], pool: u32) -> Answer
    ensures { Called (Check pool) (lent frames.now []) (outcome result) (lent frames.now []) }
{
    judge(frames, pool)?;
    Ok(Values::from(0))
}

// How many frames are free, counted singly. Refused: 1, 2, 4.
pub fn count(frames: &[u32], pool: u32) -> Answer
    ensures { Called (Count pool) (lent frames.now []) (outcome result) (lent frames.now []) }
{
    judge(frames, pool)?;
    Ok(Values::from(count_free(frames, pool)))
}

// Takes out.len() frames for the owners from `owner` on, by the map rule with this wish: their numbers into `out`, in page order. A wish that names no frame of the pool is none.
// The value is the number of blocks. Refused: 1, 2, 4, 8, 11, 14.
pub fn allocate(frames: &mut [u32], pool: u32, owner: u32, wish: u32, out: &mut [u32]) -> Answer
    ensures { Called (Allocate pool owner wish) (lent frames.old out.old) (outcome result) (lent frames.new out.new) }
{
    judge(frames, pool)?;
    let n = out.len();
    if !in_owners(owner, n) {
        return Err(Refused::WrongSpan);
    }
    if any_held(frames, pool, owner, n as u32) {
        return Err(Refused::AlreadyMapped);
    }
    if count_free(frames, pool) < n as u32 {
        return Err(Refused::TooFewFrames);
    }
    let blocks = take_frames(frames, pool, owner, Frame(wish), out);
    Ok(Values::from(blocks))
}

// Frees every frame of the n owners from `owner` on. The value is the number of frames that became free. Refused: 1, 2, 4, 8, 12.
pub fn free(frames: &mut [u32], pool: u32, owner: u32, n: u32) -> Answer
    ensures { Called (Free pool owner n) (lent frames.old []) (outcome result) (lent frames.new []) }
{
    judge(frames, pool)?;
    if !in_owners(owner, n as usize) {
        return Err(Refused::WrongSpan);
    }
    if !all_held(frames, pool, owner, n) {
        return Err(Refused::NotMapped);
    }
    let before = count_free(frames, pool);
    release(frames, pool, owner, n);
    let after = count_free(frames, pool);
    Ok(Values::from(after - before))
}
