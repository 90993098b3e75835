// Choosing the block that a request takes.
ghost use Rattle.std.specs.Prelude.{◌≡◌, true, ◌<◌, ◌≤◌, ℕ, get_or, IfSome, IfNone};
ghost use Rattle.std.proofs.Math.Option.{some};
ghost use Rattle.blocks.specs.Blocks.{largest_order, block};
ghost use Rattle.blocks.specs.FrameWords.{largest_pool, first_of, lawful};
ghost use Rattle.blocks.specs.Inner.Around.{start_of};
ghost use Rattle.blocks.specs.Inner.Taking.{nothing_known};
ghost use Rattle.blocks.specs.Inner.Passes.{order_within, TopOrder, order_at, scan_from, PassedTo, from_after, bound_after};
ghost use Rattle.blocks.specs.Inner.Marks.{gone_at, starts_by, Finds, Wished, Chooses};

use blocks::{Block, Bound, Chosen, Cut, FREE_FIRST, Frame, LARGEST_OWNER, ORDERS};
use framewords::buffer::{size_of, start_of};

// The largest order up to `limit` whose block has at most `left` frames.
fn top_order(left: u32, limit: u32) -> u32
    requires le_left { 1 ≤ left }
    requires limit_le_largest_order { limit ≤ largest_order }
    ensures { TopOrder left limit result }
{
    left.ilog2().min(limit)
}

// The largest order whose block has at most `left` frames.
pub fn order_within(left: u32) -> u32
    requires { 1 ≤ left }
    ensures { order_within left ≡ some result }
{
    top_order(left, 10)
}

// The order that is tried after t others: from `top` up to `limit`, then from below `top` down to 0.
fn order_at(limit: u32, top: u32, t: u32) -> u32
    requires top_le_limit { top ≤ limit }
    requires limit_bound { limit ≤ 10 }
    requires t_le_limit { t ≤ limit }
    ensures { result ≡ order_at limit top t }
{
    if top + t <= limit { top + t } else { limit - t }
}

// The frame from which the scan for order k starts.
fn scan_from(known: Bound, k: u32) -> Frame
    ensures { result.0 ≡ scan_from known k }
{
    if k == known.limit {
        known.from
    } else {
        Frame(0)
    }
}

// Word k of the marks; one that is not there is 0.
pub fn mark_at(marks: &[u32], k: u32) -> u32
    ensures { result ≡ get_or marks.now k 0 }
{
    marks.get(k as usize).copied().unwrap_or(0)
}

// The block of this order at s, in the free block of order `top`.
fn cut_at(s: Frame, order: u32, top: u32) -> Cut
    ensures block_value { result.block ≡ block order s.0 }
    ensures top_value { result.top ≡ top }
{
    Cut {
        block: Block { start: s, order },
        top,
    }
}

// The frame words that are lent, and the marks of what is chosen of them already.
#[derive(Clone, Copy)]
pub struct Lent<'a> {
    pub frames: &'a [u32],
    pub pool: u32,
    pub marks: &'a [u32],
    ghost sound: { lawful pool frames.now ≡ true },
}

impl Lent<'_> {
    // Whether the free block that starts at s in the words lent is left no more.
    fn is_gone(&self, s: Frame) -> bool
        requires { s.0 < self.now.pool }
        ensures { result ≡ gone_at self.now.marks.now s.0 }
    {
        let at = s.0;
        let word = mark_at(self.marks, 1 + at / 32);
        (word >> (at % 32)) % 2 == 1
    }

    // Whether a free block of order k starts at s, by the words lent and the marks.
    fn starts(&self, s: Frame, k: u32) -> bool
        requires s_lt_pool { s.0 < self.now.pool }
        requires k_le_largest_order { k ≤ largest_order }
        ensures { result ≡ starts_by self.now.frames.now self.now.marks.now k s.0 }
    {
        self.frames[s.0 as usize] == FREE_FIRST + k && !self.is_gone(s)
    }

    // The order, from k on, of the free block that holds the wished frame, if one does.
    fn order_around(&self, wish: Frame, k: u32) -> Option<u32>
        requires wish_lt_pool { wish.0 < self.now.pool }
        requires wish_value { start_of k wish.0 ≡ wish.0 }
        requires k_le_largest_order { k ≤ largest_order }
        ensures { Wished self.now.pool self.now.frames.now self.now.marks.now wish.0 k result }
    {
        (k..ORDERS).find(
            |&top|
                requires wish_lt_pool { wish.0 < self.now.pool }
                requires top_le_largest_order { top ≤ largest_order }
                ensures { result ≡ starts_by self.entry.now.frames.now self.entry.now.marks.now top (start_of top wish.0) }
            { self.starts(start_of(wish, top), top) },
        )
    }

    // The order of the free block that holds the block of order k at the wished frame, where that is wholly free.
    fn wished(&self, wish: Frame, k: u32) -> Option<u32>
        requires { k ≤ largest_order }
        ensures { Wished self.now.pool self.now.frames.now self.now.marks.now wish.0 k result }
    {
        let at = wish.0;
        if self.pool <= at {
            return None;
        }
        let word = self.frames[at as usize];
        // Most wishes that are not met are for a frame that is held.
        if word <= LARGEST_OWNER {
            return None;
        }
        // A smaller free block starts there.
        if FREE_FIRST <= word && word < FREE_FIRST + k {
            return None;
        }
        let start = start_of(wish, k);
        if start.0 != at {
            return None;
        }
        self.order_around(wish, k)
    }

    // The first start of a block of order k, from the one given on, at which the words lent have a free block of that order. A loop of its own, so that the compiler keeps it short.
    fn next_first(&self, from: u32, k: u32) -> Option<u32>
        requires k_le_largest_order { k ≤ largest_order }
        requires from_value { start_of k from ≡ from }
        ensures there { IfSome result (λ f. (f < self.now.pool) × (get_or self.now.frames.now f 0 ≡ first_of k) × PassedTo self.now.frames.now k from f) }
        ensures not_there { IfNone result ((f : ℕ) × (self.now.pool ≤ f) × PassedTo self.now.frames.now k from f) }
    {
        let size = size_of(k);
        let mut f = from;
        // Stays: speed, tried: over `(from..self.pool).step_by(..)` each step tests the end twice, and a scan takes half as long again.
        while f < self.pool {
            if self.frames[f as usize] == FREE_FIRST + k {
                return Some(f);
            }
            f += size;
        }
        None
    }

    // The old choice, if there is one, where no order above `top` can be chosen, earlier searches have shown `known` and the marks say what is taken already.
    fn search(&self, top: u32, known: Bound) -> Option<Cut>
        requires limit_le_largest_order { known.limit ≤ largest_order }
        requires top_le_limit { top ≤ known.limit }
        ensures { Finds self.now.pool self.now.frames.now self.now.marks.now top known result }
    {
        let limit = known.limit;
        'search: {
            for t in 0..limit + 1 {
                let k = order_at(limit, top, t);
                // A block of order k starts only at a multiple of its size.
                let mut from = start_of(scan_from(known, k), k).0;
                while let Some(f) = self.next_first(from, k) {
                    if !self.is_gone(Frame(f)) {
                        break 'search Some(cut_at(Frame(f), k.min(top), k));
                    }
                    from = f + size_of(k);
                }
            }
            None
        }
    }

    // The block that is taken with this wish for `left` pages, if there is one, where earlier searches have shown `known` and the marks say what is taken already.
    pub fn choose(&self, wish: Frame, left: u32, known: Bound) -> Option<Cut>
        requires le_left { 1 ≤ left }
        requires limit_le_largest_order { known.limit ≤ largest_order }
        ensures { Chooses self.now.pool self.now.frames.now self.now.marks.now wish.0 left known result }
    {
        // No larger order can be chosen: a wish that is met at this one needs no search.
        let top = top_order(left, known.limit);
        if let Some(high) = self.wished(wish, top) {
            return Some(cut_at(wish, top, high));
        }
        let old = self.search(top, known)?;
        let order = old.block.order;
        if order < top {
            if let Some(low) = self.wished(wish, order) {
                return Some(cut_at(wish, order, low));
            }
        }
        Some(old)
    }
}

// What is known before the first search.
pub fn nothing_known() -> Bound
    ensures { result ≡ nothing_known }
{
    Bound {
        limit: 10,
        from: Frame(0),
    }
}

// The frame from which the next scan for this order starts, once its block at `start` is taken and no larger one is left.
fn from_after(known: Bound, start: Frame, order: u32, wish: Frame) -> Frame
    requires order_le_largest_order { order ≤ largest_order }
    requires start_le_largest_pool { start.0 ≤ largest_pool }
    ensures { result.0 ≡ from_after known (block order start.0) wish.0 }
{
    // Taken for the wish, it need not be the lowest.
    if start.0 == wish.0 {
        return scan_from(known, order);
    }
    Frame(start.0 + size_of(order))
}

// What is known once the block of this order at `start` is taken with this wish while `left` pages are left.
fn bound_after(known: Bound, start: Frame, order: u32, wish: Frame, left: u32) -> Bound
    requires { start.0 ≤ largest_pool }
    ensures { result ≡ bound_after known (block order start.0) wish.0 left }
{
    if order < 10 {
        // A block twice as large would fit: so none is left.
        if size_of(order + 1) <= left {
            let from = from_after(known, start, order, wish);
            return Bound { limit: order, from };
        }
    }
    known
}

// The block of the cut, taken with this wish while `left` pages are left, and what is known then.
pub fn chosen_by(cut: Cut, wish: Frame, left: u32, known: Bound) -> Chosen
    requires { cut.block.start.0 ≤ largest_pool }
    ensures block_value { result.block ≡ cut.block }
    ensures known_value { result.known ≡ bound_after known cut.block wish.0 left }
{
    // Stays: speed, tried: start and order are handed on one by one, since a copy of the whole block, just after each was written by itself, makes the processor wait.
    let b = cut.block;
    let start = b.start;
    let order = b.order;
    let then = bound_after(known, start, order, wish, left);
    Chosen {
        block: Block { start, order },
        known: then,
    }
}
