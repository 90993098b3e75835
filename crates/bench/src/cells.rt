// The three tables that are written: a line for each pool and a cell for each call, then a line for each state of the page tables, then a line for each span that is mapped and previewed. Each piece of a cell is a write of its own: where it fails, the rest of the piece is lost, and no other.
use crate::pool_calls::Request;
use crate::pools::Filling;
use words::Outcome;

fn text<R: Print>(rt: &R, s: &str) {
    let _ = rt.print(s);
}

// Between two cells of a line.
fn bar<R: Print>(rt: &R) {
    text(rt, " | ");
}

pub fn pool_heading<R: Print>(rt: &R) {
    text(
        rt,
        "F | pool | n | set up | check | count | allocate 1 | allocate n | free n\n-|-|-|-|-|-|-|-|-\n",
    );
}

// The first three cells of a line of the pool: the pool's size, how it is filled, and how many frames are asked for.
pub fn begin_pool<R: Print>(rt: &R, filling: Filling, r: Request) {
    let _ = rt.print(r.pool);
    bar(rt);
    let _ = rt.print(filling);
    bar(rt);
    let _ = rt.print(r.n);
}

pub fn table_heading<R: Print>(rt: &R) {
    text(rt, "\ntables | check\n-|-\n");
}

// The first cell of a line of the table check: which tables.
pub fn begin_tables<R: Print>(rt: &R, mapped: u32) {
    text(rt, if mapped == 0 { "empty" } else { "full" });
}

pub fn preview_heading<R: Print>(rt: &R) {
    text(
        rt,
        "\nF | broken up | n | copy | copy and map | preview\n-|-|-|-|-|-\n",
    );
}

// The first three cells of a line of a map and its preview: the pool's size, how many of its frames were broken up, and how many pages are asked for.
pub fn begin_span<R: Print>(rt: &R, pool: u32, held: u32, n: u32) {
    let _ = rt.print(pool);
    bar(rt);
    let _ = rt.print(held);
    bar(rt);
    let _ = rt.print(n);
}

pub fn end<R: Print>(rt: &R) {
    text(rt, "\n");
}

// The next cell: what a call answers, its first value or the number of its refusal.
pub fn answer<R: Print>(rt: &R, o: Outcome) {
    bar(rt);
    if o.number == 0 {
        let _ = rt.print(o.first);
    } else {
        text(rt, "refused ");
        let _ = rt.print(o.number);
    }
}

// The next cell: a number of hundredths, with two digits after the point.
pub fn hundredths<R: Print>(rt: &R, n: u64) {
    bar(rt);
    let _ = rt.print(n / 100);
    text(rt, ".");
    let part = n % 100;
    if part < 10 {
        text(rt, "0");
    }
    let _ = rt.print(part);
}

// Stays: no `parse`, which would refuse what is no digit; here it is passed over.
// The number with one decimal digit more; as it is where that is no digit, or the number has seven.
fn more(n: u32, digit: u8) -> u32 {
    if digit.is_ascii_digit() && n <= 999999 {
        n * 10 + u32::from(digit - b'0')
    } else {
        n
    }
}

// The number that decimal digits give.
pub fn number(digits: &[u8]) -> u32 {
    digits.iter().fold(0, |n, digit| more(n, *digit))
}
