// What a layer above calls in place of the public calls: the judgement of the buffer by itself, and functions that ask for it beforehand.
pub use framewords::buffer::size_of;
pub use framewords::owners::count_free;
pub use merging::{fresh, judge, release};
pub use splitting::{end_of, mark_block, nothing_known, take_block};
