// What the three calls judge: the buffer, the range to insert, and what the search met.
// Stays: a slice with a clause on its length, here and in the crates below, in place of `&[u32; 1537]`. `judge_buffer` takes a slice of any length and judges it, so to make an array of it after that would need a branch for a length that it cannot have.
ghost use Rattle.std.specs.Prelude.{◌≡◌, true, false, ◌<◌, length};
ghost use Rattle.words.specs.Refusals.{decide};
ghost use Rattle.words.specs.Answers.{judged};
ghost use Rattle.trees.specs.Ranges.{covers, page_value, overlaps, misplaced, beside_refusals};
ghost use Rattle.trees.specs.Nodes.{root_in};
ghost use Rattle.trees.specs.Trees.{tree_at, height_of, contents_of};
ghost use Rattle.trees.specs.Calls.{buffer_refusals};
ghost use Rattle.trees.specs.Inner.Walk.{lawful};
ghost use Rattle.trees.specs.Inner.Search.{begins_at, search_tree};

use ranges::page_words::{allowed_rights, frame_at, reserved_rights};
use runs::Page;
use treecheck::checking::{height, lawful, well_placed};
use treecheck::search::search_node;
use treenodes::reading::root_at;
use trees::{Path, Range, TREE_WORDS};
use words::answers::Refused;

// What rights count for in a lookup's value.
const RIGHTS: u32 = 4096;

// Whether the buffer is refused.
pub fn judge_buffer(tree: &[u32]) -> Result<(), Refused>
    ensures { judged result ≡ decide (buffer_refusals tree.now) 0 }
{
    if tree.len() != TREE_WORDS {
        return Err(Refused::WrongLength);
    }
    if !lawful(tree) {
        return Err(Refused::Unsound);
    }
    Ok(())
}

// The first range that ends behind the page, in a lawful tree.
pub fn search(tree: &[u32], page: Page) -> Path
    requires tree_len { length tree.now ≡ 1537 }
    requires lawful_tree { lawful tree.now ≡ true }
    ensures { result ≡ search_tree (height_of tree.now) (tree_at tree.now (height_of tree.now) (root_in tree.now)) page.0 }
{
    let h = height(tree);
    let root = root_at(tree);
    search_node(tree, h, root, page)
}

// Whether the range has the page.
pub fn has_page(r: Range, page: Page) -> bool
    ensures { result ≡ covers r page.0 }
{
    r.base <= page.0 && page.0 < r.limit
}

// Whether there is a range, and it begins at the page.
pub fn begins_at(found: Option<Range>, page: Page) -> bool
    ensures { result ≡ begins_at found page.0 }
{
    match found {
        Some(r) => r.base == page.0,
        None => false,
    }
}

// 4,096 × rights + frame.
pub fn page_value(r: Range, page: Page) -> u32
    requires { page_value r page.0 < 32768 }
    ensures { result ≡ page_value r page.0 }
{
    RIGHTS * r.rights + frame_at(page, r.offset).0
}

// Whether a range of the tree overlaps r.
fn overlaps_held(tree: &[u32], r: Range) -> bool
    requires tree_len { length tree.now ≡ 1537 }
    requires lawful_tree { (lawful tree.now ≡ true) × (misplaced r ≡ false) }
    ensures { result ≡ overlaps r (contents_of tree.now) }
{
    match search(tree, Page(r.base)).range {
        Some(next) => next.base < r.limit,
        None => false,
    }
}

// Whether the range is refused beside those of a lawful tree.
pub fn judge_range(tree: &[u32], r: Range) -> Result<(), Refused>
    requires tree_len { length tree.now ≡ 1537 }
    requires lawful_tree { lawful tree.now ≡ true }
    ensures { judged result ≡ decide (beside_refusals r (contents_of tree.now)) 0 }
{
    if reserved_rights(r.rights) {
        return Err(Refused::WriteWithoutRead);
    }
    if !allowed_rights(r.rights) {
        return Err(Refused::WrongRights);
    }
    if !well_placed(r) {
        return Err(Refused::WrongSpan);
    }
    if overlaps_held(tree, r) {
        return Err(Refused::AlreadyMapped);
    }
    Ok(())
}
