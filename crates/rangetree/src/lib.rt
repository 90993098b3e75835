// The range tree: a B-tree of ranges over a lent buffer of 1,537 words, for the logic that walks it. Three calls, also exported for C and Rust; none asks anything of its caller.
#![tactic(auto)]

mod judging;

ghost use Rattle.std.specs.Prelude.{◌≡◌};
ghost use Rattle.words.specs.Answers.{outcome};
ghost use Rattle.words.specs.Rows.{Promised};
ghost use Rattle.trees.specs.Trees.{nodes, tree_of, OthersStay};
ghost use Rattle.trees.specs.Insertion.{insertion_way};
ghost use Rattle.trees.specs.Removal.{removal_way};
ghost use Rattle.trees.specs.Calls.{insert_call, remove_call, lookup_call};
ghost use Rattle.rangetree.specs.Exports.{TreeExported};

use crate::judging::{begins_at, has_page, judge_buffer, judge_range, page_value, search};
use runs::{LAST_PAGE, Page};
use treecheck::checking::height;
use treeinsert::insert_root;
use treeremove::root::remove_root;
use trees::Range;
use words::answers::{Answer, Refused, Values, outcome};
use words::places::{VALUES, give};

// A range into the tree. Refused: 1, 2, 6, 17, 8, 11.
pub fn insert(tree: &mut [u32], base: u32, limit: u32, offset: u32, rights: u32) -> Answer
    ensures promised { Promised (insert_call tree.old (record { base = base; limit = limit; offset = offset; rights = rights })) tree.old (outcome result) tree.new }
    ensures others_stay { (outcome result).number ≡ 0 → OthersStay tree.old (nodes (tree_of tree.old).height (tree_of tree.old).tree) (insertion_way base (tree_of tree.old).height (tree_of tree.old).tree) tree.new }
{
    judge_buffer(tree)?;
    let r = Range {
        base,
        limit,
        offset,
        rights,
    };
    judge_range(tree, r)?;
    let h = height(tree);
    insert_root(tree, h, r);
    Ok(Values::from(0))
}

// The range of this BASE out of the tree. Refused: 1, 2, 8, 12.
pub fn remove(tree: &mut [u32], base: u32) -> Answer
    ensures promised { Promised (remove_call tree.old base) tree.old (outcome result) tree.new }
    ensures others_stay { (outcome result).number ≡ 0 → OthersStay tree.old (nodes (tree_of tree.old).height (tree_of tree.old).tree) (removal_way base (tree_of tree.old).height (tree_of tree.old).tree) tree.new }
{
    judge_buffer(tree)?;
    if LAST_PAGE < base {
        return Err(Refused::WrongSpan);
    }
    let p = search(tree, Page(base));
    if !begins_at(p.range, Page(base)) {
        return Err(Refused::NotMapped);
    }
    let h = height(tree);
    remove_root(tree, h, base);
    Ok(Values::from(0))
}

// The page in the tree: 4,096 × rights + frame, then how many nodes the way to its range has. Refused: 1, 2, 8, 12.
pub fn lookup(tree: &[u32], page: u32) -> Answer
    ensures { Promised (lookup_call tree.now page) tree.now (outcome result) tree.now }
{
    judge_buffer(tree)?;
    if LAST_PAGE < page {
        return Err(Refused::WrongSpan);
    }
    let p = search(tree, Page(page));
    let Some(r) = p.range else {
        return Err(Refused::NotMapped);
    };
    if !has_page(r, Page(page)) {
        return Err(Refused::NotMapped);
    }
    Ok(Values {
        first: page_value(r, Page(page)),
        second: p.nodes,
    })
}

// `insert` for C and Rust: the number is returned, the values go into a lent place. Refused: 1, 2, 6, 17, 8, 11.
// Stays: each export is written out, with its own test of the place for the values: the C interface has them so.
#[unsafe(no_mangle)]
pub extern "C" fn yavrestom_tree_insert(
    tree: &mut [u32],
    base: u32,
    limit: u32,
    offset: u32,
    rights: u32,
    values: &mut [u32],
) -> u32
    ensures { TreeExported (insert_call tree.old (record { base = base; limit = limit; offset = offset; rights = rights })) tree.old values.old result tree.new values.new }
{
    if values.len() != VALUES {
        return 1;
    }
    give(values, outcome(insert(tree, base, limit, offset, rights)))
}

// `remove` for C and Rust, in the same way. Refused: 1, 2, 8, 12.
#[unsafe(no_mangle)]
pub extern "C" fn yavrestom_tree_remove(tree: &mut [u32], base: u32, values: &mut [u32]) -> u32
    ensures { TreeExported (remove_call tree.old base) tree.old values.old result tree.new values.new }
{
    if values.len() != VALUES {
        return 1;
    }
    give(values, outcome(remove(tree, base)))
}

// `lookup` for C and Rust, in the same way. Refused: 1, 2, 8, 12.
#[unsafe(no_mangle)]
pub extern "C" fn yavrestom_tree_lookup(tree: &[u32], page: u32, values: &mut [u32]) -> u32
    ensures { TreeExported (lookup_call tree.now page) tree.now values.old result tree.now values.new }
{
    if values.len() != VALUES {
        return 1;
    }
    give(values, outcome(lookup(tree, page)))
}
