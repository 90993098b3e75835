// Writes over stretches of lent words.
ghost use Rattle.std.specs.Prelude.{◌≡◌, ◌≤◌, length};
ghost use Rattle.words.specs.Inner.{Filled};

// Sets the words from `from` up to `end` to v.
pub fn fill(words: &mut [u32], from: usize, end: usize, v: u32)
    requires end_in_bounds { end ≤ length words.old }
    requires from_le_end { from ≤ end }
    ensures { Filled words.old from end v words.new }
{
    words[from..end].fill(v);
}
