// The place of two words that a caller lends for the two values of an answer.
ghost use Rattle.words.specs.Places.{Given};

use crate::Outcome;

// How many words it has.
pub const VALUES: usize = 2;

// Puts the two values of an answer there, and answers its number. Words of another length are answered with 1 and left alone.
pub fn give(values: &mut [u32], o: Outcome) -> u32
    ensures { Given o values.old result values.new }
{
    if values.len() != VALUES {
        return 1;
    }
    values[0] = o.first;
    values[1] = o.second;
    o.number
}
