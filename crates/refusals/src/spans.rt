// Whether a call on a span is refused, once the buffers have been judged.
ghost use Rattle.std.specs.Prelude.{◌≡◌, false, [], ◌∷◌, length};
ghost use Rattle.words.specs.Refusals.{decide};
ghost use Rattle.runs.specs.PageWords.{allowed_rights};
ghost use Rattle.control.specs.Control.{control_buffer_words};
ghost use Rattle.words.specs.Answers.{number, judged};
ghost use Rattle.layout.specs.Calls.{wrong_rights, write_without_read};
ghost use Rattle.refusals.specs.Inner.{of_span};

use ranges::page_words::{allowed_rights, reserved_rights};
use runs::LAST_SPACE;
use tablecheck::is_span;
use words::answers::Refused;

// Why rights that are not allowed are refused: 17 where they are reserved, else 6.
fn refused_rights(rights: u32) -> Refused
    requires { allowed_rights rights ≡ false }
    ensures { number result ≡ decide (wrong_rights rights ∷ write_without_read rights ∷ []) 0 }
{
    if reserved_rights(rights) {
        return Refused::WriteWithoutRead;
    }
    Refused::WrongRights
}

// A span of an open space, with rights: 5, 6, 17, 8, 10.
pub fn judge_span(
    control: &[u32],
    space: u32,
    first: u32,
    count: u32,
    rights: u32,
) -> Result<(), Refused>
    requires { length control.now ≡ control_buffer_words }
    ensures { judged result ≡ decide (of_span control.now space first count rights) 0 }
{
    if LAST_SPACE < space {
        return Err(Refused::NoSuchSpace);
    }
    if !allowed_rights(rights) {
        return Err(refused_rights(rights));
    }
    if !is_span(first, count) {
        return Err(Refused::WrongSpan);
    }
    if !control::is_open(control::open_mask(control), space) {
        return Err(Refused::NotOpen);
    }
    Ok(())
}
