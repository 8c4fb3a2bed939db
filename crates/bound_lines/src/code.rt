//! The instructions of an image's methods.

ghost use Rattle.std.specs.Prelude.{◌≡◌, ◌<◌, ◌^◌, IfSome, length};
ghost use Rattle.std.specs.Option.{option_map};
ghost use Rattle.image_bytes.specs.Layout.{rows_of};
ghost use Rattle.image_form.specs.Codes.{short, lie_of};
ghost use Rattle.msspot_read.specs.Rows.{code_of};
ghost use Rattle.board_program.specs.Code.{raw_at};
ghost use Rattle.tiny_code.specs.Numbers.{IsToken, plain_seen};
ghost use Rattle.bound_lines.specs.Lines.{raw_seen};

use msspot_read::Image;
use tiny_code::{CodeInstr, instruction_at};

/// The table of methods.
const METHOD: u8 = 7;

/// The code of a method, whose length has 16 bits.
fn code_of<'a>(image: &Image<'a>, method: u16) -> &'a [u8]
    requires { method < rows_of image.now 7 }
    ensures code { result.now ≡ code_of image.now method }
    ensures few { length result.now < 2 ^ 32 }
{
    let _row = image.row(METHOD, method);
    image.code(method)
}

/// The instruction at a place of a method's code; `None` exactly where no accepted one stands there whole.
pub fn instruction<'a>(image: &Image<'a>, method: u16, place: u32) -> Option<CodeInstr<'a>>
    ensures line { option_map (raw_seen image.now place) result ≡ raw_at image.now method place }
    ensures token { IfSome result (λ i. IsToken (lie_of short i.row.operand) (plain_seen i.number)) }
{
    if method >= image.rows(METHOD) {
        return None;
    }
    instruction_at(code_of(image, method), place)
}
