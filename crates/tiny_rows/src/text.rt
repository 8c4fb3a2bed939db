//! Names in the pool of strings.

ghost use Rattle.std.specs.Prelude.{◌≡◌, IsSome, Some};
ghost use Rattle.tiny_rows.specs.Rows.{name_in};

use msspot_read::Image;

/// The name that begins at an offset, in UTF-8.
#[tactic(auto, using(crate::proofs::NameLaws::text_there, crate::proofs::NameLaws::text_named))]
pub fn name<'a>(image: &Image<'a>, at: u16) -> &'a [u8]
    requires { IsSome (name_in image.now at) }
    ensures { Some result.now ≡ name_in image.now at }
{
    image.text(at)
}
