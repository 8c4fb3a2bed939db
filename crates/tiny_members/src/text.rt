//! Names and signatures in the pools.

ghost use Rattle.std.specs.Prelude.{◌≡◌, IsSome, Some};
ghost use Rattle.tiny_rows.specs.Rows.{name_in};

use msspot_read::Image;

/// The name that begins at an offset.
pub fn text<'a>(image: &Image<'a>, at: u16) -> &'a str
    requires { IsSome (name_in image.now at) }
    ensures { Some result.now ≡ name_in image.now at }
{
    match str::from_utf8(image.text(at)) {
        Ok(text) => text,
        Err(_) => unreachable!(),
    }
}
