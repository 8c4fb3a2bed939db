//! The image at the front of some bytes.

ghost use Rattle.std.specs.Prelude.{◌≡◌, IfSome};
ghost use Rattle.std.specs.Option.{option_map};
ghost use Rattle.deploy_model.specs.Banks.{ends};
ghost use Rattle.boot_scan.specs.Images.{image_size, image_entry};

use msspot_read::Image;

/// The entry of an image that has none.
const NO_ENTRY: u16 = 0xFFFF;

/// An image that stands.
#[derive(Clone, Copy)]
pub struct Standing {
    /// How many bytes it has.
    pub size: u32,
    /// Whether it has an entry method.
    pub has_entry: bool,
}

/// The image that begins there.
pub fn image_at(bytes: &[u8]) -> Option<Standing>
    ensures size { option_map (λ image. image.size) result ≡ image_size bytes.now }
    ensures entry { IfSome result (λ image. image.has_entry ≡ image_entry bytes.now) }
{
    match Image::view(bytes) {
        Err(_) => None,
        Ok(image) => Some(Standing {
            size: image.size(),
            has_entry: image.entry() != NO_ENTRY,
        }),
    }
}

/// Whether no image follows: no byte is left, or the next four are those of an erased place.
pub fn ends(bytes: &[u8]) -> bool
    ensures { result ≡ ends bytes.now }
{
    match bytes {
        [] => true,
        [0xFF, 0xFF, 0xFF, 0xFF, ..] => true,
        _ => false,
    }
}
