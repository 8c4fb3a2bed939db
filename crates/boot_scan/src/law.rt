//! Laws of what is found. Each function does nothing: its contract is the law.

ghost use Rattle.std.specs.Prelude.{◌≡◌, ℕ, List, take, Some};
ghost use Rattle.deploy_model.specs.Banks.{IsFormat};
ghost use Rattle.boot_scan.specs.Images.{FORMAT, image_size, image_entry};

/// The reading of images is one that deployments are proved over: an image lies inside the bytes where it stands, and
/// its own bytes tell it, also whether it has an entry.
pub fn images_are_a_format()
    ensures format { IsFormat FORMAT }
    ensures entry { (bytes others : List ℕ) (size : ℕ) → image_size bytes ≡ Some size → take size others ≡ take size bytes → image_entry others ≡ image_entry bytes }
{}
