//! Numbers of an image.

ghost use Rattle.std.specs.Prelude.{◌≡◌, ◌++◌, [], OnOk};
ghost use Rattle.image_bytes.specs.Layout.{word_onto};
ghost use Rattle.converted.specs.Cut.{two_bytes, bytes_cut};

use plain_types::fault::NoMemory;

/// What two bytes hold of a number. Within the limits of an image that is all of it.
pub fn two_bytes(number: u64) -> u16
    ensures { result ≡ two_bytes number }
{
    (number % 0x1_0000) as u16
}

/// Adds what two bytes hold of a number, the lowest byte first.
#[tactic(auto, using(crate::proofs::CutLaws::word_pushed))]
pub fn push_word(out: &mut Vec<u8>, word: u64) -> Result<(), NoMemory>
    ensures { OnOk result (out.new.items ≡ out.old.items ++ bytes_cut (word_onto word [])) }
{
    out.push((word % 256) as u8)?;
    out.push((word / 256 % 256) as u8)?;
    Ok(())
}
