//! Laws of the clauses of images. The function does nothing: its contract is the law.

ghost use Rattle.std.specs.Prelude.{IsSome};
ghost use Rattle.image_bytes.specs.Layout.{Image};
ghost use Rattle.image_form.specs.Whole.{image_rows};
ghost use Rattle.tiny_rows.specs.Rows.{rows_seen};
ghost use Rattle.tiny_clauses.specs.Clauses.{AreKnown};

/// Each clause of a method of an image that stands is a catch or a finally, and a method with a catch has room for the
/// exception.
pub fn images_have_known_clauses()
    ensures { (i : Image) → IsSome (image_rows i) → AreKnown (rows_seen i) }
{}
