//! The images of a set, and what is found.

ghost use Rattle.std.specs.Prelude.{◌≡◌, ◌<◌, ◌+◌, ◌*◌, replicate, slice_set};

/// The most images of a set.
pub const MOST_IMAGES: usize = 32;

/// A set that is found: where its images begin in the flash, in order, and how many bytes each has. What stands behind
/// the last image is 0.
#[derive(Clone, Copy, Debug, PartialEq, Eq)]
pub struct Set {
    /// How many images there are, at most [`MOST_IMAGES`].
    pub count: u16,
    /// Where each begins.
    pub at: [u32; MOST_IMAGES],
    /// How many bytes each has.
    pub size: [u32; MOST_IMAGES],
}

impl Set {
    /// A set without images.
    pub(crate) fn empty() -> Set
        ensures count { result.count ≡ 0 }
        ensures at { result.at ≡ replicate 32 0 }
        ensures size { result.size ≡ replicate 32 0 }
    {
        Set {
            count: 0,
            at: [0; MOST_IMAGES],
            size: [0; MOST_IMAGES],
        }
    }

    /// One image more.
    pub(crate) fn add(&mut self, at: u32, size: u32)
        requires { self.old.count < MOST_IMAGES }
        ensures count { self.new.count ≡ self.old.count + 1 }
        ensures at { self.new.at ≡ slice_set self.old.at self.old.count at }
        ensures size { self.new.size ≡ slice_set self.old.size self.old.count size }
    {
        let place = usize::from(self.count);
        self.at[place] = at;
        self.size[place] = size;
        self.count += 1;
    }
}

/// What boot finds.
#[derive(Clone, Copy, Debug, PartialEq, Eq)]
pub enum Found {
    /// No marker stands where a set would begin.
    Nothing,
    /// A whole set.
    Set(Set),
    /// No set, and the place that shows it: where no image stands, or a 33rd begins, or the beginning of what holds
    /// the images, where not just one of them has an entry.
    Bad { at: u32 },
}
