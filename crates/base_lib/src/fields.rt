//! The items of the tables by their fields.

ghost use Rattle.std.specs.Prelude.{◌≡◌};
ghost use Rattle.base_lib.specs.Fields.{fields_with};

use base_tables::shape::{Entry, Item, Kind, Line, Signature, Work};

/// One thing that is asked for.
#[derive(Clone, Copy)]
pub struct Fields {
    pub entry: Entry,
    /// The key by which others name it; of a literal its text.
    pub key: &'static str,
    /// Its name; of an [`Entry::Implements`] the key of the class.
    pub name: &'static str,
    pub namespace: &'static str,
    /// The key of what it stands on: a superclass, an interface, an assembly, or the type of a member.
    pub base: &'static str,
    pub flags: u32,
    pub signature: Signature,
    /// What a method does.
    pub work: Work,
    /// The most values on its stack, or a native's number.
    pub number: u16,
    pub locals: &'static [Kind],
    pub lines: &'static [Line],
}

/// An item by its fields.
pub fn fields_of(item: &Item) -> Fields
    ensures { result ≡ fields_with item.now }
{
    let (entry, key, name, namespace, base, flags, signature, body) = *item;
    let (work, number, locals, lines) = body;
    Fields {
        entry,
        key,
        name,
        namespace,
        base,
        flags,
        signature,
        work,
        number,
        locals,
        lines,
    }
}
