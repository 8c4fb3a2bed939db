//! The entries of the pools, each a length of two bytes and as many bytes.

ghost use Rattle.std.specs.Prelude.{◌≡◌, ◌≤◌, ◌<◌, length, drop, None, true, is_some, IfNone, OnSome, IfSome};
ghost use Rattle.std.specs.Str.{is_utf8};
ghost use Rattle.std.specs.Option.{option_copied};
ghost use Rattle.image_form.specs.Whole.{bytes_at, texts_in};
ghost use Rattle.msspot_read.specs.Forms.{fits};
ghost use Rattle.msspot_read.specs.Marked.{MarksForm};
ghost use Rattle.msspot_read.specs.Entry.{first_text};

use crate::marks::Marks;
use crate::parts::Parts;
use crate::signature::{is_array, is_whole, locals, lone_type, method};

/// What an entry is asked to be.
#[derive(Clone, Copy)]
pub enum Form {
    /// A text in UTF-8.
    Name,
    /// The signature of a field: a type alone.
    Type,
    /// The signature of a TypeSpec: an array alone.
    Array,
    /// The signature of a method.
    Method,
    /// A signature of locals.
    Locals,
}

/// The text of the entry at a place of a pool; `None` where the pool ends before it does.
#[tactic(auto, unfolding(crate::specs::Entry::first_text))]
pub fn entry_at(pool: &[u8], at: usize) -> Option<&[u8]>
    requires { at ≤ length pool.now }
    ensures { option_copied result ≡ first_text (drop at pool.now) }
{
    let [low, high, rest @ ..] = &pool[at..] else {
        return None;
    };
    let size = usize::from(*low) + 256 * usize::from(*high);
    if size > rest.len() {
        return None;
    }
    Some(&rest[..size])
}

#[tactic(auto, using(crate::proofs::TokenLaws::utf8_yes, crate::proofs::TokenLaws::utf8_no))]
fn is_text(entry: &[u8]) -> bool
    ensures { result ≡ is_utf8 entry.now }
{
    match str::from_utf8(entry) {
        Ok(_) => true,
        Err(_) => false,
    }
}

/// Whether an entry has the form.
#[tactic(auto, using(crate::proofs::SigLaws::type_fits, crate::proofs::SigLaws::array_is_fit, crate::proofs::SigLaws::method_fits, crate::proofs::SigLaws::locals_fit))]
fn has_form(parts: &Parts<'_>, form: Form, entry: &[u8]) -> bool
    ensures { result ≡ fits parts.now form entry.now }
{
    match form {
        Form::Name => is_text(entry),
        Form::Type => is_whole(lone_type(parts, entry)),
        Form::Array => is_array(parts, entry),
        Form::Method => is_whole(method(parts, entry)),
        Form::Locals => is_whole(locals(parts, entry)),
    }
}

/// The entries of a pool that have a form, marked at their offsets; `None` where the pool doesn't fall into entries.
pub fn entries_of(parts: &Parts<'_>, number: u8, form: Form) -> Option<Marks>
    requires { number < 4 }
    ensures none { IfNone result (texts_in (bytes_at parts.now number) ≡ None) }
    ensures falls { OnSome result (is_some (texts_in (bytes_at parts.now number)) ≡ true) }
    ensures marks { IfSome result (λ m. MarksForm parts.now number form m.words) }
{
    let pool = parts.pool(number);
    let mut marks = Marks::none();
    let mut at = 0;
    'entries: while at < pool.len() {
        match entry_at(pool, at) {
            None => return None,
            Some(entry) => {
                let on = has_form(parts, form, entry);
                marks.note(at as u16, on);
                at += 2 + entry.len();
            }
        }
    }
    Some(marks)
}
