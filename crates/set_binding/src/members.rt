//! What references to members name (ECMA-335 II.22.25).

ghost use Rattle.std.specs.Prelude.{◌≡◌, IfOk};
ghost use Rattle.std.specs.Option.{option_map};
ghost use Rattle.assemblies.specs.Rows.{Reference};
ghost use Rattle.assemblies.specs.Binding.{resolve_field, resolve_method};
ghost use Rattle.member_keys.specs.Seen.{class_seen};
ghost use Rattle.member_search.specs.declared.sort.Sort.TheVariants.{Field, Method};
ghost use Rattle.world_rows.specs.World.{size_of};
ghost use Rattle.set_names.specs.Names.{seen_all};
ghost use Rattle.set_table.specs.Subject.{IsSubject};
ghost use Rattle.set_binding.specs.Columns.{AreNamed};
ghost use Rattle.set_binding.specs.Searched.{IsSearched};

use member_keys::ClassId;
use member_search::MemberIndex;
use plain_types::fault::NoMemory;
use set_signatures::{field_type, method_signature};
use set_table::{Subject, find_named};
use std::alloc::Global;
use tiny_members::{field_ref, field_ref_count, method_ref, method_ref_count};

/// The field that a row refers to: the first with its name and type in the class that it names, or else in the nearest of
/// its superclasses that has one; `None` where there is none, or a type isn't found.
fn find_field<'a>(
    alloc: Global,
    subject: &Subject<'_, '_, 'a>,
    fields: &MemberIndex<'_, 'a>,
    n: u32,
) -> Option<ClassId>
    requires subject { IsSubject subject.now }
    requires fields { IsSearched Field (seen_all subject.now.names.now) fields.now }
    ensures { option_map class_seen result ≡ resolve_field (size_of (seen_all subject.now.names.now)) (seen_all subject.now.names.now) subject.now.tokens.file (Reference n) }
{
    let reference = field_ref(subject.image, n)?;
    let class = find_named(subject, reference.parent)?;
    let of = field_type(&subject.tokens, reference.signature)?;
    fields.find_field(alloc, class, reference.name, of)
}

/// The method that a row refers to: the first with its name and signature in the class that it names, or else in the
/// nearest of its superclasses that has one; `None` where there is none, or a type isn't found.
fn find_method<'a>(
    alloc: Global,
    subject: &Subject<'_, '_, 'a>,
    methods: &MemberIndex<'_, 'a>,
    n: u32,
) -> Result<Option<ClassId>, NoMemory>
    requires subject { IsSubject subject.now }
    requires methods { IsSearched Method (seen_all subject.now.names.now) methods.now }
    ensures { IfOk result (λ found. option_map class_seen found ≡ resolve_method (size_of (seen_all subject.now.names.now)) (seen_all subject.now.names.now) subject.now.tokens.file (Reference n)) }
{
    let Some(reference) = method_ref(subject.image, n) else {
        return Ok(None);
    };
    let Some(class) = find_named(subject, reference.parent) else {
        return Ok(None);
    };
    let Some(signature) = method_signature(alloc, &subject.tokens, reference.signature)? else {
        return Ok(None);
    };
    Ok(methods.find_method(class, reference.name, signature))
}

/// The fields that the rows of one image refer to, in their order.
pub fn resolve_fields<'a>(
    alloc: Global,
    subject: &Subject<'_, '_, 'a>,
    fields: &MemberIndex<'_, 'a>,
) -> Result<Vec<Option<ClassId>>, NoMemory>
    requires subject { IsSubject subject.now }
    requires fields { IsSearched Field (seen_all subject.now.names.now) fields.now }
    ensures { IfOk result (λ found. AreNamed (seen_all subject.now.names.now) subject.now.tokens.file 2 found.items) }
{
    let mut found = Vec::new(alloc);
    for n in 0..field_ref_count(subject.image) {
        found.push(find_field(alloc, subject, fields, u32::from(n)))?;
    }
    Ok(found)
}

/// The methods that the rows of one image refer to, in their order.
pub fn resolve_methods<'a>(
    alloc: Global,
    subject: &Subject<'_, '_, 'a>,
    methods: &MemberIndex<'_, 'a>,
) -> Result<Vec<Option<ClassId>>, NoMemory>
    requires subject { IsSubject subject.now }
    requires methods { IsSearched Method (seen_all subject.now.names.now) methods.now }
    ensures { IfOk result (λ found. AreNamed (seen_all subject.now.names.now) subject.now.tokens.file 3 found.items) }
{
    let mut found = Vec::new(alloc);
    for n in 0..method_ref_count(subject.image) {
        found.push(find_method(alloc, subject, methods, u32::from(n))?)?;
    }
    Ok(found)
}
