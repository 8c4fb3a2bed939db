//! What the references of a set's assemblies say.

ghost use Rattle.std.specs.Prelude.{◌≡◌};
ghost use Rattle.std.specs.Option.{option_map};
ghost use Rattle.assemblies.specs.Binding.{assembly_of};
ghost use Rattle.member_keys.specs.Seen.{class_seen};
ghost use Rattle.tiny_rows.specs.Rows.{type_ref_seen, scope_seen};
ghost use Rattle.set_names.specs.Names.{seen_all};
ghost use Rattle.scope_walk.specs.Scopes.{reference_at, outer_row, named_alone, named_inside};

use crate::names::Names;
use member_keys::ClassId;
use scope_walk::References;
use tiny_rows::{Scope, TypeName, TypeRef, assembly_ref, type_ref, type_ref_count};

/// The reference to a type of a row, from 0; `None` where there is none.
#[tactic(auto, using(crate::proofs::ReferenceLaws::ref_in, crate::proofs::ReferenceLaws::no_ref))]
fn reference<'a>(names: &Names<'_, 'a>, file: u32, n: u32) -> Option<TypeRef<'a>>
    ensures { option_map type_ref_seen result ≡ reference_at (seen_all names.now) file n }
{
    match names.image(file) {
        Some(image) => type_ref(image, n),
        None => None,
    }
}

/// The assembly that a row refers to, from 0; `None` where there is no such row or no such assembly.
#[tactic(auto, using(crate::proofs::ReferenceLaws::assembly_in, crate::proofs::ReferenceLaws::assembly_missing, crate::proofs::ReferenceLaws::no_assembly))]
pub fn find_referenced(names: &Names<'_, '_>, file: u32, n: u32) -> Option<u32>
    ensures { result ≡ assembly_of (seen_all names.now) file n }
{
    match names.image(file) {
        Some(image) => match assembly_ref(image, n) {
            Some(name) => names.find_assembly(name),
            None => None,
        },
        None => None,
    }
}

/// The reference in which a scope lies.
fn outer(scope: Scope) -> Option<u32>
    ensures { result ≡ outer_row (scope_seen scope) }
{
    match scope {
        Scope::Assembly(_) => None,
        Scope::Outer(n) => Some(u32::from(n)),
    }
}

/// The type that a reference names where it isn't nested.
fn named_alone<'a>(names: &Names<'_, 'a>, file: u32, reference: TypeRef<'a>) -> Option<ClassId>
    ensures { option_map class_seen result ≡ named_alone (seen_all names.now) file (type_ref_seen reference.entry) }
{
    match reference.scope {
        Scope::Assembly(n) => {
            let key = TypeName {
                enclosing: None,
                namespace: reference.namespace,
                name: reference.name,
            };
            match find_referenced(names, file, u32::from(n)) {
                Some(assembly) => names.find_type(assembly, key),
                None => None,
            }
        }
        Scope::Outer(_) => None,
    }
}

/// The type that a reference names inside another type.
fn named_inside<'a>(
    names: &Names<'_, 'a>,
    outer: ClassId,
    reference: TypeRef<'a>,
) -> Option<ClassId>
    ensures { option_map class_seen result ≡ named_inside (seen_all names.now) (class_seen outer) (type_ref_seen reference.entry) }
{
    names.find_type(
        outer.file,
        TypeName {
            enclosing: Some(outer.row),
            namespace: reference.namespace,
            name: reference.name,
        },
    )
}

impl<'w, 'a> References for Names<'w, 'a> {
    ghost rows = { λ n. seen_all n };

    #[tactic(auto, using(crate::proofs::ReferenceLaws::refs_in, crate::proofs::ReferenceLaws::no_refs))]
    fn count(&self, file: u32) -> u32 {
        match self.image(file) {
            Some(image) => u32::from(type_ref_count(image)),
            None => 0,
        }
    }

    #[tactic(auto, using(crate::proofs::ReferenceLaws::parent_is, crate::proofs::ReferenceLaws::no_parent))]
    fn outer(&self, file: u32, n: u32) -> Option<u32> {
        match reference(self, file, n) {
            Some(reference) => outer(reference.scope),
            None => None,
        }
    }

    #[tactic(auto, using(crate::proofs::ReferenceLaws::root_is, crate::proofs::ReferenceLaws::no_root))]
    fn find_alone(&self, file: u32, n: u32) -> Option<ClassId> {
        match reference(self, file, n) {
            Some(reference) => named_alone(self, file, reference),
            None => None,
        }
    }

    #[tactic(auto, using(crate::proofs::ReferenceLaws::inner_is, crate::proofs::ReferenceLaws::no_inner))]
    fn find_inside(&self, file: u32, outer: ClassId, n: u32) -> Option<ClassId> {
        match reference(self, file, n) {
            Some(reference) => named_inside(self, outer, reference),
            None => None,
        }
    }
}
