//! The way up the superclasses.

ghost use Rattle.std.specs.Prelude.{◌≡◌, Some};
ghost use Rattle.std.specs.Option.{option_map};
ghost use Rattle.classes.specs.Queries.{superclass_of, find_method, find_field};
ghost use Rattle.member_keys.specs.Seen.{class_seen, signature_seen, type_seen};
ghost use Rattle.class_table.specs.Seen.{classes_seen};
ghost use Rattle.member_search.specs.declared.sort.Sort.TheVariants.{Field, Method};
ghost use Rattle.member_search.specs.Shown.{key_shown, member_up};

use crate::index::MemberIndex;
use class_table::ClassTable;
use member_keys::{ClassId, MemberKey, SignatureKey, TypeKey};
use std::alloc::Global;

/// The class that a class extends.
fn superclass(table: &ClassTable<'_>, class: ClassId) -> Option<ClassId>
    ensures { option_map class_seen result ≡ superclass_of (classes_seen table.now) (class_seen class) }
{
    let file = table.files.get(class.file as usize)?;
    file.classes.get(class.row as usize)?.superclass
}

impl<'t, 'a> MemberIndex<'t, 'a> {
    /// The first member with the key's name and signature on the way from a class up its superclasses (II.22.25). It
    /// ends also where the way goes in a circle.
    pub fn find(&self, class: ClassId, key: &MemberKey<'a>) -> Option<ClassId>
        ensures { option_map class_seen result ≡ member_up self.now.sort self.now.table (key_shown key.now) (class_seen class) }
    {
        let mut class = class;
        // A class that the way came by, and how many steps ago: it meets itself in a circle.
        let mut mark = class;
        let mut steps: u64 = 0;
        let mut most: u64 = 1;
        let mut left = self.table().size;
        'up: loop {
            if let Some(member) = self.find_own(class, key) {
                return Some(member);
            }
            if left == 0 {
                return None;
            }
            let next = superclass(self.table(), class)?;
            if next.file == mark.file && next.row == mark.row {
                return None;
            }
            class = next;
            left -= 1;
            steps += 1;
            if steps == most {
                mark = class;
                steps = 0;
                most = most.saturating_mul(2);
            }
        }
    }

    /// The method that a reference means: the first with the name and the signature in a class, or else in the nearest
    /// of its superclasses that has one (II.22.25).
    #[tactic(auto, using(crate::proofs::SearchLaws::method_up))]
    pub fn find_method(
        &self,
        class: ClassId,
        name: &'a str,
        signature: SignatureKey,
    ) -> Option<ClassId>
        requires { self.now.sort ≡ Method }
        ensures { option_map class_seen result ≡ option_map (λ m. m.id) (find_method (classes_seen self.now.table) (class_seen class) name.now (Some (signature_seen signature))) }
    {
        let key = MemberKey {
            name,
            signature: Some(signature),
        };
        self.find(class, &key)
    }

    /// The field that a reference means: the first with the name and the type in a class, or else in the nearest of its
    /// superclasses that has one (II.22.25).
    #[tactic(auto, using(crate::proofs::SearchLaws::field_up))]
    pub fn find_field(
        &self,
        alloc: Global,
        class: ClassId,
        name: &'a str,
        of: TypeKey,
    ) -> Option<ClassId>
        requires { self.now.sort ≡ Field }
        ensures { option_map class_seen result ≡ option_map (λ f. f.id) (find_field (classes_seen self.now.table) (class_seen class) name.now (Some (type_seen of))) }
    {
        let signature = SignatureKey {
            has_this: false,
            returns: Some(of),
            parameters: Vec::new(alloc),
        };
        let key = MemberKey {
            name,
            signature: Some(signature),
        };
        self.find(class, &key)
    }
}
