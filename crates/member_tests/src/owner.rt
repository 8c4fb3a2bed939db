//! A member among those of the type that lists it.

ghost use Rattle.std.specs.Prelude.{◌≡◌};
ghost use Rattle.std.specs.Option.{option_map};
ghost use Rattle.assemblies.specs.Binding.{id_at};
ghost use Rattle.member_keys.specs.Seen.{class_seen};
ghost use Rattle.member_search.specs.Shown.{key_shown, own_member};
ghost use Rattle.verdict_rules.specs.Members.{of_member};
ghost use Rattle.member_tests.specs.Rows.{is_not_before};

use member_keys::{ClassId, MemberKey};
use member_search::MemberIndex;

/// The type of a file by its row.
pub fn class_in(file: u16, row: u32) -> ClassId
    ensures { class_seen result ≡ id_at file row }
{
    ClassId {
        file: u32::from(file),
        row,
    }
}

/// A member that may be found isn't before a row of its file.
fn is_not_before(n: u32, member: Option<ClassId>) -> bool
    ensures { result ≡ is_not_before n (option_map class_seen member) }
{
    match member {
        Some(member) => n <= member.row,
        None => true,
    }
}

/// No member with the name and the signature of a key is before the row in the type that lists it; so it is where no type does.
pub fn is_first<'a>(
    index: &MemberIndex<'_, 'a>,
    file: u16,
    n: u32,
    owner: Option<u32>,
    key: &MemberKey<'a>,
) -> bool
    ensures { result ≡ of_member (option_map (id_at file) owner) (λ c. is_not_before n (own_member index.now.sort index.now.table (key_shown key.now) c)) }
{
    match owner {
        Some(row) => is_not_before(n, index.find_own(class_in(file, row), key)),
        None => true,
    }
}
