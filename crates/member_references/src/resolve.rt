//! Tokens of fields and methods.

ghost use Rattle.std.specs.Prelude.{◌≡◌, ◌<◌, length};
ghost use Rattle.std.specs.Option.{option_map};
ghost use Rattle.std.specs.Result.{result_ok};
ghost use Rattle.machine.specs.Throw.{on_some};
ghost use Rattle.assemblies.specs.Binding.{id_at};
ghost use Rattle.member_keys.specs.Seen.{class_seen};
ghost use Rattle.class_table.specs.Seen.{field_owner, method_owner};
ghost use Rattle.class_table.specs.Whole.{IsTable};
ghost use Rattle.member_references.specs.Meant.{field_in, method_in, reference_at, AreReferences};
ghost use Rattle.member_references.specs.Resolved.{field_of, method_of, field_id, method_id, field_checked, method_checked, field_resolved, method_resolved};

use crate::reference::{Reference, References};
use class_table::ClassTable;
use ecma_types::id::{FieldId, MethodId};
use file_tables::numbers::{FIELD, MEMBER_REF, METHOD_DEF};
use member_keys::ClassId;
use type_names::{Token, TypeNames, Unresolved, from_zero, split_token};

/// A field of a file, by its row from 0, where a type has it.
fn own_field(table: &ClassTable<'_>, file: u16, row: u32) -> Option<ClassId>
    ensures { option_map class_seen result ≡ option_map (λ owner. id_at file row) (field_owner table.now (id_at file row)) }
{
    let rows = table.files.get(file as usize)?;
    let _owner = rows.fields.get(row as usize)?.owner?;
    Some(ClassId {
        file: u32::from(file),
        row,
    })
}

/// A method of a file, by its row from 0, where a type has it.
fn own_method(table: &ClassTable<'_>, file: u16, row: u32) -> Option<ClassId>
    ensures { option_map class_seen result ≡ option_map (λ owner. id_at file row) (method_owner table.now (id_at file row)) }
{
    let rows = table.files.get(file as usize)?;
    let _owner = rows.methods.get(row as usize)?.owner?;
    Some(ClassId {
        file: u32::from(file),
        row,
    })
}

/// The public id of a field, where the world has it.
fn field_id(names: &TypeNames<'_>, field: ClassId) -> Option<FieldId>
    ensures { result ≡ field_checked names.now (class_seen field) }
{
    if field.file >= u32::from(names.files()) {
        return None;
    }
    let file = field.file as u16;
    if field.row >= names.tables(file).rows(FIELD) {
        return None;
    }
    Some(FieldId {
        file,
        row: field.row + 1,
    })
}

/// The public id of a method, where the world has it.
fn method_id(names: &TypeNames<'_>, method: ClassId) -> Option<MethodId>
    ensures { result ≡ method_checked names.now (class_seen method) }
{
    if method.file >= u32::from(names.files()) {
        return None;
    }
    let file = method.file as u16;
    if method.row >= names.tables(file).rows(METHOD_DEF) {
        return None;
    }
    Some(MethodId {
        file,
        row: method.row + 1,
    })
}

impl Reference {
    /// What it means as one of a field.
    fn field(self) -> Option<ClassId>
        ensures { option_map class_seen result ≡ field_in self }
    {
        match self {
            Reference::Field(field) => field,
            Reference::Method(_) => None,
        }
    }

    /// What it means as one of a method.
    fn method(self) -> Option<ClassId>
        ensures { option_map class_seen result ≡ method_in self }
    {
        match self {
            Reference::Field(_) => None,
            Reference::Method(method) => method,
        }
    }
}

impl References {
    /// What a row of a file's MemberRef table means, from 1; `None` where there is no such row.
    fn find(&self, file: u16, row: u32) -> Option<Reference>
        ensures { result ≡ reference_at self.now file row }
    {
        if row == 0 {
            return None;
        }
        let references = self.files.get(file as usize)?;
        references.get((row - 1) as usize).copied()
    }

    /// The field that a row of a table of a file names, if any.
    fn find_field(
        &self,
        names: &TypeNames<'_>,
        table: &ClassTable<'_>,
        file: u16,
        token: Token,
    ) -> Option<ClassId>
        requires table { IsTable names.now table.now }
        requires references { AreReferences names.now self.now }
        requires file { file < length names.now }
        ensures { option_map class_seen result ≡ field_of names.now file token.table token.row }
    {
        let tables = names.tables(file);
        if token.table == FIELD {
            own_field(table, file, from_zero(tables.rows(FIELD), token.row))
        } else if token.table == MEMBER_REF {
            self.find(file, token.row)?.field()
        } else {
            None
        }
    }

    /// The method that a row of a table of a file names, if any.
    fn find_method(
        &self,
        names: &TypeNames<'_>,
        table: &ClassTable<'_>,
        file: u16,
        token: Token,
    ) -> Option<ClassId>
        requires table { IsTable names.now table.now }
        requires references { AreReferences names.now self.now }
        requires file { file < length names.now }
        ensures { option_map class_seen result ≡ method_of names.now file token.table token.row }
    {
        let tables = names.tables(file);
        if token.table == METHOD_DEF {
            own_method(table, file, from_zero(tables.rows(METHOD_DEF), token.row))
        } else if token.table == MEMBER_REF {
            self.find(file, token.row)?.method()
        } else {
            None
        }
    }

    /// The field that a Field or MemberRef token of a file names (ECMA-335 II.22.15, II.22.25): one of the file itself that a type
    /// has, or what the reference means. [`Unresolved`] exactly where there is none, where the reference is one of a method, and for
    /// other tokens. `names` and `table` are those of which the references were read.
    pub fn resolve_field(
        &self,
        names: &TypeNames<'_>,
        table: &ClassTable<'_>,
        file: u16,
        token: u32,
    ) -> Result<FieldId, Unresolved>
        requires table { IsTable names.now table.now }
        requires references { AreReferences names.now self.now }
        requires file { file < length names.now }
        ensures { result_ok result ≡ option_map field_id (field_resolved names.now file token) }
    {
        match self.find_field(names, table, file, split_token(token)) {
            Some(field) => field_id(names, field).ok_or(Unresolved),
            None => Err(Unresolved),
        }
    }

    /// The method that a MethodDef or MemberRef token of a file names (ECMA-335 II.22.26, II.22.25): one of the file itself that a
    /// type has, or what the reference means. [`Unresolved`] exactly where there is none, where the reference is one of a field, and
    /// for other tokens. `names` and `table` are those of which the references were read.
    pub fn resolve_method(
        &self,
        names: &TypeNames<'_>,
        table: &ClassTable<'_>,
        file: u16,
        token: u32,
    ) -> Result<MethodId, Unresolved>
        requires table { IsTable names.now table.now }
        requires references { AreReferences names.now self.now }
        requires file { file < length names.now }
        ensures { result_ok result ≡ option_map method_id (method_resolved names.now file token) }
    {
        match self.find_method(names, table, file, split_token(token)) {
            Some(method) => method_id(names, method).ok_or(Unresolved),
            None => Err(Unresolved),
        }
    }
}
