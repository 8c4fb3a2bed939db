//! One type (ECMA-335 II.22.37).

ghost use Rattle.std.specs.Prelude.{◌≡◌, ◌+◌, ◌<◌, Some, length, map, slice_get, suc};
ghost use Rattle.std.specs.Option.{option_map};
ghost use Rattle.file_tables.specs.Metadata.{row_count, row_of};
ghost use Rattle.world_rows.specs.Tokens.{type_defs, interface_impls};
ghost use Rattle.file_tables.specs.Metadata.{rows_of};
ghost use Rattle.member_keys.specs.Seen.{class_seen};
ghost use Rattle.type_names.specs.Names.{type_seen, type_name_at};
ghost use Rattle.class_table.specs.Outlines.{outline_seen};
ghost use Rattle.class_reading.specs.Interfaces.{found_by};
ghost use Rattle.class_reading.specs.Types.{superclass_at, row_outline};

use crate::fields::read_number;
use crate::kinds::Kinds;
use crate::lists::read_ends;
use cil_rows::{TypeDefRow, read_row};
use cil_tables::Tables;
use class_table::ClassRow;
use file_tables::bytes::has_bit;
use file_tables::numbers::TYPE_DEF;
use file_tables::schema::Coded;
use member_keys::ClassId;
use type_names::{NameKey, TypeNames, split};

/// The class that a type extends, by its column; `None` where it extends none, or none that is found.
fn read_superclass(
    names: &TypeNames<'_>,
    file: u16,
    tables: &Tables<'_>,
    extends: u32,
) -> Option<ClassId>
    requires file { file < length names.now }
    requires tables { option_map (λ p. p.metadata) (slice_get names.now file) ≡ Some tables.now }
    ensures { option_map class_seen result ≡ superclass_at names.now file tables.now extends }
{
    if split(Coded::TypeDefOrRef, extends).row == 0 {
        return None;
    }
    names.find_class(file, Coded::TypeDefOrRef, extends)
}

/// A type by its row from 0, of which the names and the interfaces are known.
pub fn read_class<'a>(
    kinds: &Kinds<'_, 'a>,
    file: u16,
    tables: &Tables<'a>,
    n: u32,
    key: NameKey<'a>,
    interfaces: Vec<ClassId>,
) -> ClassRow<'a>
    requires file { file < length kinds.now }
    requires tables { option_map (λ p. p.metadata) (slice_get kinds.now file) ≡ Some tables.now }
    requires row { n < row_count tables.now type_defs }
    requires names { type_seen key ≡ type_name_at tables.now n (row_of tables.now type_defs (suc n)) }
    requires interfaces { map class_seen interfaces.items ≡ found_by kinds.now file tables.now (rows_of tables.now interface_impls) n }
    ensures { outline_seen result ≡ row_outline kinds.now file tables.now n (row_of tables.now type_defs (suc n)) }
{
    let _few = tables.rows(TYPE_DEF);
    let row: TypeDefRow = read_row(tables, n + 1);
    let ends = read_ends(tables, n);
    let class = ClassId {
        file: u32::from(file),
        row: n,
    };
    let superclass = read_superclass(kinds.names(), file, tables, row.extends);
    let first_field = row.first_field.saturating_sub(1);
    let first_method = row.first_method.saturating_sub(1);
    let field_count = ends.fields.saturating_sub(first_field);
    let number = read_number(tables, first_field, field_count);
    let flags = u64::from(row.flags);
    ClassRow {
        namespace: key.namespace,
        name: key.name,
        enclosing: key.enclosing,
        superclass,
        interfaces,
        kind: kinds.kind(class, superclass, number),
        is_interface: has_bit(flags, 5),
        is_abstract: has_bit(flags, 7),
        is_lazy: has_bit(flags, 20),
        first_field,
        field_count,
        first_method,
        method_count: ends.methods.saturating_sub(first_method),
    }
}
