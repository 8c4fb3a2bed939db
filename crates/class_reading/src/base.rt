//! The types of the base library by which kinds are told (ECMA-335 II.13, II.14.3).

ghost use Rattle.std.specs.Prelude.{◌≡◌, ◌&&◌, IfOk, codes, map};
ghost use Rattle.std.specs.List.{position};
ghost use Rattle.std.specs.Option.{option_copied, option_map};
ghost use Rattle.machine.specs.Texts.{same_text};
ghost use Rattle.classes.specs.Queries.{basic_name, elements};
ghost use Rattle.world_rows.specs.Tokens.{text_at};
ghost use Rattle.world_rows.specs.Kinds.{is_system, library_type};
ghost use Rattle.world_rows.specs.World.{rows_alone};
ghost use Rattle.member_keys.specs.Seen.{class_seen};
ghost use Rattle.class_table.specs.Whole.{library_number};
ghost use Rattle.class_reading.specs.Base.{basic_seen, basic_of, types_of};

use cil_rows::{TypeDefRow, read_row};
use cil_tables::Tables;
use file_tables::numbers::TYPE_DEF;
use member_keys::ClassId;
use plain_types::elem::Elem;
use plain_types::fault::NoMemory;
use std::alloc::Global;
use type_names::{TypeNames, text};

/// The elements that have classes (II.23.1.16).
const ELEMENTS: [Elem; 12] = [
    Elem::Bool,
    Elem::Char,
    Elem::I1,
    Elem::U1,
    Elem::I2,
    Elem::U2,
    Elem::I4,
    Elem::U4,
    Elem::I8,
    Elem::U8,
    Elem::String,
    Elem::Object,
];

/// An element with its class, where the base library has it.
#[derive(Clone, Copy)]
pub struct Basic {
    pub elem: Elem,
    pub class: Option<ClassId>,
}

/// The name of an element's class.
fn basic_name(elem: Elem) -> Option<&'static str>
    ensures { option_copied result ≡ basic_name elem }
{
    match elem {
        Elem::Bool => Some("Boolean"),
        Elem::Char => Some("Char"),
        Elem::I1 => Some("SByte"),
        Elem::U1 => Some("Byte"),
        Elem::I2 => Some("Int16"),
        Elem::U2 => Some("UInt16"),
        Elem::I4 => Some("Int32"),
        Elem::U4 => Some("UInt32"),
        Elem::I8 => Some("Int64"),
        Elem::U8 => Some("UInt64"),
        Elem::String => Some("String"),
        Elem::Object => Some("Object"),
        Elem::Void | Elem::Class | Elem::Value => None,
    }
}

/// The row of a type has the namespace System and the name.
#[tactic(auto, using(member_keys::proofs::KeyLaws::same_bytes))]
fn is_system(tables: &Tables<'_>, row: TypeDefRow, name: &str) -> bool
    ensures { result ≡ (same_text (text_at tables.now row.namespace) (codes "System") && same_text (text_at tables.now row.name) name.now) }
{
    text(tables, row.namespace) == "System" && text(tables, row.name) == name
}

/// The row, from 0, of the first type of a file with a name in the namespace System, nested or not.
fn find_system(tables: &Tables<'_>, name: &str) -> Option<u32>
    ensures { result ≡ position (is_system name.now) (types_of tables.now) }
{
    for n in 0..tables.rows(TYPE_DEF) {
        let row: TypeDefRow = read_row(tables, n + 1);
        if is_system(tables, row, name) {
            return Some(n);
        }
    }
    None
}

/// The first type of the base library with a name in the namespace System, nested or not, where the library is the file of
/// a number.
pub fn library_type(names: &TypeNames<'_>, library: Option<u32>, name: &str) -> Option<ClassId>
    requires { library ≡ library_number names.now }
    ensures { option_map class_seen result ≡ library_type (rows_alone names.now) name.now }
{
    let _most = names.files();
    let file = library?;
    let row = find_system(names.tables(file as u16), name)?;
    Some(ClassId { file, row })
}

/// Each element that has a class, with it.
pub fn find_basics(
    alloc: Global,
    names: &TypeNames<'_>,
    library: Option<u32>,
) -> Result<Vec<Basic>, NoMemory>
    requires { library ≡ library_number names.now }
    ensures { IfOk result (λ basics. map basic_seen basics.items ≡ map (basic_of (rows_alone names.now)) elements) }
{
    let mut basics = Vec::new(alloc);
    for elem in &ELEMENTS {
        let class = match basic_name(*elem) {
            Some(name) => library_type(names, library, name),
            None => None,
        };
        basics.push(Basic { elem: *elem, class })?;
    }
    Ok(basics)
}
