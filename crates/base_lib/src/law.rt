//! The laws of the two files.

ghost use Rattle.std.specs.Prelude.{◌≡◌, ◌++◌, IsTrue, Ok, []};
ghost use Rattle.base_tables.specs.Tables.{mscorlib_items, native_items};
ghost use Rattle.cil_layout.specs.Askable.{IsAskable};
ghost use Rattle.cil_layout.specs.Layout.{built};
ghost use Rattle.file_tables.specs.File.{file_of};
ghost use Rattle.layout_laws.specs.Parts.{parts_of};
ghost use Rattle.layout_laws.specs.ReadBack.{IsReadBack};
ghost use Rattle.base_lib.specs.Files.{library_of};
ghost use Rattle.base_lib.specs.Natives.{calls_in, native_calls, has_each_number, are_named};

use base_tables::library::{MSCORLIB_NAME, NATIVE_NAME};

/// What both files are made of may be asked for: names are UTF-8 without the zero character, numbers fit their columns, each
/// token names a row that is there of a table that its column takes (ECMA-335 II.24.2.6), and there is room for everything.
pub fn base_files_are_askable()
    ensures mscorlib { IsAskable (library_of MSCORLIB_NAME.now mscorlib_items) }
    ensures native { IsAskable (library_of NATIVE_NAME.now native_items) }
{}

/// Both files break none of rules 1 to 13, and what is read of them is what the tables ask for.
pub fn base_files_are_read()
    ensures mscorlib { file_of (built (library_of MSCORLIB_NAME.now mscorlib_items)) ≡ Ok (parts_of (library_of MSCORLIB_NAME.now mscorlib_items)) }
    ensures mscorlib_says { IsReadBack (parts_of (library_of MSCORLIB_NAME.now mscorlib_items)) (library_of MSCORLIB_NAME.now mscorlib_items) }
    ensures native { file_of (built (library_of NATIVE_NAME.now native_items)) ≡ Ok (parts_of (library_of NATIVE_NAME.now native_items)) }
    ensures native_says { IsReadBack (parts_of (library_of NATIVE_NAME.now native_items)) (library_of NATIVE_NAME.now native_items) }
{}

/// The internal calls (II.23.1.11) of both files are the natives of the tables: each of them, in order, with its name and
/// signature, and no other method. Each number from 1 to 17 is that of one native, and `native` of it is the name of its type,
/// a full stop and its own.
pub fn natives_are_internal_calls()
    ensures mscorlib { calls_in (library_of MSCORLIB_NAME.now mscorlib_items).rows ≡ native_calls mscorlib_items }
    ensures native { calls_in (library_of NATIVE_NAME.now native_items).rows ≡ native_calls native_items }
    ensures numbered { IsTrue (has_each_number (mscorlib_items ++ native_items)) }
    ensures named { IsTrue (are_named [] (mscorlib_items ++ native_items)) }
{}
