//! Rows with their columns by name (ECMA-335 II.22), for the tables whose rows a checker looks at. Names are offsets of
//! `#Strings`, signatures and keys offsets of `#Blob`.

ghost use Rattle.std.specs.Prelude.{◌≡◌, ℕ, slice_index};
ghost use Rattle.file_tables.specs.declared.numbers.TheConstants.{TYPE_REF, TYPE_DEF, FIELD, METHOD_DEF, INTERFACE_IMPL, MEMBER_REF, CLASS_LAYOUT, STAND_ALONE_SIG, TYPE_SPEC, FIELD_RVA, ASSEMBLY, ASSEMBLY_REF, NESTED_CLASS};

use cil_tables::Row;
use file_tables::numbers;

/// A row of one table, with its columns by name.
pub trait TableRow {
    /// The table's number.
    const TABLE: u8;

    ghost TABLE: { ℕ };

    // the row that columns make, each by its place from 0
    ghost of_columns: { (ℕ → ℕ) → Self };

    /// The row with these columns.
    fn from_row(row: &Row) -> Self
        ensures { result ≡ of_columns (slice_index row.now.columns) };
}

/// A type of another assembly or module, or one nested in such a type (II.22.38).
#[derive(Clone, Copy)]
pub struct TypeRefRow {
    /// A ResolutionScope: where the type is.
    pub scope: u32,
    pub name: u32,
    pub namespace: u32,
}

impl TableRow for TypeRefRow {
    const TABLE: u8 = numbers::TYPE_REF;

    ghost TABLE = { TYPE_REF };

    ghost of_columns = { λ column. record { scope = column 0; name = column 1; namespace = column 2 } };

    fn from_row(row: &Row) -> TypeRefRow {
        let [scope, name, namespace, ..] = row.columns;
        TypeRefRow {
            scope,
            name,
            namespace,
        }
    }
}

/// A type of this assembly (II.22.37).
#[derive(Clone, Copy)]
pub struct TypeDefRow {
    pub flags: u32,
    pub name: u32,
    pub namespace: u32,
    /// A TypeDefOrRef, or row 0 where it extends nothing.
    pub extends: u32,
    /// The row of its first field; its fields end where those of the next type begin.
    pub first_field: u32,
    /// The row of its first method; its methods end where those of the next type begin.
    pub first_method: u32,
}

impl TableRow for TypeDefRow {
    const TABLE: u8 = numbers::TYPE_DEF;

    ghost TABLE = { TYPE_DEF };

    ghost of_columns = { λ column. record { flags = column 0; name = column 1; namespace = column 2; extends = column 3; first_field = column 4; first_method = column 5 } };

    fn from_row(row: &Row) -> TypeDefRow {
        let [
            flags,
            name,
            namespace,
            extends,
            first_field,
            first_method,
            ..
        ] = row.columns;
        TypeDefRow {
            flags,
            name,
            namespace,
            extends,
            first_field,
            first_method,
        }
    }
}

/// A field (II.22.15).
#[derive(Clone, Copy)]
pub struct FieldRow {
    pub flags: u32,
    pub name: u32,
    pub signature: u32,
}

impl TableRow for FieldRow {
    const TABLE: u8 = numbers::FIELD;

    ghost TABLE = { FIELD };

    ghost of_columns = { λ column. record { flags = column 0; name = column 1; signature = column 2 } };

    fn from_row(row: &Row) -> FieldRow {
        let [flags, name, signature, ..] = row.columns;
        FieldRow {
            flags,
            name,
            signature,
        }
    }
}

/// A method (II.22.26).
#[derive(Clone, Copy)]
pub struct MethodDefRow {
    /// The RVA of its body, or 0 where it has none.
    pub rva: u32,
    pub impl_flags: u32,
    pub flags: u32,
    pub name: u32,
    pub signature: u32,
    /// The row of its first parameter.
    pub first_param: u32,
}

impl TableRow for MethodDefRow {
    const TABLE: u8 = numbers::METHOD_DEF;

    ghost TABLE = { METHOD_DEF };

    ghost of_columns = { λ column. record { rva = column 0; impl_flags = column 1; flags = column 2; name = column 3; signature = column 4; first_param = column 5 } };

    fn from_row(row: &Row) -> MethodDefRow {
        let [rva, impl_flags, flags, name, signature, first_param, ..] = row.columns;
        MethodDefRow {
            rva,
            impl_flags,
            flags,
            name,
            signature,
            first_param,
        }
    }
}

/// A type that implements an interface (II.22.23).
#[derive(Clone, Copy)]
pub struct InterfaceImplRow {
    /// The row of the type.
    pub class: u32,
    /// A TypeDefOrRef.
    pub interface: u32,
}

impl TableRow for InterfaceImplRow {
    const TABLE: u8 = numbers::INTERFACE_IMPL;

    ghost TABLE = { INTERFACE_IMPL };

    ghost of_columns = { λ column. record { class = column 0; interface = column 1 } };

    fn from_row(row: &Row) -> InterfaceImplRow {
        let [class, interface, ..] = row.columns;
        InterfaceImplRow { class, interface }
    }
}

/// A field or method of another type (II.22.25).
#[derive(Clone, Copy)]
pub struct MemberRefRow {
    /// A MemberRefParent.
    pub class: u32,
    pub name: u32,
    pub signature: u32,
}

impl TableRow for MemberRefRow {
    const TABLE: u8 = numbers::MEMBER_REF;

    ghost TABLE = { MEMBER_REF };

    ghost of_columns = { λ column. record { class = column 0; name = column 1; signature = column 2 } };

    fn from_row(row: &Row) -> MemberRefRow {
        let [class, name, signature, ..] = row.columns;
        MemberRefRow {
            class,
            name,
            signature,
        }
    }
}

/// The size of a type (II.22.8).
#[derive(Clone, Copy)]
pub struct ClassLayoutRow {
    pub packing_size: u32,
    pub class_size: u32,
    /// The row of the type.
    pub parent: u32,
}

impl TableRow for ClassLayoutRow {
    const TABLE: u8 = numbers::CLASS_LAYOUT;

    ghost TABLE = { CLASS_LAYOUT };

    ghost of_columns = { λ column. record { packing_size = column 0; class_size = column 1; parent = column 2 } };

    fn from_row(row: &Row) -> ClassLayoutRow {
        let [packing_size, class_size, parent, ..] = row.columns;
        ClassLayoutRow {
            packing_size,
            class_size,
            parent,
        }
    }
}

/// A signature of locals or of a call (II.22.36).
#[derive(Clone, Copy)]
pub struct StandAloneSigRow {
    pub signature: u32,
}

impl TableRow for StandAloneSigRow {
    const TABLE: u8 = numbers::STAND_ALONE_SIG;

    ghost TABLE = { STAND_ALONE_SIG };

    ghost of_columns = { λ column. record { signature = column 0 } };

    fn from_row(row: &Row) -> StandAloneSigRow {
        let [signature, ..] = row.columns;
        StandAloneSigRow { signature }
    }
}

/// A type that a signature spells (II.22.39).
#[derive(Clone, Copy)]
pub struct TypeSpecRow {
    pub signature: u32,
}

impl TableRow for TypeSpecRow {
    const TABLE: u8 = numbers::TYPE_SPEC;

    ghost TABLE = { TYPE_SPEC };

    ghost of_columns = { λ column. record { signature = column 0 } };

    fn from_row(row: &Row) -> TypeSpecRow {
        let [signature, ..] = row.columns;
        TypeSpecRow { signature }
    }
}

/// The initial bytes of a field (II.22.18).
#[derive(Clone, Copy)]
pub struct FieldRvaRow {
    /// The RVA of the bytes.
    pub rva: u32,
    /// The row of the field.
    pub field: u32,
}

impl TableRow for FieldRvaRow {
    const TABLE: u8 = numbers::FIELD_RVA;

    ghost TABLE = { FIELD_RVA };

    ghost of_columns = { λ column. record { rva = column 0; field = column 1 } };

    fn from_row(row: &Row) -> FieldRvaRow {
        let [rva, field, ..] = row.columns;
        FieldRvaRow { rva, field }
    }
}

/// The assembly itself (II.22.2).
#[derive(Clone, Copy)]
pub struct AssemblyRow {
    pub hash_algorithm: u32,
    pub major_version: u32,
    pub minor_version: u32,
    pub build_number: u32,
    pub revision_number: u32,
    pub flags: u32,
    pub public_key: u32,
    pub name: u32,
    pub culture: u32,
}

impl TableRow for AssemblyRow {
    const TABLE: u8 = numbers::ASSEMBLY;

    ghost TABLE = { ASSEMBLY };

    ghost of_columns = { λ column. record { hash_algorithm = column 0; major_version = column 1; minor_version = column 2; build_number = column 3; revision_number = column 4; flags = column 5; public_key = column 6; name = column 7; culture = column 8 } };

    fn from_row(row: &Row) -> AssemblyRow {
        let [
            hash_algorithm,
            major_version,
            minor_version,
            build_number,
            revision_number,
            flags,
            public_key,
            name,
            culture,
        ] = row.columns;
        AssemblyRow {
            hash_algorithm,
            major_version,
            minor_version,
            build_number,
            revision_number,
            flags,
            public_key,
            name,
            culture,
        }
    }
}

/// Another assembly (II.22.5).
#[derive(Clone, Copy)]
pub struct AssemblyRefRow {
    pub major_version: u32,
    pub minor_version: u32,
    pub build_number: u32,
    pub revision_number: u32,
    pub flags: u32,
    pub public_key_or_token: u32,
    pub name: u32,
    pub culture: u32,
    pub hash_value: u32,
}

impl TableRow for AssemblyRefRow {
    const TABLE: u8 = numbers::ASSEMBLY_REF;

    ghost TABLE = { ASSEMBLY_REF };

    ghost of_columns = { λ column. record { major_version = column 0; minor_version = column 1; build_number = column 2; revision_number = column 3; flags = column 4; public_key_or_token = column 5; name = column 6; culture = column 7; hash_value = column 8 } };

    fn from_row(row: &Row) -> AssemblyRefRow {
        let [
            major_version,
            minor_version,
            build_number,
            revision_number,
            flags,
            public_key_or_token,
            name,
            culture,
            hash_value,
        ] = row.columns;
        AssemblyRefRow {
            major_version,
            minor_version,
            build_number,
            revision_number,
            flags,
            public_key_or_token,
            name,
            culture,
            hash_value,
        }
    }
}

/// A type that is nested in another (II.22.32).
#[derive(Clone, Copy)]
pub struct NestedClassRow {
    /// The row of the nested type.
    pub nested: u32,
    /// The row of the type around it.
    pub enclosing: u32,
}

impl TableRow for NestedClassRow {
    const TABLE: u8 = numbers::NESTED_CLASS;

    ghost TABLE = { NESTED_CLASS };

    ghost of_columns = { λ column. record { nested = column 0; enclosing = column 1 } };

    fn from_row(row: &Row) -> NestedClassRow {
        let [nested, enclosing, ..] = row.columns;
        NestedClassRow { nested, enclosing }
    }
}
