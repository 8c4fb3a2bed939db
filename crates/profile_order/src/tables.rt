//! The tables of the profile in their order.

ghost use Rattle.std.specs.Prelude.{◌≡◌};
ghost use Rattle.profile_order.specs.Tables.{number_of, tables_of};

use file_tables::numbers::{
    ASSEMBLY, FIELD, GENERIC_PARAM, GENERIC_PARAM_CONSTRAINT, INTERFACE_IMPL, MEMBER_REF,
    METHOD_DEF, METHOD_IMPL, METHOD_SPEC, STAND_ALONE_SIG, TYPE_DEF, TYPE_SPEC,
};

/// A table of which rows something is asked (ECMA-335 II.22).
#[derive(Clone, Copy, Debug, PartialEq, Eq)]
pub enum ProfileTable {
    TypeDefs,
    InterfaceImpls,
    MethodImpls,
    Assemblies,
    GenericParams,
    MethodSpecs,
    GenericConstraints,
    Fields,
    Methods,
    MemberRefs,
    LocalsSignatures,
    TypeSpecs,
}

impl ProfileTable {
    /// The table's number.
    pub fn number(self) -> u8
        ensures { result ≡ number_of self }
    {
        match self {
            ProfileTable::TypeDefs => TYPE_DEF,
            ProfileTable::InterfaceImpls => INTERFACE_IMPL,
            ProfileTable::MethodImpls => METHOD_IMPL,
            ProfileTable::Assemblies => ASSEMBLY,
            ProfileTable::GenericParams => GENERIC_PARAM,
            ProfileTable::MethodSpecs => METHOD_SPEC,
            ProfileTable::GenericConstraints => GENERIC_PARAM_CONSTRAINT,
            ProfileTable::Fields => FIELD,
            ProfileTable::Methods => METHOD_DEF,
            ProfileTable::MemberRefs => MEMBER_REF,
            ProfileTable::LocalsSignatures => STAND_ALONE_SIG,
            ProfileTable::TypeSpecs => TYPE_SPEC,
        }
    }
}

/// What is looked at in all files before the next.
#[derive(Clone, Copy, Debug, PartialEq, Eq)]
pub enum Phase {
    /// The rules 20 to 26.
    Types,
    /// The rules 27 to 30.
    Members,
}

const TYPE_TABLES: &[ProfileTable] = &[
    ProfileTable::TypeDefs,
    ProfileTable::InterfaceImpls,
    ProfileTable::MethodImpls,
    ProfileTable::Assemblies,
    ProfileTable::GenericParams,
    ProfileTable::MethodSpecs,
    ProfileTable::GenericConstraints,
];

const MEMBER_TABLES: &[ProfileTable] = &[
    ProfileTable::Fields,
    ProfileTable::Methods,
    ProfileTable::MemberRefs,
    ProfileTable::LocalsSignatures,
    ProfileTable::TypeSpecs,
];

impl Phase {
    /// The tables that the phase looks at, in order.
    pub fn tables(self) -> &'static [ProfileTable]
        ensures { result.now ≡ tables_of self }
    {
        match self {
            Phase::Types => TYPE_TABLES,
            Phase::Members => MEMBER_TABLES,
        }
    }
}
