//! References to members.

use member_keys::ClassId;

/// What a row of MemberRef means (ECMA-335 II.22.25), if it means anything: it is one of a field exactly where its signature begins
/// as a field's.
#[derive(Clone, Copy, Debug, PartialEq, Eq)]
pub enum Reference {
    Field(Option<ClassId>),
    Method(Option<ClassId>),
}

/// For each file of a world what the rows of its MemberRef table mean, as [`read_references`](crate::read_references) gives them.
#[derive(Debug, Drop)]
pub struct References {
    pub files: Vec<Vec<Reference>>,
}
