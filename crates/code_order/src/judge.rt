//! What the code of a world's methods is judged by.

use member_keys::ClassId;
use profile_subject::Subject;
use world_lattice::WorldLattice;

/// A world, the order of its types, and System.Exception.
#[derive(Drop)]
pub struct CodeJudge<'j, 'w, 'a, 't, 'b> {
    pub subject: &'j Subject<'w, 'a>,
    pub lattice: &'j WorldLattice<'t, 'b>,
    pub exception: ClassId,
}
