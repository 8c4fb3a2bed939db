//! That the bytes of what is asked are read as what was asked: the laws that join the builder of assemblies and the
//! reader's definitions.
#![tactic(auto)]

pub mod law;
