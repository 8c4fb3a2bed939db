//! The stack machine of ECMA-335 over a record of what a program answers: states, steps, runs, cells and traces.
//! It has no code: all of it is definitions (`specs/`), of which `machine_rename` and `machine_typed` prove the laws.
#![tactic(auto)]
