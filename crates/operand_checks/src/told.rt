//! Cases in lines are as they are wanted.

use staged_cases::{Case, methods_told, methods_told_behind};
use std::process::Abort;
use std::test::Fail;

fn are_as_wanted(rt: &impl Abort, cases: &[Case<'_>]) {
    for case in cases {
        assert_eq!(rt; case.told, case.wanted, "{}", case.name);
    }
}

/// Cases of methods, as `staged_cases` reads them.
pub fn methods_are_told(rt: &(impl Abort + AllocGlobal), lines: &str) -> Result<(), Fail> {
    let cases = methods_told(rt.alloc(), lines)?;
    are_as_wanted(rt, cases.as_slice());
    Ok(())
}

/// The same behind a base library whose first file is changed.
pub fn methods_are_told_behind(
    rt: &(impl Abort + AllocGlobal),
    changes: &str,
    lines: &str,
) -> Result<(), Fail> {
    let cases = methods_told_behind(rt.alloc(), changes, lines)?;
    are_as_wanted(rt, cases.as_slice());
    Ok(())
}
