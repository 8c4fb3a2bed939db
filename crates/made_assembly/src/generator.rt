//! The generated workload: an assembly of many classes whose methods call one another.

ghost use Rattle.std.specs.Prelude.{◌≡◌, ◌<◌, ◌≤◌, IfOk, OnOk};
ghost use Rattle.cil_layout.specs.Asked.{rows_of, with_row};
ghost use Rattle.cil_layout.specs.Layout.{built};
ghost use Rattle.made_assembly.specs.Made.{made_of, references, classes, class_row, numbered_row, method_row, main_body, body_of, method_token};

use cil_build::build::{Build, BuildRefusal};
use cil_build::refs::RefRow;
use cil_bytes::write::{push_bytes, push_four};
use cil_layout::rows::{METHOD_DEF, TYPE_DEF};
use plain_types::fault::NoMemory;
use std::alloc::Global;

/// The version of the base library.
pub const LIBRARY_VERSION: [u16; 4] = [4, 3, 1, 0];

/// The flags of a static class: public, abstract and sealed (ECMA-335 II.23.1.15).
pub const STATIC_CLASS: u32 = 0x0000_0181;

/// The flags of a static method: public, static and hidden by signature (II.23.1.10).
pub const STATIC_METHOD: u16 = 0x0096;

/// The token of the reference to Object.
pub const OBJECT: u32 = 0x0100_0001;

/// The signature `int32 (int32)` (II.23.2.1).
pub const F_SIGNATURE: [u8; 4] = [0x00, 0x01, 0x08, 0x08];

/// The signature `int32 ()`.
pub const MAIN_SIGNATURE: [u8; 3] = [0x00, 0x00, 0x08];

/// The token of the method of class k.
fn token_of_method(k: u32) -> u32
    requires { k ≤ 2000 }
    ensures { result ≡ method_token k }
{
    0x0600_0001 + k
}

/// The body of the method of class k, behind a tiny header (II.25.4.2).
fn body_for(alloc: Global, k: u32) -> Result<Vec<u8>, NoMemory>
    requires { k ≤ 2000 }
    ensures { IfOk result (λ bytes. bytes.items ≡ body_of k) }
{
    if k == 0 {
        return Ok(Vec::from_slice(alloc, &[0x0A, 0x02, 0x2A])?);
    }
    let below = token_of_method(k - 1);
    let mut out = Vec::from_slice(alloc, &[0x86, 0x02, 0x17, 0x5F, 0x2D, 0x0D, 0x02, 0x20])?;
    push_four(&mut out, k)?;
    push_bytes(&mut out, &[0x58, 0x28])?;
    push_four(&mut out, below)?;
    push_bytes(&mut out, &[0x2A, 0x02, 0x19, 0x5A, 0x20])?;
    push_four(&mut out, k)?;
    push_bytes(&mut out, &[0x58, 0x28])?;
    push_four(&mut out, below)?;
    push_bytes(&mut out, &[0x2A])?;
    Ok(out)
}

/// The body of Main of so many classes: 1, a call of the last class's method, and a return.
fn body_for_main(alloc: Global, n: u32) -> Result<Vec<u8>, NoMemory>
    requires low { 1 ≤ n }
    requires high { n ≤ 2000 }
    ensures { IfOk result (λ bytes. bytes.items ≡ main_body n) }
{
    let mut out = Vec::from_slice(alloc, &[0x1E, 0x17, 0x28])?;
    push_four(&mut out, token_of_method(n - 1))?;
    push_bytes(&mut out, &[0x2A])?;
    Ok(out)
}

/// The assembly with a reference to Object.
#[tactic(auto, unfolding(cil_layout::specs::Asked::rows_of, crate::specs::Made::references))]
fn start(alloc: Global) -> Result<Build, NoMemory>
    ensures { IfOk result (λ build. build ≡ references) }
{
    let mut build = Build::new(alloc, "Made", [1, 0, 0, 0])?;
    let library = RefRow::Assembly {
        name: "mscorlib",
        version: LIBRARY_VERSION,
    };
    let scope = build.add_ref(alloc, &library)?;
    let object = RefRow::TypeOf {
        scope,
        namespace: "System",
        name: "Object",
    };
    let _object = build.add_ref(alloc, &object)?;
    Ok(build)
}

/// Adds a static class.
fn add_class(build: &mut Build, alloc: Global, name: &str) -> Result<(), NoMemory>
    requires { rows_of build.old TYPE_DEF < 65534 }
    ensures { OnOk result (build.new ≡ with_row build.old (class_row name.now)) }
{
    let _class = build.add_type(alloc, STATIC_CLASS, "Made", name, OBJECT)?;
    Ok(())
}

/// Adds class k with its method.
fn add_numbered(build: &mut Build, alloc: Global, k: u32) -> Result<(), NoMemory>
    requires number { k ≤ 2000 }
    requires types { rows_of build.old TYPE_DEF < 65534 }
    requires methods { rows_of build.old METHOD_DEF < 65534 }
    ensures { OnOk result (build.new ≡ with_row (with_row build.old (numbered_row k)) (method_row k)) }
{
    let name = format!(in alloc; "C{k}")?;
    add_class(build, alloc, name.as_str())?;
    let body = body_for(alloc, k)?;
    let _method = build.add_method(alloc, 0, STATIC_METHOD, "F", &F_SIGNATURE, body.as_slice())?;
    Ok(())
}

/// The classes C0 to C(n-1).
fn with_classes(alloc: Global, n: u32) -> Result<Build, NoMemory>
    requires { n ≤ 2000 }
    ensures { IfOk result (λ build. build ≡ classes n) }
{
    let mut build = start(alloc)?;
    for k in 0..n {
        add_numbered(&mut build, alloc, k)?;
    }
    Ok(build)
}

/// All that is asked for: the classes, and Main in the class Program.
fn with_main(alloc: Global, n: u32) -> Result<Build, NoMemory>
    requires low { 1 ≤ n }
    requires high { n ≤ 2000 }
    ensures { IfOk result (λ build. build ≡ made_of n) }
{
    let mut build = with_classes(alloc, n)?;
    add_class(&mut build, alloc, "Program")?;
    let body = body_for_main(alloc, n)?;
    let main = build.add_method(
        alloc,
        0,
        STATIC_METHOD,
        "Main",
        &MAIN_SIGNATURE,
        body.as_slice(),
    )?;
    build.set_entry(main);
    Ok(build)
}

/// The assembly `Made` 1.0.0.0 with the static classes `Made.C0` to `Made.C(n-1)` and `Made.Program`. `C0.F` returns its
/// argument; `Ck.F(x)` returns `C(k-1).F(x + k)` where `x & 1` is 0, else `C(k-1).F(x * 3 + k)`; Main returns `C(n-1).F(1)`.
pub fn made(alloc: Global, n: u32) -> Result<Vec<u8>, NoMemory>
    requires low { 1 ≤ n }
    requires high { n ≤ 2000 }
    ensures { IfOk result (λ file. file.items ≡ built (made_of n)) }
{
    let build = with_main(alloc, n)?;
    match build.finish(alloc) {
        Ok(file) => Ok(file),
        Err(BuildRefusal::NoMemory) => Err(NoMemory),
        Err(BuildRefusal::Full) => unreachable!(),
    }
}
