//! A store in memory.

use mf_types::files::NamedFile;
use mf_types::store::{Store, StoreErr};
use outside_in_memory::MemoryStore;
use plain_types::list::{Items, Text};
use std::alloc::Global;
use std::test::Fail;

/// The file `a`, which holds `one`.
fn files(alloc: Global) -> Result<Vec<NamedFile>, Fail> {
    let name = Text::copied(alloc, "a").map_err(|_| "memory")?;
    let bytes = Items::from_vec(Vec::from_slice(alloc, b"one")?);
    let mut files = Vec::new(alloc);
    files.push(NamedFile { name, bytes })?;
    Ok(files)
}

/// The calls of a store, in turn: the second one is to fail.
#[test]
fn a_due_put_leaves_the_file(rt: HostRuntime) -> Result<(), Fail> {
    let fails = vec![in rt.alloc(); 2]?;
    let mut store = MemoryStore::new(Vec::new(rt.alloc()), fails);
    store.put(rt.alloc(), "a", b"one")?;
    assert_eq!(rt; store.put(rt.alloc(), "a", b"two"), Err(StoreErr::Failed));
    let bytes = store.read(rt.alloc(), "a")?;
    assert_eq!(rt; bytes.as_slice(), b"one".as_slice());
    store.put(rt.alloc(), "a", b"three")?;
    assert_eq!(rt; store.bytes("a").ok_or("a is there")?, b"three".as_slice());
    assert!(rt; store.bytes("b").is_none());
    Ok(())
}

/// Only the call of the named number fails, but for a read of a file that isn't there.
#[test]
fn only_the_due_read_fails(rt: HostRuntime) -> Result<(), Fail> {
    for due in [1, 2, 3] {
        let mut store = MemoryStore::new(files(rt.alloc())?, vec![in rt.alloc(); due]?);
        for call in [1, 2, 3] {
            assert_eq!(rt; store.read(rt.alloc(), "a").is_ok(), call != due);
        }
        assert!(rt; store.read(rt.alloc(), "b").is_err());
    }
    Ok(())
}
