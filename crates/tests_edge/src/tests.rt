//! Real files: those that are there, are too long or absent, and what is no file.

use sr_base::{Store, StoreError};
use sr_edge::DirStore;
use std::test::Fail;

#[test]
fn real_files_are_read_and_refused(rt: HostRuntime) -> Result<(), Fail> {
    let mut store = DirStore::new(&rt);
    let absent = store.read(rt.alloc(), "/no/such/file", 10);
    assert_eq!(rt; absent.err(), Some(StoreError::Absent));
    // This very program, which is longer than 64 bytes and begins as executables do.
    let long = store.read(rt.alloc(), "/proc/self/exe", 64);
    assert_eq!(rt; long.err(), Some(StoreError::TooLong));
    let whole = store.read(rt.alloc(), "/proc/self/exe", 1 << 30)?;
    assert!(rt; whole.starts_with(b"\x7fELF"));
    let folder = store.read(rt.alloc(), "/proc", 64);
    assert_eq!(rt; folder.err(), Some(StoreError::Failed));
    let lost = store.write("/no/such/folder/file", b"bytes");
    assert_eq!(rt; lost, Err(StoreError::Failed));
    Ok(())
}
