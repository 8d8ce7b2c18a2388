//! The shelf of real files, and standard output.

use crate::file_shelf::FileShelf;
use crate::file_sink::FileSink;
use hv_bytes::{Shelf, Sink};

// Before the first open nothing is read. A missing file is a fault, and what was open stays open.
#[test]
fn shelf_of_files(rt: HostRuntime) {
    let mut shelf = FileShelf::new(&rt);
    let mut bytes = [1, 1, 1];
    assert_eq!(rt; shelf.read(&mut bytes), Ok(0));
    assert_eq!(rt; bytes, [1, 1, 1]);
    assert_eq!(rt; shelf.open("/dev/zero"), Ok(()));
    assert!(rt; shelf.open("/dev/null/no file").is_err());
    assert_eq!(rt; shelf.read(&mut bytes), Ok(3));
    assert_eq!(rt; bytes, [0, 0, 0]);
    assert_eq!(rt; shelf.open("/dev/null"), Ok(()));
    assert_eq!(rt; shelf.read(&mut bytes), Ok(0));
}

// Standard output takes a byte.
#[test]
fn standard_output(rt: HostRuntime) {
    let mut sink = FileSink::new(&rt);
    assert_eq!(rt; sink.write(b"\n"), Ok(1));
}
