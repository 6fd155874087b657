//! What no clause says: that the system's files are read and written, and that the shelf works over files that are told.

ghost use Rattle.std.specs.Prelude.{[], ◌∷◌, Some};

use crate::{FileShelf, Opens, StdoutSink, SystemFiles};
use drc_io::{Failed, FetchError, Shelf, fetch, put_all};
use std::io::ErrorKind;
use std::test::Fail;
use std::{fs, io};

/// One file in memory.
#[derive(Drop)]
struct OneFile<'a> {
    name: &'a str,
    bytes: &'a [u8],
}

impl<'a> Opens for OneFile<'a> {
    type File = &'a [u8];

    ghost files = { λ f. Some ((f.name.now, f.bytes.now) ∷ []) };

    fn open(&self, name: &str) -> io::Result<&'a [u8]> {
        if name == self.name {
            Ok(self.bytes)
        } else {
            Err(io::Error::from(ErrorKind::NotFound))
        }
    }
}

#[test]
fn reads_what_was_written(rt: HostRuntime) -> Result<(), Fail> {
    let alloc = rt.alloc();
    let name = "written_by_a_test.txt";
    let mut sink = StdoutSink::new(fs::create(&rt, name)?);
    assert_eq!(rt; put_all(&mut sink, b"a board"), Ok(()));
    drop(sink);
    let mut shelf = FileShelf::new(alloc, SystemFiles::new(&rt));
    let text = fetch(alloc, &mut shelf, name, 7)?;
    let long = fetch(alloc, &mut shelf, name, 6).err();
    let mut piece = [0; 4];
    let part = shelf.read(name, 2, &mut piece);
    fs::remove_file(&rt, name)?;
    let gone = fetch(alloc, &mut shelf, name, 7).err();
    assert_eq!(rt; text.as_slice(), b"a board".as_slice());
    assert_eq!(rt; part, Ok(4));
    assert_eq!(rt; piece.as_slice(), b"boar".as_slice());
    assert_eq!(rt; long, Some(FetchError::TooLong));
    assert_eq!(rt; gone, Some(FetchError::Failed));
    Ok(())
}

#[test]
fn reads_at_any_place(rt: HostRuntime) -> Result<(), Fail> {
    let name = "b";
    let bytes = b"a board".as_slice();
    let mut shelf = FileShelf::new(rt.alloc(), OneFile { name, bytes });
    let mut piece = [0; 3];
    assert_eq!(rt; shelf.read(name, 0, &mut piece), Ok(3));
    assert_eq!(rt; piece.as_slice(), b"a b".as_slice());
    assert_eq!(rt; shelf.read(name, 3, &mut piece), Ok(3));
    assert_eq!(rt; piece.as_slice(), b"oar".as_slice());
    assert_eq!(rt; shelf.read(name, 1, &mut piece), Ok(3));
    assert_eq!(rt; piece.as_slice(), b" bo".as_slice());
    assert_eq!(rt; shelf.read(name, 6, &mut piece), Ok(1));
    assert_eq!(rt; shelf.read(name, 9, &mut piece), Ok(0));
    assert_eq!(rt; shelf.read("x", 0, &mut piece), Err(Failed));
    Ok(())
}
