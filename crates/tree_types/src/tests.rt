//! The rights of each class of callers, and paths and names as lists.
use crate::{Attr, Cred, NameList, PathText, permits};
use lufs_base::Name;
use std::test::Fail;

// The owner is 5, the group 6.
fn may(uid: u32, gid: u32, mode: u16, bit: u16) -> bool {
    let attr = Attr {
        mode,
        uid: 5,
        gid: 6,
        mtime: 0,
    };
    permits(&Cred { uid, gid }, &attr, bit)
}

#[test]
fn classes_of_callers(rt: HostRuntime) {
    for (what, uid, gid, mode, bit, want) in [
        ("superuser", 0, 0, 0, 7, true),
        ("owner reads", 5, 6, 0o400, 4, true),
        ("owner isn't helped by the group", 5, 6, 0o077, 4, false),
        ("group writes", 7, 6, 0o020, 2, true),
        ("group isn't helped by others", 7, 6, 0o707, 2, false),
        ("others search", 7, 7, 0o001, 1, true),
        ("others don't write", 7, 7, 0o775, 2, false),
        ("group 0 is no superuser", 7, 0, 0o770, 1, false),
        ("type bits don't count", 5, 6, 0o100_600, 1, false),
        ("both rights", 5, 6, 0o500, 5, true),
        ("one of two rights", 5, 6, 0o400, 5, false),
    ] {
        assert_eq!(rt; may(uid, gid, mode, bit), want, "{what}");
    }
}

#[test]
fn paths_and_names(rt: HostRuntime) -> Result<(), Fail> {
    let alloc = rt.alloc();
    let path = PathText::from_slice(alloc, b"/a//b")?;
    assert_eq!(rt; path.len(), 5);
    assert_eq!(rt; path.as_slice(), b"/a//b".as_slice());
    let mut names = NameList::new(alloc);
    for name in ["b", "a"] {
        names.push(Name::from_slice(alloc, name.as_bytes())?)?;
    }
    assert_eq!(rt; names.len(), 2);
    for (k, want) in [(0, b"b"), (1, b"a")] {
        let name = names.as_slice().get(k).ok_or("no name")?;
        assert_eq!(rt; name.as_slice(), want.as_slice(), "{k}");
    }
    Ok(())
}
