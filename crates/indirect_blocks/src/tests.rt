//! Places at the edges of their ranges, and a pointer block with one number changed.
use crate::{Place, place_of, read_pointers, write_pointers};
use std::test::Fail;

#[test]
fn places(rt: HostRuntime) {
    for (index, want) in [
        (0, Place::Direct(0)),
        (11, Place::Direct(11)),
        (12, Place::Single(0)),
        (1035, Place::Single(1023)),
        (1036, Place::Double(0, 0)),
        (2059, Place::Double(0, 1023)),
        (2060, Place::Double(1, 0)),
        (1_049_611, Place::Double(1023, 1023)),
        (1_049_612, Place::Past),
        (u32::MAX, Place::Past),
    ] {
        assert_eq!(rt; place_of(index), want, "{index}");
    }
}

#[test]
fn one_changed_number(rt: HostRuntime) -> Result<(), Fail> {
    let mut block = [0; 4096];
    block[3] = 37;
    block[4] = 1;
    block[5] = 2;
    block[6] = 3;
    block[7] = 4;
    block[4092] = 0xff;
    let mut pointers = read_pointers(rt.alloc(), &block)?;
    for (entry, got, want) in [
        (0, pointers.get(0), 37),
        (1, pointers.get(1), 0x0102_0304),
        (2, pointers.get(2), 0),
        (1022, pointers.get(1022), 0),
        (1023, pointers.get(1023), 0xff00_0000),
    ] {
        assert_eq!(rt; got, want, "{entry}");
    }
    pointers.set(1022, 0xab);
    let mut out = [0xee; 4096];
    write_pointers(&pointers, &mut out);
    block[4091] = 0xab;
    assert_eq!(rt; out.as_slice(), block.as_slice());
    Ok(())
}
