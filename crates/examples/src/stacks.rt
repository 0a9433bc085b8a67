//! Stacks by their type alone.
use crate::{read_three_deep, read_with_parity};
use charset::{Reading, SetRefusal};
use sets::Iso6937;
use std::test::*;

#[test]
fn stacks(rt: HostRuntime) -> Result<(), Fail> {
    assert_eq!(rt;
        read_with_parity(b"\x99\x42\x65"),
        Ok(Reading::Found {
            character: 0xE9,
            length: 3,
        })
    );
    assert_eq!(rt;
        read_three_deep([true; 32], Iso6937, b"\x19"),
        Err(SetRefusal {
            cause: 34,
            depth: 0,
        })
    );
    Ok(())
}
