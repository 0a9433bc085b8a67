//! The four layers on the sets of this repository and on an odd one.
use crate::asserts::{opens, reads, refuses, writes, writes_nothing};
use crate::odd::Odd;
use layers::{CharacterList, with_controls, with_list, with_parity, with_shift};
use sets::{Iso6937, Utf8};
use std::process::Abort;
use std::test::Fail;

#[test]
fn parity_on_odd(rt: HostRuntime) -> Result<(), Fail> {
    let set = with_parity(Odd);
    reads(&rt, &set, &[0xA0], 0x20, 1);
    reads(&rt, &set, &[0x99, 0xFF], 0, 1);
    opens(&rt, &set, &[]);
    opens(&rt, &set, &[0xC3]);
    refuses(&rt, &set, &[0x20], 34, 0);
    refuses(&rt, &set, &[0xC3, 0x43], 34, 0);
    refuses(&rt, &set, &[0x41], 77, 255);
    writes(&rt, &set, 0x20, &[0xA0])?;
    writes(&rt, &set, 0, &[0x99])?;
    // Their codings below have a byte from 80 up; the set below has no other character.
    writes_nothing(&rt, &set, 0xD800, 34, 0);
    writes_nothing(&rt, &set, 0x41, 34, 0);
    writes_nothing(&rt, &set, 0x42, 78, 255);
    Ok(())
}

#[test]
fn shift_on_odd(rt: HostRuntime) -> Result<(), Fail> {
    let set = with_shift(Odd);
    reads(&rt, &set, &[0x19, 0x20, 0x19, 0x21], 0x41, 4);
    reads(&rt, &set, &[0x20, 0x80], 0x20, 1);
    opens(&rt, &set, &[0x19]);
    opens(&rt, &set, &[0x43]);
    opens(&rt, &set, &[0x43, 0x19]);
    opens(&rt, &set, &[0x19, 0x20, 0x19]);
    refuses(&rt, &set, &[0x19, 0x1F], 35, 0);
    refuses(&rt, &set, &[0x43, 0x85], 35, 0);
    refuses(&rt, &set, &[0x19, 0x20, 0x43], 77, 255);
    writes(&rt, &set, 0x41, &[0x19, 0x20, 0x19, 0x21])?;
    // Their codings below have a byte 19 and bytes 80 and 9F.
    writes_nothing(&rt, &set, 0, 35, 0);
    writes_nothing(&rt, &set, 0x10FFFF, 35, 0);
    writes_nothing(&rt, &set, 0x42, 78, 255);
    Ok(())
}

#[test]
fn controls_on_odd(rt: HostRuntime) -> Result<(), Fail> {
    let mut chosen = [false; 32];
    chosen[0x00] = true;
    chosen[0x0A] = true;
    chosen[0x19] = true;
    let set = with_controls(chosen, Odd);
    reads(&rt, &set, &[0x0A, 0x0A], 0x0A, 1);
    writes(&rt, &set, 0x0A, &[0x0A])?;
    // The set below writes U+0000, and reads 19.
    refuses(&rt, &set, &[0x00], 77, 255);
    reads(&rt, &set, &[0x19], 0, 1);
    writes(&rt, &set, 0, &[0x19])?;
    writes_nothing(&rt, &set, 0x19, 78, 255);
    refuses(&rt, &set, &[0x0D], 77, 255);
    Ok(())
}

#[test]
fn list_on_odd(rt: HostRuntime) -> Result<(), Fail> {
    let set = with_list(CharacterList::new(rt.alloc())?, Odd);
    reads(&rt, &set, &[0xA0, 0xA1], 0x41, 2);
    refuses(&rt, &set, &[0x19], 37, 0);
    refuses(&rt, &set, &[0x44], 77, 255);
    opens(&rt, &set, &[0x43]);
    writes(&rt, &set, 0x41, &[0xA0, 0xA1])?;
    writes_nothing(&rt, &set, 0, 37, 0);
    // Off the list or not, what the set below cannot write has the cause from below.
    writes_nothing(&rt, &set, 0x42, 78, 255);
    writes_nothing(&rt, &set, 0x263A, 78, 255);
    Ok(())
}

#[test]
fn seven_bits(rt: HostRuntime) -> Result<(), Fail> {
    let set = with_shift(Iso6937);
    reads(&rt, &set, &[0x19, 0x42, 0x65], 0xE9, 3);
    reads(&rt, &set, &[0x19, 0x7F], 0xAD, 2);
    opens(&rt, &set, &[0x19, 0x42, 0x19]);
    refuses(&rt, &set, &[0x19, 0x42, 0x19, 0x20], 32, 1);
    refuses(&rt, &set, &[0x19, 0x40], 31, 1);
    let even = with_parity(set);
    writes(&rt, &even, 0xE9, &[0x99, 0x42, 0x65])?;
    refuses(&rt, &even, &[0x99, 0x42, 0x2E], 32, 2);
    Ok(())
}

// A byte 19, a byte from 80 to 9F, and a coding over four bytes; of two, the byte goes first.
#[test]
fn shift_on_utf8(rt: HostRuntime) -> Result<(), Fail> {
    let set = with_shift(Utf8);
    writes(&rt, &set, 0xA0, &[0x19, 0x42, 0x19, 0x20])?;
    writes_nothing(&rt, &set, 0x19, 35, 0);
    writes_nothing(&rt, &set, 0x80, 35, 0);
    writes_nothing(&rt, &set, 0x820, 36, 0);
    writes_nothing(&rt, &set, 0x20800, 35, 0);
    writes_nothing(&rt, &set, 0xD800, 38, 1);
    Ok(())
}

// Each cause through a stack of four: parity on controls on a list on shift, and the other way
// round but for the list.
#[test]
fn causes_of_writing_in_stacks(rt: HostRuntime) -> Result<(), Fail> {
    let listed = with_list(CharacterList::new(rt.alloc())?, with_shift(Utf8));
    let even = with_parity(with_controls([true; 32], listed));
    writes(&rt, &even, 0x0A, &[0x0A])?;
    writes_nothing(&rt, &even, 0x21, 37, 2);
    writes_nothing(&rt, &even, 0x19, 35, 3);
    writes_nothing(&rt, &even, 0x820, 36, 3);
    writes_nothing(&rt, &even, 0xD800, 38, 4);
    let listed = with_list(CharacterList::new(rt.alloc())?, with_parity(Iso6937));
    let shifted = with_shift(with_controls([true; 32], listed));
    writes(&rt, &shifted, 0x41, &[0x41])?;
    writes(&rt, &shifted, 0x43, &[0x19, 0x43])?;
    writes_nothing(&rt, &shifted, 0x19, 35, 0);
    writes_nothing(&rt, &shifted, 0x21, 37, 2);
    writes_nothing(&rt, &shifted, 0xE9, 34, 3);
    writes_nothing(&rt, &shifted, 0x4E00, 38, 4);
    Ok(())
}

#[test]
fn lists(rt: HostRuntime) -> Result<(), Fail> {
    let mut list = CharacterList::new(rt.alloc())?;
    assert!(rt; list.contains(0x20) && list.contains(0x7A) && !list.contains(0x21));
    let many = vec![in rt.alloc(); 0x20u32; 513]?;
    refused_with(&mut list, &rt, &many, 10);
    refused_with(&mut list, &rt, &[0x20, 0x20], 11);
    refused_with(&mut list, &rt, &[0x110000], 11);
    refused_with(&mut list, &rt, &[0x20], 12);
    refused_with(&mut list, &rt, &[], 12);
    assert!(rt; list.contains(0x41));
    let mut numbers = (0x20..0x7Bu32)
        .filter(|character| list.contains(*character))
        .collect::<Vec<_>>(rt.alloc())?;
    numbers.push(0xE9)?;
    numbers.push(0x2603)?;
    refused_with(&mut list, &rt, &numbers, 13);
    assert!(rt; numbers.pop().is_some());
    assert!(rt; list.fill(rt.alloc(), &numbers, &Iso6937).is_ok());
    assert!(rt; list.contains(0xE9) && !list.contains(0x2603));
    Ok(())
}

// The numbers are no list for ISO/IEC 6937, and the refusal has this number.
fn refused_with(
    list: &mut CharacterList,
    rt: &(impl Abort + AllocGlobal),
    numbers: &[u32],
    number: u8,
) {
    let refused = list.fill(rt.alloc(), numbers, &Iso6937);
    assert_eq!(rt; refused.map_err(|refusal| refusal.number()), Err(number));
}
