//! What the examples assert of a set.
use charset::{CharacterSet, Reading, SetRefusal};
use std::process::Abort;
use std::test::Fail;

// The coding of the character stands in front, so many bytes long.
pub(crate) fn reads<S: CharacterSet>(
    rt: &impl Abort,
    set: &S,
    bytes: &[u8],
    character: u32,
    length: usize,
) {
    assert_eq!(rt; set.read(bytes), Ok(Reading::Found { character, length }));
}

// The bytes are an opening.
pub(crate) fn opens<S: CharacterSet>(rt: &impl Abort, set: &S, bytes: &[u8]) {
    assert_eq!(rt; set.read(bytes), Ok(Reading::Open));
}

// The bytes are refused with this cause, at this depth.
pub(crate) fn refuses<S: CharacterSet>(
    rt: &impl Abort,
    set: &S,
    bytes: &[u8],
    cause: u8,
    depth: u8,
) {
    assert_eq!(rt; set.read(bytes), Err(SetRefusal { cause, depth }));
}

// The character is written as these bytes.
pub(crate) fn writes<S: CharacterSet>(
    rt: &impl Abort,
    set: &S,
    number: u32,
    bytes: &[u8],
) -> Result<(), Fail> {
    let coding = set.write(number).map_err(|_| "no coding")?;
    assert!(rt; coding.as_bytes() == bytes);
    Ok(())
}

// The character is not written, with this cause, at this depth.
pub(crate) fn writes_nothing<S: CharacterSet>(
    rt: &impl Abort,
    set: &S,
    number: u32,
    cause: u8,
    depth: u8,
) {
    assert_eq!(rt; set.write(number).err(), Some(SetRefusal { cause, depth }));
}
