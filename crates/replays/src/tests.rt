// What a script leaves, and what is read of an input.
use crate::{read_input, replay_script};
use std::test::Fail;
use store::TextStore;

#[test]
fn replays(rt: HostRuntime) -> Result<(), Fail> {
    let text = replay_script(&rt, rt.alloc(), b"0 0 41 42\n5 0 43\n0 1 1F600\n")?;
    assert_eq!(rt; (text.len(), text.at(0), text.at(1)), (2, 0x1F600, 0x42));
    Ok(())
}

#[test]
fn reads_all(rt: HostRuntime) -> Result<(), Fail> {
    let mut input = b"two\nlines".as_slice();
    let bytes = read_input(&rt, None, &mut input)?;
    assert_eq!(rt; bytes.as_slice(), b"two\nlines".as_slice());
    Ok(())
}
