// Keystrokes at the edges of a store, and lines that hold none.
use crate::typing::press;
use crate::{Keystroke, Refusal, read_script, sentence_of, text_of};
use std::alloc::Global;
use std::test::Fail;
use store::{FlatStore, TextStore};

fn key(heap: Global, place: usize, take: usize, put: &[u32]) -> Result<Keystroke, Fail> {
    Ok(Keystroke {
        line: 1,
        place,
        take,
        put: put.to_vec(heap)?,
    })
}

#[test]
fn refusals(rt: HostRuntime) -> Result<(), Fail> {
    let heap = rt.alloc();
    let mut store = FlatStore::new(vec![in heap; 0; 2]?);
    assert_eq!(rt; press(&mut store, &key(heap, 0, 0, &[65, 66])?), Ok(()));
    assert_eq!(rt;
        press(&mut store, &key(heap, 2, 0, &[67])?).map_err(Refusal::number),
        Err(13)
    );
    assert_eq!(rt;
        press(&mut store, &key(heap, 2, 1, &[67, 68, 69])?).map_err(Refusal::number),
        Err(10)
    );
    let made = press(&mut store, &key(heap, 1, 1, &[0xD800])?);
    assert_eq!(rt; made, Ok(()));
    assert_eq!(rt; sentence_of(made), "done");
    assert_eq!(rt; text_of(heap, &store)?.as_str(), "A\u{FFFD}");
    Ok(())
}

#[test]
fn lines(rt: HostRuntime) -> Result<(), Fail> {
    let script = read_script(
        rt.alloc(),
        b"0 0 41 \t1f600\r\n# none\n\n7\n1 0 D800 # a surrogate\n +1 0\n3 2",
    )?;
    assert_eq!(rt; script.lines, 7);
    assert!(rt; script.keys.len() == 2);
    let first = &script.keys[0];
    assert_eq!(rt; first.put.as_slice(), [0x41_u32, 0x1F600].as_slice());
    let second = &script.keys[1];
    assert_eq!(rt; (second.line, second.place, second.take), (7, 3, 2));
    assert!(rt; script.bad.len() == 3);
    assert_eq!(rt;
        (script.bad[0].line, script.bad[1].line, script.bad[2].line),
        (4, 5, 6)
    );
    Ok(())
}
