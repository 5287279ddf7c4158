// Pieces and words, with what follows them.
use crate::{Stop, cut, next_word};

#[test]
fn pieces(rt: HostRuntime) {
    assert_eq!(rt;
        cut(b"\rone two", Stop::Blank),
        (b"".as_slice(), b"one two".as_slice())
    );
    assert_eq!(rt;
        cut(b"one\ttwo", Stop::Blank),
        (b"one".as_slice(), b"two".as_slice())
    );
    assert_eq!(rt;
        cut(b"one\n\n", Stop::Newline),
        (b"one".as_slice(), b"\n".as_slice())
    );
    assert_eq!(rt;
        cut(b"one # two", Stop::Hash),
        (b"one ".as_slice(), b" two".as_slice())
    );
    assert_eq!(rt; cut(b"one", b';'), (b"one".as_slice(), b"".as_slice()));
}

#[test]
fn words(rt: HostRuntime) {
    assert_eq!(rt;
        next_word(b" \tone  two "),
        (b"one".as_slice(), b" two ".as_slice())
    );
    assert_eq!(rt; next_word(b" \t "), (b"".as_slice(), b"".as_slice()));
}
