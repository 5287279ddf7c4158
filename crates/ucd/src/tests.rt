// Lines at the edges, each with its whole fault: number, line, field, place and finder.
use crate::{Fault, Parts, read_data_line, read_file, take_apart};
use properties::{LineClass, Named, value_of};
use ranges::{Filling, Range};
use std::test::Fail;

const FREE: Range<LineClass> = Range {
    first: 0,
    last: 0,
    value: LineClass::Xx,
};

// What is told of a line that is refused: number, line, field, place and finder.
type Told = (u8, usize, u8, usize, &'static str);

fn told(answer: Result<(), Fault>) -> Option<Told> {
    answer.err().map(|fault| (
        fault.in_line.reason.number(),
        fault.line,
        fault.in_line.field.number(),
        fault.in_line.place,
        fault.in_line.finder.name(),
    ))
}

// The fault of line 7 in a table that has two records, of which one holds 0041 to 0043.
fn fault_of(line: &[u8]) -> Option<Told> {
    let mut records = [FREE; 2];
    let mut table = Filling::new(&mut records);
    let _ = read_data_line(b"0041..0043;AL", 6, &mut table);
    told(read_data_line(line, 7, &mut table))
}

#[test]
fn lengths(rt: HostRuntime) {
    let mut line = [b' '; 1025];
    assert_eq!(rt; fault_of(&line), Some((1, 7, 0, 0, "line reader")));
    line[0..8].copy_from_slice(b"0050;AL#");
    assert_eq!(rt; fault_of(&line), Some((1, 7, 0, 0, "line reader")));
    assert_eq!(rt; fault_of(&line[0..1024]), None);
    line[0..4].copy_from_slice(b"0042");
    assert_eq!(rt; fault_of(&line[0..1024]), Some((6, 7, 1, 0, "file reader")));
}

#[test]
fn fields(rt: HostRuntime) {
    assert_eq!(rt; fault_of(b"0050"), Some((2, 7, 0, 0, "line reader")));
    assert_eq!(rt; fault_of(b"0050;AL;"), Some((2, 7, 0, 0, "line reader")));
    assert_eq!(rt;
        fault_of(b"0050 ;\t# AL"),
        Some((5, 7, 2, 7, "field reader"))
    );
    assert_eq!(rt; fault_of(b"0050 ; \r"), Some((5, 7, 2, 8, "field reader")));
    assert_eq!(rt; fault_of(b" \t;AL"), Some((3, 7, 1, 2, "field reader")));
    assert_eq!(rt; fault_of(b" 41;AL"), Some((3, 7, 1, 1, "field reader")));
    assert_eq!(rt; fault_of(b"0000041;AL"), Some((3, 7, 1, 0, "field reader")));
    assert_eq!(rt;
        fault_of(b"0041.0042;AL"),
        Some((3, 7, 1, 0, "field reader"))
    );
    assert_eq!(rt; fault_of(b"00e9;AL"), Some((3, 7, 1, 0, "field reader")));
    assert_eq!(rt; fault_of(b"110000;AL"), Some((4, 7, 1, 0, "field reader")));
    assert_eq!(rt;
        fault_of(b"0041..0040;AL"),
        Some((4, 7, 1, 0, "field reader"))
    );
    assert_eq!(rt; fault_of(b"0050; al"), Some((5, 7, 2, 6, "field reader")));
}

#[test]
fn returns(rt: HostRuntime) {
    assert_eq!(rt; fault_of(b"0050;AL\r"), None);
    assert_eq!(rt; fault_of(b" \t\r"), None);
    assert_eq!(rt; fault_of(b"0050;AL# \r"), None);
    assert_eq!(rt;
        fault_of(b"0050;AL\r# a comment"),
        Some((5, 7, 2, 5, "field reader"))
    );
    assert_eq!(rt;
        fault_of(b"\r# a comment"),
        Some((2, 7, 0, 0, "line reader"))
    );
}

#[test]
fn tables(rt: HostRuntime) -> Result<(), Fail> {
    assert_eq!(rt;
        fault_of(b" 0043..0050;AL"),
        Some((6, 7, 1, 1, "file reader"))
    );
    let mut records = [FREE; 2];
    let file = b"# two\n0044 ; B2 # a bar\n0041..0043;AL\n 0045;AL";
    let (table, lines) = read_file(&file[0..38], &mut records)?;
    assert_eq!(rt; lines, 3);
    assert_eq!(rt; table.len(), 2);
    assert_eq!(rt; value_of(&table, 0x43).name(), "AL");
    assert_eq!(rt; value_of(&table, 0x44).name(), "B2");
    assert_eq!(rt; value_of(&table, 0x45).name(), "XX");
    let refused = read_file(file, &mut records);
    assert!(rt; refused.is_err());
    assert_eq!(rt;
        told(refused.map(|_| ())),
        Some((7, 4, 0, 0, "file reader"))
    );
    Ok(())
}

#[test]
fn shared_file(rt: HostRuntime) {
    let mut records = [Range {
        first: 0,
        last: 0,
        value: false,
    }; 1];
    let mut table = Filling::new(&mut records);
    let first = read_data_line(b"00A9;Extended_Pictographic# E0.6", 1, &mut table);
    assert_eq!(rt; told(first), None);
    let other = read_data_line(b"00A9;Emoji", 2, &mut table);
    assert_eq!(rt; told(other), None);
    let again = read_data_line(b"00A9;Extended_Pictographic", 3, &mut table);
    assert_eq!(rt; told(again), Some((6, 3, 1, 0, "file reader")));
    assert!(rt; value_of(&table.table(), 0xA9));
}

#[test]
fn parts(rt: HostRuntime) -> Result<(), Fail> {
    match take_apart(b" 0041 ;\tAL # A") {
        Ok(
            Parts::Listing {
                range,
                value,
                comment,
            },
        ) => {
            assert_eq!(rt; (range.bytes, range.place), (b"0041".as_slice(), 1));
            assert_eq!(rt; (value.bytes, value.place), (b"AL".as_slice(), 8));
            assert_eq!(rt; (comment.bytes, comment.place), (b"# A".as_slice(), 11));
            Ok(())
        }
        _ => Err(Fail::new("no listing")),
    }
}
