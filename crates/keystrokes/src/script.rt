// Reads a keystroke script: a keystroke a line, as a place, a count to take and code points.
ghost use Rattle.std.specs.Prelude.{◌≡◌, List, ◌++◌, IfOk, OnOk};
ghost use Rattle.cutting.specs.Left.{words_left};
ghost use Rattle.cutting.specs.Pieces.{lines, Lined};
ghost use Rattle.keystrokes.specs.Script.{points, Spells, reading, Says, Adds, Reads};

use crate::faults::{LineError, LineFault};
use crate::numbers::{read_code_point, read_decimal};
use crate::scripts::{BadLine, Script};
use crate::strokes::Keystroke;
use cutting::{Lines, Words, statement};
use std::alloc::{AllocError, Global};

// The code points that the words write.
fn code_points(heap: Global, words: Words<'_>) -> Result<Vec<u32>, LineError>
    ensures { Spells result (points 1 (words_left words.entry)) }
{
    let mut put = Vec::new(heap);
    for word in words {
        let code = read_code_point(word).ok_or(LineFault::BadCodePoint(put.len() + 1))?;
        put.push(code)?;
    }
    Ok(put)
}

// The keystroke of the line of this number, or none where it is blank but for a comment.
fn read_line(heap: Global, number: usize, line: &[u8]) -> Result<Option<Keystroke>, LineError>
    ensures { Says number result (reading line.now) }
{
    let mut words = Words::new(statement(line));
    let Some(first) = words.next() else {
        return Ok(None);
    };
    let place = read_decimal(first).ok_or(LineFault::BadPlace)?;
    let second = words.next().ok_or(LineFault::NoCount)?;
    let take = read_decimal(second).ok_or(LineFault::BadCount)?;
    let put = code_points(heap, words)?;
    Ok(Some(Keystroke {
        line: number,
        place,
        take,
        put,
    }))
}

// Adds what the line of this number says.
fn note_line(
    heap: Global,
    script: &mut Script,
    number: usize,
    line: &[u8],
) -> Result<(), AllocError>
    ensures noted { OnOk result ((more : List Keystroke) × (bad : List BadLine) × (script.new.keys.items ≡ script.old.keys.items ++ more) × (script.new.bad.items ≡ script.old.bad.items ++ bad) × Adds number (reading line.now) more bad) }
    ensures lines { script.new.lines ≡ script.old.lines }
{
    match read_line(heap, number, line) {
        Ok(None) => {}
        Ok(Some(key)) => script.keys.push(key)?,
        Err(LineError::Fault(fault)) => script.bad.push(BadLine {
            line: number,
            fault,
        })?,
        Err(LineError::OutOfMemory(error)) => return Err(error),
    }
    Ok(())
}

// The keystrokes and the bad lines of a script, in its order. Lines end at a line feed.
pub fn read_script(heap: Global, bytes: &[u8]) -> Result<Script, AllocError>
    ensures read { IfOk result (λ s. Reads (lines bytes.now) s) }
    ensures lined { Lined bytes.now }
{
    let mut script = Script {
        lines: 0,
        keys: Vec::new(heap),
        bad: Vec::new(heap),
    };
    // The number is what the script counts.
    for line in Lines::new(bytes) {
        let number = script.lines + 1;
        note_line(heap, &mut script, number, line)?;
        script.lines = number;
    }
    Ok(script)
}
