// What a replacement does to the array of a gap store. A function that is lent the whole array lends
// the part from the gap on to those that write there.
ghost use Rattle.std.specs.Prelude.{◌≡◌, ◌+◌, ◌-◌, ◌≤◌, ◌++◌, length, take as first, drop as from};
ghost use Rattle.store.specs.Gaps.{around};
ghost use Rattle.store.specs.Replacements.{made};

use crate::gap::place::Gap;
use crate::replacement::Replacement;

// Makes the replacement. The gap then starts right behind the list.
pub(super) fn splice(cells: &mut [u32], gap: Gap, change: Replacement<'_>) -> Gap
    requires apart { gap.start ≤ gap.end }
    requires inside { gap.end ≤ length cells.old }
    requires taken { change.place + change.take ≤ gap.start + (length cells.old - gap.end) }
    requires fits { length change.put.now ≤ gap.end - gap.start + change.take }
    ensures text { around result cells.new ≡ made change.entry (around gap cells.old) }
    ensures start { result.start ≡ change.entry.place + length change.entry.put.now }
    ensures end { result.end + gap.start ≡ gap.end + (change.entry.place + change.entry.take) }
{
    let Replacement { place, take, put } = change;
    let moved = move_gap(cells, gap, place);
    write_front(&mut cells[place..], put);
    Gap {
        start: place + put.len(),
        end: moved.end + take,
    }
}

// Moves the gap so that it starts at a place; the text stays.
fn move_gap(cells: &mut [u32], gap: Gap, place: usize) -> Gap
    requires apart { gap.start ≤ gap.end }
    requires inside { gap.end ≤ length cells.old }
    requires within { place ≤ gap.start + (length cells.old - gap.end) }
    ensures text { around result cells.new ≡ around gap cells.old }
    ensures start { result.start ≡ place }
    ensures end { result.end + gap.start ≡ gap.end + place }
{
    let Gap { start, end } = gap;
    let size = end - start;
    if place < start {
        carry_back(&mut cells[place..], start - place, size);
    } else {
        carry_front(&mut cells[start..], place - start, size);
    }
    Gap {
        start: place,
        end: place + size,
    }
}

// The first `count` cells go to right before those that follow a gap of this size.
fn carry_back(cells: &mut [u32], count: usize, size: usize)
    requires { count + size ≤ length cells.old }
    ensures { from size cells.new ≡ first count cells.old ++ from (count + size) cells.old }
{
    cells.copy_within(0..count, size);
}

// The first `count` cells behind a gap of this size come to its front.
fn carry_front(cells: &mut [u32], count: usize, size: usize)
    requires { count + size ≤ length cells.old }
    ensures { first count cells.new ++ from (count + size) cells.new ≡ from size cells.old }
{
    cells.copy_within(size..size + count, 0);
}

// Writes the list over the first cells.
fn write_front(cells: &mut [u32], put: &[u32])
    requires { length put.now ≤ length cells.old }
    ensures { cells.new ≡ put.now ++ from (length put.now) cells.old }
{
    cells[0..put.len()].copy_from_slice(put);
}
