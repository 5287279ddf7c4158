// A keystroke script on a flat and on a gap store.
ghost use Rattle.std.specs.Prelude.{◌≡◌, IfOk, vec_len};
ghost use Rattle.cutting.specs.Pieces.{lines};
ghost use Rattle.replays.specs.Replays.{Replayed};
ghost use Rattle.store.specs.Stores.{flat_text};
ghost use Rattle.store.specs.Texts.{capacity_limit};

use keystrokes::{Outcome, Script, read_script, replay_on_both, same_text, text_of};
use std::alloc::{AllocError, Global};
use store::{CAPACITY_LIMIT, FlatStore, GapStore, TextStore};

// A new array for a store.
fn array(heap: Global) -> Result<Vec<u32>, AllocError>
    ensures { IfOk result (λ cells. vec_len cells ≡ capacity_limit) }
{
    vec![in heap; 0; CAPACITY_LIMIT]
}

fn tell_script<R: Print>(rt: &R, script: &Script) -> anyhow::Result<()> {
    let lines = script.lines;
    let keys = script.keys.len();
    let bad = script.bad.len();
    println!(rt; "script: {lines} lines, {keys} keystrokes, {bad} bad lines")?;
    for bad in &script.bad {
        println!(rt; "line {}: {}", bad.line, bad.fault)?;
    }
    Ok(())
}

// Each refusal of a store with its line, then how many keystrokes were made.
fn tell_outcomes<R: Print>(
    rt: &R,
    name: &str,
    script: &Script,
    outcomes: &[Outcome],
) -> anyhow::Result<()> {
    for (key, outcome) in script.keys.iter().zip(outcomes) {
        if let Err(refusal) = outcome {
            let line = key.line;
            let number = refusal.number();
            println!(rt; "{name}: line {line}: refused {number}: {refusal}")?;
        }
    }
    let made = outcomes.iter().filter(|outcome| outcome.is_ok()).count();
    let refused = outcomes.iter().filter(|outcome| outcome.is_err()).count();
    println!(rt; "{name}: {made} made, {refused} refused")?;
    Ok(())
}

fn tell_text<R: Print, S: TextStore>(
    rt: &R,
    heap: Global,
    name: &str,
    store: &S,
) -> anyhow::Result<()> {
    let text = text_of(heap, store)?;
    let len = store.len();
    let capacity = store.capacity();
    println!(rt; "{name}: length {len} of {capacity}")?;
    println!(rt; "{text}")?;
    Ok(())
}

// Replays the script on two stores that are empty at first, and gives back the flat one with its text.
pub fn replay_script<R: Print>(rt: &R, heap: Global, bytes: &[u8]) -> anyhow::Result<FlatStore>
    ensures { IfOk result (λ store. Replayed (lines bytes.now) (flat_text store)) }
{
    let script = read_script(heap, bytes)?;
    tell_script(rt, &script)?;
    let mut flat = FlatStore::new(array(heap)?);
    let mut gap = GapStore::new(array(heap)?);
    let (flat_outcomes, gap_outcomes) = replay_on_both(
        heap,
        &mut flat,
        &mut gap,
        script.keys.as_slice(),
    )?;
    tell_outcomes(rt, "flat", &script, flat_outcomes.as_slice())?;
    tell_outcomes(rt, "gap", &script, gap_outcomes.as_slice())?;
    tell_text(rt, heap, "flat", &flat)?;
    tell_text(rt, heap, "gap", &gap)?;
    let equal = if same_text(&flat, &gap) { "yes" } else { "no" };
    println!(rt; "equal: {equal}")?;
    Ok(flat)
}
