// Keystrokes on any text store. Each call says that the room stays, which compares two stores and is no fact of one.
ghost use Rattle.std.specs.Prelude.{◌≡◌, ◌≤◌, [], length, IfOk, vec_capacity, MatchResult};
ghost use Rattle.keystrokes.specs.Typing.{Pressed, Typed, TypedOnce};

use crate::refusals::{Outcome, Refusal};
use crate::strokes::Keystroke;
use std::alloc::{AllocError, Global};
use store::TextStore;

// Makes one keystroke; where it is not done, the text stays.
pub(crate) fn press<S: TextStore>(store: &mut S, key: &Keystroke) -> Outcome
    ensures pressed { Pressed (S.TextStore.room store.old) key.now (S.TextStore.text store.old) result (S.TextStore.text store.new) }
    ensures same_room { S.TextStore.room store.new ≡ S.TextStore.room store.old }
{
    let len = store.len();
    if store.replace(key.place, key.take, key.put.as_slice()) {
        Ok(())
    } else if len < key.place || len - key.place < key.take {
        Err(Refusal::PastEnd)
    } else {
        Err(Refusal::Full)
    }
}

// Makes the keystrokes in order, and notes what came of each in an empty list with enough memory.
fn press_all<S: TextStore>(store: &mut S, keys: &[Keystroke], outcomes: &mut Vec<Outcome>)
    requires empty { outcomes.old.items ≡ [] }
    requires reserved { length keys.now ≤ vec_capacity outcomes.old }
    ensures typed { Typed (S.TextStore.room store.old) keys.now (S.TextStore.text store.old) outcomes.new.items (S.TextStore.text store.new) }
    ensures same_room { S.TextStore.room store.new ≡ S.TextStore.room store.old }
{
    for key in keys {
        outcomes.push_reserved(press(store, key));
    }
}

// Makes the keystrokes in order on two stores of any kinds, and tells what came of each. Capacity,
// keystrokes and text settle that: where the stores are alike before, they are alike after. Want of
// memory is found before the first keystroke, and leaves both stores as they were. The outcomes come beside the
// keystrokes, which are lent, and not in pairs with copies of them.
pub fn replay_on_both<S: TextStore, T: TextStore>(
    heap: Global,
    one: &mut S,
    other: &mut T,
    keys: &[Keystroke],
) -> Result<(Vec<Outcome>, Vec<Outcome>), AllocError>
    ensures typed { MatchResult result (λ outcomes. Typed (S.TextStore.room one.old) keys.now (S.TextStore.text one.old) outcomes.0.items (S.TextStore.text one.new)) (λ _. one.new ≡ one.old) }
    ensures other_typed { MatchResult result (λ outcomes. Typed (T.TextStore.room other.old) keys.now (T.TextStore.text other.old) outcomes.1.items (T.TextStore.text other.new)) (λ _. other.new ≡ other.old) }
    ensures same_rooms { (S.TextStore.room one.new ≡ S.TextStore.room one.old) × (T.TextStore.room other.new ≡ T.TextStore.room other.old) }
    ensures settled { TypedOnce }
    ensures alike { S.TextStore.room one.old ≡ T.TextStore.room other.old → S.TextStore.text one.old ≡ T.TextStore.text other.old → IfOk result (λ outcomes. (outcomes.0.items ≡ outcomes.1.items) × (S.TextStore.text one.new ≡ T.TextStore.text other.new)) }
{
    let mut outcomes = Vec::with_capacity(heap, keys.len())?;
    let mut other_outcomes = Vec::with_capacity(heap, keys.len())?;
    press_all(one, keys, &mut outcomes);
    press_all(other, keys, &mut other_outcomes);
    Ok((outcomes, other_outcomes))
}
