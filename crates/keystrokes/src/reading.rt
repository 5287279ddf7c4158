// The whole text of a store, read by its questions.
ghost use Rattle.std.specs.Prelude.{◌≡◌, IfOk, string_bytes, Decides};
ghost use Rattle.keystrokes.specs.Shown.{utf8};

use std::alloc::{AllocError, Global};
use store::TextStore;

// The text as UTF-8, with U+FFFD for a number that is no scalar value.
pub fn text_of<S: TextStore>(heap: Global, store: &S) -> Result<String, AllocError>
    ensures { IfOk result (λ s. string_bytes s ≡ utf8 (S.TextStore.text store.now)) }
{
    let mut out = String::new(heap);
    for place in 0..store.len() {
        out.push(char::from_u32(store.at(place)).unwrap_or('\u{FFFD}'))?;
    }
    Ok(out)
}

// Whether two stores hold the same text. A `for` and no `all`, whose goal stayed open as a whole.
pub fn same_text<S: TextStore, T: TextStore>(one: &S, other: &T) -> bool
    ensures { Decides result (S.TextStore.text one.now ≡ T.TextStore.text other.now) }
{
    let len = one.len();
    if len != other.len() {
        return false;
    }
    for place in 0..len {
        if one.at(place) != other.at(place) {
            return false;
        }
    }
    true
}
