//! What holds of the definitions.
ghost use Rattle.std.specs.Prelude.{◌≡◌, ◌+◌, ◌++◌, ◌∷◌, [], Bool, true, false, ℕ, List, length, map, None, Some};
ghost use Rattle.std.specs.List.{AllByRecursion};
ghost use Rattle.std.specs.Str.{IsUtf8};
ghost use Rattle.crossterm.specs.Clipboard.{copy_functions, selection_of};
ghost use Rattle.crossterm_types.specs.Admitting.{admitted, is_of};
ghost use Rattle.crossterm_types.specs.Seen.{Seen};
ghost use Rattle.crossterm_types.specs.declared.event.filter.AnyFilter.{AnyFilter};
ghost use Rattle.crossterm_parse.specs.declared.marked.Marked.{Marked};
ghost use Rattle.crossterm_parse.specs.declared.state.State.{State};
ghost use Rattle.crossterm_read.specs.Answers.{Gave, SourceAnswer};
ghost use Rattle.crossterm_read.specs.Replies.{ToTake};
ghost use Rattle.crossterm_read.specs.Steps.{ReadStep, TakeReplies, UpTo, first_admitted};
ghost use Rattle.crossterm_read.specs.Store.{Arrives, EventStore};
ghost use Rattle.crossterm_c.specs.Command.{copied};
ghost use Rattle.crossterm_c.specs.declared.held.GelvanhHeld.{GelvanhHeld};
ghost use Rattle.crossterm_c.specs.declared.held.GelvanhReader.{GelvanhReader};
ghost use Rattle.crossterm_c.specs.Held.{FeedsHeld, TakesAsHeld, answers_at, class_bits, classes_at, held_in, kept_at, store_at};

/// What `gelvanh_copy_to_clipboard` writes is the text of the command `CopyToClipboard` with the places of the letters.
pub fn a_copy_is_the_command()
    ensures { (content places : List ℕ) → IsUtf8 places → copied content places ≡ copy_functions content (selection_of places) }
{}

/// What `gelvanh_hold` and `gelvanh_take` do one after another is what a reader does in a call.
///
/// Each filter of a reader has its classes. If none that is admitted is held, holding events until one comes, and taking it, is
/// `InternalEventReader::read_within` of a source that answers with these events. And who holds more events before taking takes the same one,
/// and holds the same ones then.
pub fn holding_and_taking_is_reading()
    ensures filters { (f : AnyFilter) (x : Seen) → is_of (classes_at (class_bits f)) x ≡ admitted f x }
    ensures read { (f : Seen → Bool) (passed : List Seen) (event : Seen) (s m t : EventStore) (x : Seen × ℕ) → first_admitted f s.held ≡ None → AllByRecursion (λ e. f e ≡ false) passed → f event ≡ true → Arrives s (map Gave (passed ++ event ∷ [])) m → TakeReplies f m t (Some x) → ReadStep (UpTo (length passed + 1)) f (map Gave (passed ++ event ∷ [])) s t (ToTake (Some x)) }
    ensures more { (f : Seen → Bool) (zs : List SourceAnswer) (s t m k : EventStore) (x : Seen × ℕ) → TakeReplies f s t (Some x) → Arrives s zs m → Arrives t zs k → TakeReplies f m k (Some x) }
{}

/// What the calls for many events do is what the calls for one do, one after another.
///
/// The events that `gelvanh_feed_held` holds arrive at the reader in order. What `gelvanh_take_some` takes, one by one, is what the reader takes
/// by its filter.
pub fn many_are_single_calls()
    ensures fed { (texts : ℕ → List ℕ) (old new : State) (before after : GelvanhReader) (table left : List GelvanhHeld) (count : ℕ) (bytes : List ℕ) (taken : List Marked) → (f : FeedsHeld old new before table after left count bytes taken) → Arrives (store_at texts before table) (answers_at texts before.arrivals f.given) (store_at texts after left) }
    ensures taken { (texts : ℕ → List ℕ) (bits : ℕ) (before after : GelvanhReader) (table left : List GelvanhHeld) (h : GelvanhHeld) → TakesAsHeld bits (held_in before table) h (held_in after left) → after.arrivals ≡ before.arrivals → TakeReplies (is_of (classes_at bits)) (store_at texts before table) (store_at texts after left) (Some (kept_at texts h)) }
{}
