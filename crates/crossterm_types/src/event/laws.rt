//! Laws of keys, and of the orders of events.
ghost use Rattle.std.specs.Prelude.{◌≡◌, ◌↔◌, IsTrue};
ghost use Rattle.crossterm_flags.specs.Orders.{ComparesBy};
ghost use Rattle.crossterm_flags.specs.Variants.{rank_order};
ghost use Rattle.crossterm_types.specs.Normal.{normal};
ghost use Rattle.crossterm_types.specs.Ranks.{code_order, event_order, internal_order, key_order, mouse_kind_order, mouse_order};
ghost use Rattle.crossterm_types.specs.Variants.{buttons, kinds, media_keys, modifier_keys};
ghost use Rattle.crossterm_types.specs.declared.event.key.KeyEvent.{KeyEvent};

use crate::event::{
    Event, InternalEvent, KeyCode, KeyEvent, KeyEventKind, MediaKeyCode, ModifierKeyCode,
    MouseButton, MouseEvent, MouseEventKind,
};
use std::alloc::Allocator;
use std::cmp::{Ord, Ordering, PartialEq, PartialOrd};
use std::hash::Hash;

/// The laws of a key's normal form, on which tables of key bindings rest. It does nothing when it runs.
///
/// The normal form of a normal form is itself; keys are equal exactly if their normal forms are the same; they are equal exactly if their
/// order says so; equal keys hash alike; and a key equals its normal form.
pub fn normal_form_laws()
    ensures twice { (key : KeyEvent) → normal (normal key) ≡ normal key }
    ensures equal { (a b : KeyEvent) → IsTrue (⟦<KeyEvent as PartialEq>⟧.eq a b) ↔ (normal a ≡ normal b) }
    ensures ordered { (a b : KeyEvent) → IsTrue (⟦<KeyEvent as PartialEq>⟧.eq a b) ↔ (⟦<KeyEvent as Ord>⟧.cmp a b ≡ Ordering.Equal) }
    ensures hashed { (a b : KeyEvent) → IsTrue (⟦<KeyEvent as PartialEq>⟧.eq a b) → ⟦<KeyEvent as Hash>⟧.hash_input a ≡ ⟦<KeyEvent as Hash>⟧.hash_input b }
    ensures fixed { (key : KeyEvent) → IsTrue (⟦<KeyEvent as PartialEq>⟧.eq (normal key) key) }
{}

/// The declared orders of keys and of the mouse, on which sorted tables of them rest: variants are in the order of their ranks, two of one
/// variant go by what they hold, and structs by their fields in order. Keys go by those of the normal form. It does nothing when it runs.
pub fn declared_orders()
    ensures kinds { ComparesBy (rank_order kinds) ⟦<KeyEventKind as Ord>⟧.cmp ⟦<KeyEventKind as PartialOrd>⟧.partial_cmp }
    ensures media { ComparesBy (rank_order media_keys) ⟦<MediaKeyCode as Ord>⟧.cmp ⟦<MediaKeyCode as PartialOrd>⟧.partial_cmp }
    ensures modifiers { ComparesBy (rank_order modifier_keys) ⟦<ModifierKeyCode as Ord>⟧.cmp ⟦<ModifierKeyCode as PartialOrd>⟧.partial_cmp }
    ensures codes { ComparesBy code_order ⟦<KeyCode as Ord>⟧.cmp ⟦<KeyCode as PartialOrd>⟧.partial_cmp }
    ensures keys { ComparesBy key_order ⟦<KeyEvent as Ord>⟧.cmp ⟦<KeyEvent as PartialOrd>⟧.partial_cmp }
    ensures buttons { ComparesBy (rank_order buttons) ⟦<MouseButton as Ord>⟧.cmp ⟦<MouseButton as PartialOrd>⟧.partial_cmp }
    ensures mouse_kinds { ComparesBy mouse_kind_order ⟦<MouseEventKind as Ord>⟧.cmp ⟦<MouseEventKind as PartialOrd>⟧.partial_cmp }
    ensures mouse { ComparesBy mouse_order ⟦<MouseEvent as Ord>⟧.cmp ⟦<MouseEvent as PartialOrd>⟧.partial_cmp }
{}

/// The declared orders of events and of replies, in the same way. It does nothing when it runs.
pub fn declared_orders_of_events<A: Allocator>()
    ensures events { ComparesBy event_order ⟦<Event<A> as Ord>⟧.cmp ⟦<Event<A> as PartialOrd>⟧.partial_cmp }
    ensures replies { ComparesBy internal_order ⟦<InternalEvent<A> as Ord>⟧.cmp ⟦<InternalEvent<A> as PartialOrd>⟧.partial_cmp }
{}
