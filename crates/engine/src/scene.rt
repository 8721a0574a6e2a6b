// What moves are tried against.
ghost use Rattle.std.specs.Prelude.{◌≡◌, ℕ, ◌+◌, ◌%◌, ◌<◌, ◌≤◌, ◌≢◌, drop, length, slice_index};

use crate::mode::Mode;
use crate::slot::Slot;
use crate::window::Witnessed;
use tables::parts::Statement;

// The statements, and the events from position `base` on; whether the list has ended. Before this call so many events were judged, and each of the five
// places had so many configurations.
#[derive(Drop)]
pub struct Scene<'a, V> {
    pub(crate) statements: &'a [Statement],
    pub(crate) base: usize,
    pub(crate) events: &'a [Witnessed<V>],
    pub(crate) mode: Mode,
    pub(crate) judged: usize,
    pub(crate) before: &'a [usize; 5],
    ghost few: { length statements.now ≤ 64 },
    ghost short: { length events.now ≤ 4 },
    ghost early: { base + length events.now ≤ 16388 },
}

impl<'a, V> Scene<'a, V> {
    // The scene from a later position on, past so many events.
    pub(crate) fn past(&self, count: usize) -> Scene<'a, V>
        requires { count ≤ length self.now.events.now }
        ensures statements { result.statements.now ≡ self.now.statements.now }
        ensures base { result.base ≡ self.now.base + count }
        ensures events { result.events.now ≡ drop count self.now.events.now }
        ensures mode { result.mode ≡ self.now.mode }
        ensures judged { result.judged ≡ self.now.judged }
        ensures before { result.before.now ≡ self.now.before.now }
    {
        Scene {
            statements: self.statements,
            base: self.base + count,
            events: &self.events[count..],
            mode: self.mode,
            judged: self.judged,
            before: self.before,
        }
    }
}

// A position of a scene: the first, or one after some of its events.
#[derive(Drop)]
pub struct Position<'a, V> {
    pub(crate) scene: &'a Scene<'a, V>,
    pub(crate) number: usize,
    ghost from: { scene.now.base ≤ number },
    ghost to: { number ≤ scene.now.base + length scene.now.events.now },
}

impl<'a, V> Position<'a, V> {
    // How many configurations at the scene's first position had each statement that lands at this one decided by an earlier call: all the events that it
    // spans had come.
    pub(crate) fn decided(&self) -> usize
        ensures { (i : ℕ) → i < result → (self.now.number ≤ self.now.scene.now.judged) × (i < slice_index self.now.scene.now.before.now (self.now.scene.now.base % 5)) }
    {
        if self.number > self.scene.judged {
            return 0;
        }
        self.scene.before[Slot::of(self.scene.base).at]
    }

    // The first configuration at the scene's first position that is looked at: to the next position any may skip.
    pub(crate) fn first_tried(&self) -> usize
        ensures decided { (i : ℕ) → i < result → (self.now.number ≤ self.now.scene.now.judged) × (i < slice_index self.now.scene.now.before.now (self.now.scene.now.base % 5)) }
        ensures far { 0 < result → self.now.scene.now.base + 1 ≢ self.now.number }
    {
        if self.scene.base + 1 == self.number {
            return 0;
        }
        self.decided()
    }
}
