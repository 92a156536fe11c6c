//! Elements that wait to be expanded.

ghost use Rattle.std.specs.Prelude.{◌≡◌, [], ◌∷◌, ◌++◌, OnOk, IfOk, MatchOption, slice_get, false};
ghost use Rattle.std.specs.List.Sorted.{IsPermutation};
ghost use Rattle.std.specs.BinaryHeap.{heap_items, IsHeap};
ghost use Rattle.list_values.specs.Ranking.{placed};
ghost use Rattle.search_sets.specs.Keys.{is_before, urgency, in_order};
ghost use Rattle.search_sets.specs.Leading.{IsLed, IsTaken, Leads, IsFirst};

use crate::Key;
use std::alloc::{AllocError, Global};
use std::collections::BinaryHeap;
use std::marker::Model;

/// Elements that wait to be expanded, which contracts see as the list in order.
///
/// Those that may still be taken lie in a heap. The others lie as they came, but for their nearest, which comes first: while
/// they are not taken, they cost one comparison each. If one of them is to be taken after all, they join the heap.
#[derive(Drop)]
pub struct Candidates {
    near: BinaryHeap<Key>,
    far: Vec<Key>,
}

impl Model for Candidates {
    ghost use Rattle.std.specs.Prelude.{List, ◌++◌};
    ghost use Rattle.search_sets.specs.declared.key.Key.{Key};
    ghost use Rattle.search_sets.specs.Keys.{urgency, in_order};
    ghost use Rattle.search_sets.specs.Leading.{IsLed};
    ghost use Rattle.std.specs.BinaryHeap.{heap_items, IsHeap};

    ghost Value = { List Key };

    ghost view = { λ c. in_order (heap_items c.near ++ c.far.items) };

    ghost invariant = { λ c. IsHeap urgency (heap_items c.near) × IsLed c.far.items };
}

impl Candidates {
    /// None yet. It takes no memory.
    pub fn new(alloc: Global) -> Candidates
        ensures { result ≡ [] }
    {
        Candidates {
            near: BinaryHeap::new(alloc),
            far: Vec::new(alloc),
        }
    }

    /// Takes all of them out. It takes no memory.
    pub fn clear(&mut self)
        ensures { self.new ≡ [] }
    {
        self.near.clear();
        self.far.clear();
    }

    /// Puts one in that may be taken. The one error is that there is no memory.
    pub fn push(&mut self, key: Key) -> Result<(), AllocError>
        ensures { OnOk result (self.new ≡ placed is_before key self.old) }
    {
        self.near.push(key)?;
        Ok(())
    }

    /// Puts one in that is not likely to be taken. Which of the two is called is a matter of speed alone. The one error is
    /// that there is no memory.
    pub fn push_far(&mut self, key: Key) -> Result<(), AllocError>
        ensures { OnOk result (self.new ≡ placed is_before key self.old) }
    {
        put_far(&mut self.far, key)?;
        Ok(())
    }

    /// The nearest.
    pub fn first(&self) -> Option<Key>
        ensures { result ≡ slice_get self.now 0 }
    {
        first_of(&self.near, &self.far)
    }

    /// Takes the nearest out. The one error is that there is no memory, and then nothing is said of the others.
    pub fn take_first(&mut self) -> Result<Option<Key>, AllocError>
        ensures { IfOk result (λ r. MatchOption r ((self.old ≡ []) × (self.new ≡ []))
            (λ key. self.old ≡ key ∷ self.new)) }
    {
        let taken = take_of(&mut self.near, &mut self.far)?;
        Ok(taken)
    }
}

fn put_far(far: &mut Vec<Key>, key: Key) -> Result<(), AllocError>
    requires { IsLed far.old.items }
    ensures led { IsLed far.new.items }
    ensures ok { OnOk result (IsPermutation (key ∷ far.old.items) far.new.items) }
{
    let items = far.as_slice();
    if items.is_empty() {
        far.push(key)?;
        return Ok(());
    }
    let first = items[0];
    if key.is_before(&first) {
        far.push(first)?;
        far[0] = key;
        return Ok(());
    }
    far.push(key)?;
    Ok(())
}

fn near_first(near: &BinaryHeap<Key>) -> Option<Key>
    requires { IsHeap urgency (heap_items near.now) }
    ensures { MatchOption result (heap_items near.now ≡ []) (λ k. Leads k (heap_items near.now)) }
{
    if near.as_slice().is_empty() {
        return None;
    }
    match near.peek() {
        Some(key) => Some(*key),
        None => None,
    }
}

fn far_first(far: &[Key]) -> Option<Key>
    requires { IsLed far.now }
    ensures { MatchOption result (far.now ≡ []) (λ k. Leads k far.now) }
{
    if far.is_empty() {
        return None;
    }
    Some(far[0])
}

fn first_of(near: &BinaryHeap<Key>, far: &[Key]) -> Option<Key>
    requires heap { IsHeap urgency (heap_items near.now) }
    requires led { IsLed far.now }
    ensures { result ≡ slice_get (in_order (heap_items near.now ++ far.now)) 0 }
{
    let Some(a) = near_first(near) else {
        return far_first(far);
    };
    let Some(b) = far_first(far) else {
        return Some(a);
    };
    if b.is_before(&a) {
        return Some(b);
    }
    Some(a)
}

// The far ones join the others. After an Err some have, and are far ones still.
fn gather(near: &mut BinaryHeap<Key>, far: &mut Vec<Key>) -> Result<(), AllocError>
    requires heap { IsHeap urgency (heap_items near.old) }
    requires led { IsLed far.old.items }
    ensures heap { IsHeap urgency (heap_items near.new) }
    ensures led { IsLed far.new.items }
    ensures whole { OnOk result (IsPermutation (heap_items near.old ++ far.old.items) (heap_items near.new)) }
    ensures none { OnOk result (far.new.items ≡ []) }
{
    join(near, far)?;
    far.clear();
    Ok(())
}

fn join(near: &mut BinaryHeap<Key>, far: &[Key]) -> Result<(), AllocError>
    requires { IsHeap urgency (heap_items near.old) }
    ensures heap { IsHeap urgency (heap_items near.new) }
    ensures whole { OnOk result (IsPermutation (heap_items near.old ++ far.now) (heap_items near.new)) }
{
    for key in far {
        near.push(*key)?;
    }
    Ok(())
}

// The heap's first, which leads the far ones too.
fn take_near(near: &mut BinaryHeap<Key>, far: &[Key]) -> Option<Key>
    requires heap { IsHeap urgency (heap_items near.old) }
    requires leads { IsFirst (heap_items near.old) far.now }
    ensures heap { IsHeap urgency (heap_items near.new) }
    ensures whole { IsTaken (heap_items near.old ++ far.now) (heap_items near.new ++ far.now) result }
{
    if near.as_slice().is_empty() {
        return None;
    }
    let Some(key) = near.pop() else {
        return None;
    };
    Some(key)
}

fn take_of(near: &mut BinaryHeap<Key>, far: &mut Vec<Key>) -> Result<Option<Key>, AllocError>
    requires heap { IsHeap urgency (heap_items near.old) }
    requires led { IsLed far.old.items }
    ensures heap { IsHeap urgency (heap_items near.new) }
    ensures led { IsLed far.new.items }
    ensures whole { IfOk result (IsTaken (heap_items near.old ++ far.old.items) (heap_items near.new ++ far.new.items)) }
{
    if is_far_first(near, far) {
        gather(near, far)?;
        let taken = take_near(near, far);
        return Ok(taken);
    }
    let taken = take_near(near, far);
    Ok(taken)
}

// Whether a far one is the first.
fn is_far_first(near: &BinaryHeap<Key>, far: &[Key]) -> bool
    requires heap { IsHeap urgency (heap_items near.now) }
    requires led { IsLed far.now }
    ensures { result ≡ false → IsFirst (heap_items near.now) far.now }
{
    let Some(b) = far_first(far) else {
        return false;
    };
    let Some(a) = near_first(near) else {
        return true;
    };
    b.is_before(&a)
}
