//! Elements that were found.

ghost use Rattle.std.specs.Prelude.{◌≡◌, ◌-◌, ◌≤◌, ◌<◌, ◌++◌, take, drop, [], OnOk, OnErr, IfOk, slice_get, length, true, false, ℕ};
ghost use Rattle.list_values.specs.Ranking.{placed};
ghost use Rattle.search_sets.specs.Keys.{is_before, in_order};
ghost use Rattle.search_sets.specs.Bests.{IsSplit, is_wanted, place_in};

use crate::Key;
use std::alloc::{AllocError, Global};
use std::marker::Model;

/// Elements that were found, which contracts see as the number that is wanted and the list of all in order.
///
/// The wanted ones are kept in order, so that the last of them is at hand, and the others as they came.
#[derive(Drop)]
pub struct Nearest {
    best: Vec<Key>,
    rest: Vec<Key>,
    most: usize,
}

impl Model for Nearest {
    ghost use Rattle.std.specs.Prelude.{List, ℕ, ◌++◌};
    ghost use Rattle.search_sets.specs.declared.key.Key.{Key};

    ghost Value = { ℕ × List Key };

    ghost use Rattle.search_sets.specs.Keys.{in_order};
    ghost use Rattle.search_sets.specs.Bests.{IsSplit};

    ghost view = { λ n. (n.most, n.best.items ++ in_order n.rest.items) };

    ghost invariant = { λ n. IsSplit n.most n.best.items n.rest.items };
}

impl Nearest {
    /// None yet, of which so many are to be wanted. It takes no memory.
    pub fn new(alloc: Global, most: usize) -> Nearest
        requires { 1 ≤ most }
        ensures { result ≡ (most, []) }
    {
        Nearest {
            best: Vec::new(alloc),
            rest: Vec::new(alloc),
            most,
        }
    }

    /// Takes all of them out; so many are to be wanted from now on. It takes no memory.
    pub fn clear(&mut self, most: usize)
        requires { 1 ≤ most }
        ensures { self.new ≡ (most, []) }
    {
        self.best.clear();
        self.rest.clear();
        self.most = most;
    }

    /// The last that is wanted, once there are as many.
    #[inline(always)]
    pub fn last(&self) -> Option<Key>
        ensures { result ≡ slice_get self.now.1 (self.now.0 - 1) }
    {
        last_of(&self.best, &self.rest, self.most)
    }

    /// Whether a further one would be among those that are wanted.
    #[inline(always)]
    pub fn wants(&self, key: &Key) -> bool
        ensures { result ≡ is_wanted key.now self.now }
    {
        match self.last() {
            None => true,
            Some(last) => !last.is_before(key),
        }
    }

    /// Puts one in, and says whether it is among those that are wanted. The one error is that there is no memory.
    #[inline(always)]
    pub fn put(&mut self, key: Key) -> Result<bool, AllocError>
        ensures wanted { IfOk result (λ wanted. wanted ≡ is_wanted key self.old) }
        ensures put { OnOk result (self.new ≡ (self.old.0, placed is_before key self.old.1)) }
    {
        let wanted = put_in(&mut self.best, &mut self.rest, self.most, key)?;
        Ok(wanted)
    }

    /// Those that are wanted, in order.
    pub fn wanted(&self) -> &[Key]
        ensures { result.now ≡ take self.now.0 self.now.1 }
    {
        wanted_of(&self.best, &self.rest, self.most)
    }

    /// So many are to be wanted from now on; all that were found stay. The one error is that there is no memory, and then nothing is
    /// said of those that stay.
    pub fn want(&mut self, most: usize) -> Result<(), AllocError>
        requires { 1 ≤ most }
        ensures { OnOk result (self.new ≡ (most, self.old.1)) }
    {
        if most == self.most {
            return Ok(());
        }
        let all = all_of(&self.best, &self.rest, self.most)?;
        self.best.clear();
        self.rest.clear();
        self.most = most;
        put_all(&mut self.best, &mut self.rest, most, &all)?;
        Ok(())
    }

    /// Lets go of those that are wanted; the others stay. The one error is that there is no memory, and then nothing is said of
    /// those that stay.
    pub fn drop_wanted(&mut self) -> Result<(), AllocError>
        ensures { OnOk result (self.new ≡ (self.old.0, drop self.old.0 self.old.1)) }
    {
        drop_best(&mut self.best, &mut self.rest, self.most)?;
        Ok(())
    }
}

fn wanted_of<'a>(best: &'a [Key], rest: &[Key], most: usize) -> &'a [Key]
    requires { IsSplit most best.now rest.now }
    ensures { result.now ≡ take most (best.now ++ in_order rest.now) }
{
    let _ = rest;
    let _ = most;
    best
}

// Both in one list.
fn all_of(best: &Vec<Key>, rest: &Vec<Key>, most: usize) -> Result<Vec<Key>, AllocError>
    requires { IsSplit most best.now.items rest.now.items }
    ensures { IfOk result (λ all. in_order all.items ≡ best.now.items ++ in_order rest.now.items) }
{
    let _ = most;
    let mut all = Vec::new(*rest.allocator());
    all.extend_from_slice(best)?;
    all.extend_from_slice(rest)?;
    Ok(all)
}

fn drop_best(best: &mut Vec<Key>, rest: &mut Vec<Key>, most: usize) -> Result<(), AllocError>
    requires { IsSplit most best.old.items rest.old.items }
    ensures split { IsSplit most best.new.items rest.new.items }
    ensures left { OnOk result (best.new.items ++ in_order rest.new.items ≡ drop most (best.old.items ++ in_order rest.old.items)) }
{
    let alloc = *rest.allocator();
    let others = std::mem::replace(rest, Vec::new(alloc));
    best.clear();
    put_all(best, rest, most, &others)?;
    Ok(())
}

// Puts these in where there are none.
fn put_all(
    best: &mut Vec<Key>,
    rest: &mut Vec<Key>,
    most: usize,
    others: &[Key],
) -> Result<(), AllocError>
    requires some { 1 ≤ most }
    requires no_best { best.old.items ≡ [] }
    requires no_rest { rest.old.items ≡ [] }
    ensures split { IsSplit most best.new.items rest.new.items }
    ensures whole { OnOk result (best.new.items ++ in_order rest.new.items ≡ in_order others.now) }
{
    for key in others {
        put_in(best, rest, most, *key)?;
    }
    Ok(())
}

#[inline(always)]
fn last_of(best: &[Key], rest: &[Key], most: usize) -> Option<Key>
    requires { IsSplit most best.now rest.now }
    ensures { result ≡ slice_get (best.now ++ in_order rest.now) (most - 1) }
{
    let _ = rest;
    best.get(most - 1).copied()
}

#[inline(always)]
fn put_in(
    best: &mut Vec<Key>,
    rest: &mut Vec<Key>,
    most: usize,
    key: Key,
) -> Result<bool, AllocError>
    requires { IsSplit most best.old.items rest.old.items }
    ensures split { IsSplit most best.new.items rest.new.items }
    ensures wanted { IfOk result (λ wanted. wanted ≡ is_wanted key (most, best.old.items ++ in_order rest.old.items)) }
    ensures whole { OnOk result (best.new.items ++ in_order rest.new.items
        ≡ placed is_before key (best.old.items ++ in_order rest.old.items)) }
{
    let items = best.as_slice();
    if items.len() < most {
        insert(best, key)?;
        return Ok(true);
    }
    let last = items[most - 1];
    if last.is_before(&key) {
        rest.push(key)?;
        return Ok(false);
    }
    insert(best, key)?;
    best.truncate(most);
    rest.push(last)?;
    Ok(true)
}

// Puts a key at its place.
fn insert(best: &mut Vec<Key>, key: Key) -> Result<(), AllocError>
    ensures ok { OnOk result (best.new.items ≡ placed is_before key best.old.items) }
    ensures err { OnErr result (best.new.items ≡ best.old.items) }
{
    let at = place_for(best, &key);
    best.insert(at, key)?;
    Ok(())
}

// Where a key stands in a list.
fn place_for(best: &[Key], key: &Key) -> usize
    ensures within { result ≤ length best.now }
    ensures place { result ≡ place_in is_before key.now best.now }
{
    let mut at = 0;
    while at < best.len() && best[at].is_before(key) {
        at += 1;
    }
    at
}
