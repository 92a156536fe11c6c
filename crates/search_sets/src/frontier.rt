//! What a search holds on its way.

ghost use Rattle.std.specs.Prelude.{◌≡◌, ◌≤◌, ◌∷◌, [], OnOk, IfOk, MatchOption, map};
ghost use Rattle.graph_search.specs.Search.{filled};
ghost use Rattle.graph_search.specs.Scan.{is_over};
ghost use Rattle.graph_search.specs.ByHolding.{HoldTheSame, batch_of, unnamed};
ghost use Rattle.search_sets.specs.Standing.{IsWhole, TakesLeast, begun_from, found_at, held, holds_nothing, known_earlier, wanted, with_elements};
ghost use Rattle.search_sets.specs.Standing.{with_names, without_batch};

use crate::candidates::Candidates;
use crate::copying::{copy_of, found_of, has_rows};
use crate::keeping::{is_ended, keep, key_for, name_all, queue, spot_in};
use crate::key::Key;
use crate::nearest::Nearest;
use crate::places::Places;
use crate::spot::Spot;
use arrayvec::ArrayVec;
use bit_code::Bits;
use bit_dist::Dist;
use neighbour_pick::Found;
use std::alloc::{AllocError, Global};
use vec_names::{HeapId, Listed, Tid};

/// What a search holds on its way: the elements that it knows, in the order in which they came; the places that were named;
/// the elements that wait to be expanded; and those that were found. Contracts tell it by `held`, in the words of what a
/// search is.
///
/// It serves one search after the other, and keeps its memory. Each error is want of memory, and then nothing is said of what
/// it holds.
#[derive(Drop)]
pub struct Frontier {
    known: Listed<Found>,
    named: Places,
    ahead: Candidates,
    found: Nearest,
    // How many were known to an earlier batch.
    earlier: usize,
}

impl Frontier {
    /// One that holds nothing, of a search that wants so many.
    pub fn new(alloc: Global, ef: usize) -> Result<Frontier, AllocError>
        requires { 1 ≤ ef }
        ensures whole { IfOk result IsWhole }
        ensures wanted { IfOk result (λ f. wanted f ≡ ef) }
        ensures nothing { IfOk result (λ f. HoldTheSame (held f) holds_nothing) }
    {
        Ok(Frontier {
            known: Listed::new(alloc),
            named: Places::new(alloc)?,
            ahead: Candidates::new(alloc),
            found: Nearest::new(alloc, ef),
            earlier: 0,
        })
    }

    /// Lets go of all that it holds; so many are to be wanted from now on. It needs no memory, and gives none back.
    pub fn clear(&mut self, ef: usize)
        requires { 1 ≤ ef }
        ensures whole { IsWhole self.new }
        ensures wanted { wanted self.new ≡ ef }
        ensures nothing { HoldTheSame (held self.new) holds_nothing }
    {
        self.known.clear();
        self.named.clear();
        self.ahead.clear();
        self.found.clear(ef);
        self.earlier = 0;
    }

    /// So many are to be wanted from now on; what is held stays.
    pub fn want(&mut self, ef: usize) -> Result<(), AllocError>
        requires some { 1 ≤ ef }
        requires whole { IsWhole self.old }
        ensures whole { OnOk result (IsWhole self.new) }
        ensures wanted { OnOk result (wanted self.new ≡ ef) }
        ensures same { OnOk result (HoldTheSame (held self.new) (held self.old)) }
    {
        self.found.want(ef)?;
        Ok(())
    }

    /// Begins another batch: all that are known now, an earlier batch knew.
    pub fn begin_batch(&mut self)
        requires { IsWhole self.old }
        ensures whole { IsWhole self.new }
        ensures wanted { wanted self.new ≡ wanted self.old }
        ensures earlier { HoldTheSame (held self.new) (known_earlier (held self.old)) }
    {
        self.earlier = self.known.len();
    }

    /// Begins a search from these, where nothing is held.
    pub fn begin(&mut self, from: &[Found]) -> Result<(), AllocError>
        requires whole { IsWhole self.old }
        requires nothing { HoldTheSame (held self.old) holds_nothing }
        ensures whole { OnOk result (IsWhole self.new) }
        ensures wanted { OnOk result (wanted self.new ≡ wanted self.old) }
        ensures begun { OnOk result (HoldTheSame (held self.new) (begun_from from.now)) }
    {
        for element in from {
            self.begin_with(element)?;
        }
        Ok(())
    }

    // Names a place, and adds the element that stands there.
    fn begin_with(&mut self, element: &Found) -> Result<(), AllocError>
        requires { IsWhole self.old }
        ensures whole { OnOk result (IsWhole self.new) }
        ensures wanted { OnOk result (wanted self.new ≡ wanted self.old) }
        ensures added { OnOk result (HoldTheSame (held self.new)
            (with_elements (element.now ∷ []) (with_names (element.now.at ∷ []) (held self.old)))) }
    {
        self.named.insert(element.at)?;
        let spot = Spot {
            at: element.at,
            list_at: element.list_at,
            level: element.level,
            version: element.version,
        };
        self.add(spot, element.dist, &element.ids, &element.bits)?;
        Ok(())
    }

    /// Whether the search is over: nothing waits, or at least as many are found as are wanted, and the least that waits comes
    /// after the last that is wanted; or as many are known as may be, if that is bounded.
    pub fn is_over(&self, most: Option<u64>) -> bool
        requires { IsWhole self.now }
        ensures { result ≡ is_over (wanted self.now) most (held self.now) }
    {
        is_ended(
            self.ahead.first(),
            self.found.last(),
            most,
            self.known.len(),
        )
    }

    /// Takes out the least that waits, if one does, and tells where it stands.
    pub fn take_least(&mut self) -> Result<Option<Spot>, AllocError>
        requires { IsWhole self.old }
        ensures whole { OnOk result (IsWhole self.new) }
        ensures wanted { OnOk result (wanted self.new ≡ wanted self.old) }
        ensures least { IfOk result (λ spot. MatchOption spot ((held self.old).unexpanded ≡ [])
            (TakesLeast (held self.old) (held self.new))) }
    {
        let Some(key) = self.ahead.take_first()? else {
            return Ok(None);
        };
        Ok(Some(spot_in(self.known.as_slice(), key)))
    }

    /// Names the places of these slots, and adds those that were not named before to a list that has none, each at its first
    /// mention.
    pub fn name(&mut self, slots: &[Option<Tid>], fresh: &mut Listed<Tid>) -> Result<(), AllocError>
        requires whole { IsWhole self.old }
        requires none { fresh.old ≡ [] }
        ensures whole { OnOk result (IsWhole self.new) }
        ensures wanted { OnOk result (wanted self.new ≡ wanted self.old) }
        ensures fresh { OnOk result (fresh.new ≡ unnamed (held self.old).is_named (filled slots.now)) }
        ensures named { OnOk result (HoldTheSame (held self.new) (with_names (filled slots.now) (held self.old))) }
    {
        name_all(&mut self.named, slots, fresh)?;
        Ok(())
    }

    /// Adds an element, which has become known. Its rows and its value are copied.
    pub fn add(
        &mut self,
        spot: Spot,
        dist: Dist,
        ids: &ArrayVec<HeapId, 10>,
        bits: &Bits,
    ) -> Result<(), AllocError>
        requires { IsWhole self.old }
        ensures whole { OnOk result (IsWhole self.new) }
        ensures wanted { OnOk result (wanted self.new ≡ wanted self.old) }
        ensures added { OnOk result (HoldTheSame (held self.new)
            (with_elements (found_at spot dist ids.now.items bits.now ∷ []) (held self.old))) }
    {
        let key = key_for(self.known.len(), spot.at, dist)?;
        let is_live = has_rows(ids);
        self.known.push(found_of(spot, dist, ids, bits)?)?;
        let wanted = keep(&mut self.found, key, is_live)?;
        queue(&mut self.ahead, key, wanted)?;
        Ok(())
    }

    /// The elements that were found and are wanted, in order, each a copy.
    pub fn found(&self, alloc: Global) -> Result<Listed<Found>, AllocError>
        requires { IsWhole self.now }
        ensures { IfOk result (λ found. found ≡ map (λ p. p.0) (batch_of (wanted self.now) (held self.now))) }
    {
        let mut found = Listed::new(alloc);
        for key in self.found.wanted() {
            found.push(copy_of(&self.known.as_slice()[key.index as usize])?)?;
        }
        Ok(found)
    }

    /// Takes the elements that were found and are wanted, in order, each a copy, with whether an earlier batch knew it. The others
    /// that were found stay.
    pub fn take_batch(&mut self, alloc: Global) -> Result<Listed<(Found, bool)>, AllocError>
        requires { IsWhole self.old }
        ensures batch { IfOk result (λ batch. batch ≡ batch_of (wanted self.old) (held self.old)) }
        ensures whole { OnOk result (IsWhole self.new) }
        ensures wanted { OnOk result (wanted self.new ≡ wanted self.old) }
        ensures left { OnOk result (HoldTheSame (held self.new) (without_batch (wanted self.old) (held self.old))) }
    {
        let batch = self.batch(alloc)?;
        self.found.drop_wanted()?;
        Ok(batch)
    }

    // Copies of those that are wanted, with whether an earlier batch knew them.
    fn batch(&self, alloc: Global) -> Result<Listed<(Found, bool)>, AllocError>
        requires { IsWhole self.now }
        ensures { IfOk result (λ batch. batch ≡ batch_of (wanted self.now) (held self.now)) }
    {
        let mut batch = Listed::new(alloc);
        for key in self.found.wanted() {
            let number = key.index as usize;
            let element = copy_of(&self.known.as_slice()[number])?;
            batch.push((element, number < self.earlier))?;
        }
        Ok(batch)
    }
}
