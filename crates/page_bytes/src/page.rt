//! A page in its bytes.

ghost use Rattle.std.specs.Prelude.{◌≡◌, ℕ, List, ◌+◌, ◌-◌, ◌*◌, ◌<◌, ◌≤◌, ◌↔◌, [], ◌∷◌, ◌++◌, length, slice_set, Some, None, IsNone, IfSome, IfNone};
ghost use Rattle.std.specs.Prelude.{OnSome, IsSomeAnd, IfOk, IfErr, Ok, All, min, take};
ghost use Rattle.std.specs.List.Sorted.{IsStrictlyIncreasing};
ghost use Rattle.std.specs.Option.{option_copied};
ghost use Rattle.page_bytes.specs.Content.{IsPage, round8, free_of, item_at, others};
ghost use Rattle.page_bytes.specs.Content.{Content};
ghost use Rattle.page_bytes.specs.Decoding.{Spells};
ghost use Rattle.page_bytes.specs.Faults.{IsFirstFault};
ghost use Rattle.page_bytes.specs.Spelling.{spelling};
ghost use Rattle.page_bytes.specs.Splice.{with_item};
ghost use Rattle.page_bytes.specs.declared.kind.PageKind.TheVariants.{IvfEntries};

use crate::bytes::{
    KIND, LOWER, NEXT, SIZE, UPPER, change_part, item_named_by, put, put_pointer, round_up_8,
    u16_at, u32_at, u64_at,
};
use crate::change::ItemChange;
use crate::drops::drop_from;
use crate::fault::PageFault;
use crate::kind::{PageKind, kind_of, word_of};
use crate::reading::first_fault;
use index_sizes::{MOST_ITEM, PAGE_END, PAGE_SIZE};
use std::marker::Model;

/// A page of 8,192 bytes, which it holds in place.
#[derive(Drop)]
pub struct Page {
    bytes: [u8; SIZE],
}

impl Model for Page {
    ghost use Rattle.page_bytes.specs.Content.{Content};
    ghost use Rattle.page_bytes.specs.Decoding.{content, IsSpelled};

    ghost Value = { Content };

    ghost view = { λ p. content p.bytes };

    ghost invariant = { λ p. IsSpelled p.bytes };
}

impl Page {
    /// A page with no items.
    pub fn fresh(kind: PageKind) -> Page
        ensures { result ≡ record { kind = kind; next = None; number = 0; items = [] } }
    {
        let mut bytes = [0; SIZE];
        put(
            &mut bytes,
            LOWER,
            &[24, 0, 0xF8, 0x1F, 0xF8, 0x1F, 0x04, 0x20],
        );
        put(
            &mut bytes,
            NEXT,
            &[0xFF, 0xFF, 0xFF, 0xFF, 0, 0, word_of(kind), 0],
        );
        Page { bytes }
    }

    /// The page's one spelling, 8,192 bytes.
    pub fn bytes(&self) -> &[u8]
        ensures spelling { result.now ≡ spelling self.now }
        ensures page { IsPage self.now }

        // No other content has these bytes.
        ensures only { (p : Content) → Spells result.now p → p ≡ self.now }
    {
        &self.bytes
    }

    /// What the page is for.
    #[tactic(auto, unfolding(crate::specs::Decoding::content))]
    pub fn kind(&self) -> PageKind
        ensures { result ≡ self.now.kind }
    {
        kind_of(u16_at(&self.bytes, KIND))
    }

    /// The block of the next page of the same list. Only pages of kind `IvfEntries` have one.
    #[tactic(auto, unfolding(crate::specs::Decoding::content))]
    pub fn next(&self) -> Option<u32>
        ensures { result ≡ self.now.next }
    {
        let next = u32_at(&self.bytes, NEXT);
        if next == u32::MAX { None } else { Some(next) }
    }

    /// The number of the last event that changed the page, and 0 where there is none.
    #[tactic(auto, unfolding(crate::specs::Decoding::content))]
    pub fn number(&self) -> u64
        ensures { result ≡ self.now.number }
    {
        u64_at(&self.bytes, 0)
    }

    /// How many items the page has.
    pub fn count(&self) -> u16
        ensures { result ≡ length self.now.items }
    {
        (u16_at(&self.bytes, LOWER) - 24) / 4
    }

    /// The bytes that are left, `pd_upper` less `pd_lower`.
    pub fn free(&self) -> u16
        ensures { result ≡ free_of self.now }
    {
        u16_at(&self.bytes, UPPER) - u16_at(&self.bytes, LOWER)
    }

    /// The item at an offset, which is 1 for the first. It is None exactly where the offset is 0 or past the last item.
    pub fn item(&self, off: u16) -> Option<&[u8]>
        ensures { option_copied result ≡ item_at self.now.items off }
    {
        if off == 0 || off > self.count() {
            return None;
        }
        let pointer = u32_at(&self.bytes, 20 + 4 * usize::from(off));
        Some(item_named_by(&self.bytes, pointer))
    }

    /// Adds an item of 1 to 8,156 bytes, and gives its offset. It is None, and the page stays, exactly where the
    /// item's bytes, rounded up to a multiple of 8, and its line pointer of 4 bytes take more than is free.
    pub fn add_item(&mut self, bytes: &[u8]) -> Option<u16>
        requires some { 0 < length bytes.now }
        requires small { length bytes.now ≤ MOST_ITEM }
        ensures refused { IsNone result ↔ (free_of self.old < round8 (length bytes.now) + 4) }
        ensures kept { IfNone result (self.new ≡ self.old) }
        ensures offset { IfSome result (λ off. off ≡ length self.old.items + 1) }
        ensures added { OnSome result
            (self.new ≡ record self.old { items = self.old.items ++ bytes.now ∷ [] }) }
    {
        let lower = u16_at(&self.bytes, LOWER);
        let upper = u16_at(&self.bytes, UPPER);
        let room = round_up_8(bytes.len());
        if upper - lower < room + 4 {
            return None;
        }
        place_item(&mut self.bytes, lower, upper - room, bytes);
        Some((lower - 20) / 4)
    }

    /// Writes over an item that is there, by as many bytes.
    pub fn overwrite(&mut self, off: u16, bytes: &[u8])
        requires { IsSomeAnd (item_at self.old.items off) (λ x. length x ≡ length bytes.now) }
        ensures { self.new ≡ record self.old { items = slice_set self.old.items (off - 1) bytes.now } }
    {
        let old = u32_at(&self.bytes, 20 + 4 * usize::from(off));
        put(&mut self.bytes, (old % 0x8000) as usize, bytes);
    }

    /// Changes an item that is there, where it stands.
    pub fn change_item<C: ItemChange>(&mut self, off: u16, change: &C)
        requires { IsSomeAnd (item_at self.old.items off) (λ x. C.fits change.now x) }
        ensures { IsSomeAnd (item_at self.old.items off) (λ x. (y : List ℕ) × C.makes change.now x y
            × (self.new ≡ record self.old { items = slice_set self.old.items (off - 1) y })) }
    {
        let pointer = u32_at(&self.bytes, 20 + 4 * usize::from(off));
        change_part(
            &mut self.bytes,
            (pointer % 0x8000) as usize,
            (pointer / 0x2_0000) as usize,
            change,
        );
    }

    /// Drops the items at some offsets, which are there and rise. The others close up in their order.
    pub fn drop_items(&mut self, gone: &[u16])
        requires there { All (λ off. (0 < off) × (off ≤ length self.old.items)) gone.now }
        requires rising { IsStrictlyIncreasing gone.now }
        ensures { self.new ≡ record self.old { items = others gone.now 1 self.old.items } }
    {
        drop_from(&mut self.bytes, gone);
    }

    /// Sets the next block of a page of kind `IvfEntries`. A block is below 0xFFFFFFFF.
    pub fn set_next(&mut self, next: Option<u32>)
        requires kind { self.old.kind ≡ IvfEntries }
        requires block { IfSome next (λ block. block < 0xFFFFFFFF) }
        ensures { self.new ≡ record self.old { next = next } }
    {
        put(
            &mut self.bytes,
            NEXT,
            &next.unwrap_or(u32::MAX).to_le_bytes(),
        );
    }

    /// Sets the number of the last event that changed the page.
    pub fn set_number(&mut self, number: u64)
        ensures { self.new ≡ record self.old { number = number } }
    {
        put(&mut self.bytes, 0, &number.to_le_bytes());
    }

    /// An equal page.
    pub fn copied(&self) -> Page
        ensures { result ≡ self.now }
    {
        Page { bytes: self.bytes }
    }
}

/// Reads a page. It is Ok exactly for the 8,192 bytes that spell one.
pub fn read_page(bytes: &[u8]) -> Result<Page, PageFault>
    ensures found { IfOk result (λ p. Spells bytes.now p) }
    ensures only { (p : Content) → Spells bytes.now p → result ≡ Ok p }
    ensures fault { IfErr result (λ fault. IsFirstFault bytes.now fault.at) }
{
    let whole = first_bytes(bytes);
    let at = first_fault(&whole);
    if at == PAGE_SIZE as u16 && bytes.len() == SIZE {
        return Ok(Page { bytes: whole });
    }
    Err(PageFault {
        at: usize::from(at).min(bytes.len()) as u16,
    })
}

/// The first 8,192 bytes, where there are fewer with zeros behind them.
fn first_bytes(bytes: &[u8]) -> [u8; SIZE]
    ensures long { length result ≡ PAGE_SIZE }
    ensures same { let count = min (length bytes.now) PAGE_SIZE in
        take count result ≡ take count bytes.now }
{
    let mut whole = [0; SIZE];
    let count = bytes.len().min(SIZE);
    put(&mut whole, 0, &bytes[..count]);
    whole
}

/// Writes an item that has room, its line pointer, and where both end now: `lower` is where the line pointers
/// end, and `place` is where the item goes.
fn place_item(bytes: &mut [u8], lower: u16, place: u16, item: &[u8])
    requires long { length bytes.old ≡ PAGE_SIZE }
    requires room { lower + 4 ≤ place }
    requires fits { place + length item.now ≤ PAGE_END }
    ensures { bytes.new ≡ with_item bytes.old lower place item.now }
{
    put(bytes, usize::from(place), item);
    put_pointer(bytes, usize::from(lower), place, item.len() as u32);
    put(bytes, LOWER, &(lower + 4).to_le_bytes());
    put(bytes, UPPER, &place.to_le_bytes());
}
