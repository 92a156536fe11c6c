use crate::{ItemChange, Page, PageKind, read_page};

/// Each byte of an item becomes this one.
#[derive(Drop)]
struct Fill(u8);

impl ItemChange for Fill {
    ghost use Rattle.std.specs.Prelude.{◌≡◌, length, replicate};

    ghost fits = { λ change old. Unit {0} };

    ghost makes = { λ change old new. new ≡ replicate (length old) change.0 };

    fn change(&self, item: &mut [u8]) {
        item.fill(self.0);
    }
}

#[test]
fn an_item_is_changed_where_it_stands(rt: HostRuntime) {
    let mut page = two_items();
    assert!(rt; page.item(2) == Some([1, 2, 3, 4, 5].as_slice()));
    page.change_item(2, &Fill(7));
    assert!(rt; page.item(2) == Some([7, 7, 7, 7, 7].as_slice()));
    assert!(rt; page.item(1) == page.bytes().get(8096..8177) && page.number() == 0x0102_0304);
}

// A page of two items: 81 bytes at 8,096 and 5 bytes at 8,088.
fn two_items() -> Page {
    let mut page = Page::fresh(PageKind::IvfEntries);
    page.set_number(0x0102_0304);
    page.set_next(Some(7));
    page.add_item(&[9; 81]);
    page.add_item(&[1, 2, 3, 4, 5]);
    page
}

fn shown(page: &Page) -> (PageKind, Option<u32>, u64, u16, u16) {
    (
        page.kind(),
        page.next(),
        page.number(),
        page.count(),
        page.free(),
    )
}

#[test]
fn items_come_and_go(rt: HostRuntime) {
    let mut page = two_items();
    assert_eq!(rt;
        shown(&page),
        (PageKind::IvfEntries, Some(7), 0x0102_0304, 2, 8056)
    );

    // An item of 81 bytes, first on its page, stands at 8,096.
    let start = (
        page.bytes().get(24..28),
        page.item(0),
        page.item(1),
        page.item(3),
    );
    assert!(rt;
        start
            == (
                Some(&[0xA0, 0x9F, 0xA2, 0x00]),
                None,
                page.bytes().get(8096..8177),
                None
            )
    );

    // Of three items without the first and the third, the former second is the first.
    let copy = page.copied();
    assert!(rt; page.item(2) == Some([1, 2, 3, 4, 5].as_slice()));
    page.overwrite(2, &[6, 7, 8, 9, 10]);
    page.add_item(&[3]);
    assert_eq!(rt; page.count(), 3);
    page.drop_items(&[1, 3]);
    assert_eq!(rt;
        shown(&page),
        (PageKind::IvfEntries, Some(7), 0x0102_0304, 1, 8148)
    );
    assert!(rt; (page.item(1), copy.item(3)) == (Some(&[6, 7, 8, 9, 10]), None));
}

#[test]
fn an_exact_fit_is_added(rt: HostRuntime) {
    let mut page = Page::fresh(PageKind::Hnsw);
    let more = (page.add_item(&[1; 8153]), page.free());
    assert_eq!(rt; more, (None, 8160));
    let fit = (page.add_item(&[1; 8152]), page.free(), page.add_item(&[1]));
    assert_eq!(rt; fit, (Some(1), 4, None));
}

fn fault_of(bytes: &[u8]) -> Option<u16> {
    read_page(bytes).err().map(|fault| fault.at)
}

// The fault of 8,192 bytes with another byte at a place, or with a byte more.
fn fault_with(bytes: &[u8], place: u16, byte: u8) -> Option<u16> {
    let mut changed = [0; 8193];
    let count = bytes.len().min(8192);
    changed[..count].copy_from_slice(&bytes[..count]);
    if let Some(b) = changed.get_mut(usize::from(place)) {
        *b = byte;
    }
    fault_of(
        changed
            .get(..usize::from(place.max(8191)) + 1)
            .unwrap_or(bytes),
    )
}

#[test]
fn faults_are_found_where_they_begin(rt: HostRuntime) {
    let page = two_items();
    let good = page.bytes();
    assert!(rt; read_page(good).is_ok());

    // A place, the byte that stands there, and the place of the fault.
    for (place, byte, at) in [
        // pd_checksum and pd_flags are 0
        (8, 1, 8),
        (11, 1, 11),
        // pd_lower is 24 and a multiple of 4 more, up to 2,744
        (12, 33, 12),
        (13, 11, 13),
        // three line pointers: the first item leaves too little room for two more
        (12, 36, 24),
        // pd_upper is a multiple of 8, and leaves 8 bytes for each of two items
        (14, 0x99, 14),
        (14, 0xF8, 15),
        (15, 0x20, 15),
        // pd_special, pd_pagesize_version and pd_prune_xid
        (16, 0, 16),
        (17, 0, 17),
        (18, 5, 18),
        (19, 0, 19),
        (20, 1, 20),
        (23, 1, 23),
        // the first line pointer: its place, its flags, its length
        (24, 0xA1, 24),
        (25, 0x1F, 25),
        (26, 0xA3, 26),
        (26, 0xB2, 26),
        (27, 1, 27),
        // the second one names the place of the first
        (28, 0xA0, 28),
        // between line pointers and items
        (32, 1, 32),
        (4000, 1, 4000),
        (8087, 1, 8087),
        // behind the items' own bytes
        (8093, 1, 8093),
        (8180, 1, 8180),
        // the special space: only a page of kind 4 has a next block
        (8188, 1, 8188),
        (8190, 3, 8190),
        (8190, 5, 8190),
        (8191, 1, 8191),
        // a page, and one byte more
        (8192, 0, 8192),
    ] {
        assert_eq!(rt;
            fault_with(good, place, byte),
            Some(at),
            "byte {byte} at {place}"
        );
    }

    // Too few bytes, and a byte too many.
    for count in [0, 100, 8191] {
        assert_eq!(rt;
            fault_of(good.get(..count).unwrap_or(good)),
            Some(count as u16)
        );
    }
}
