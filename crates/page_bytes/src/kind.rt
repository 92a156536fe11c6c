ghost use Rattle.std.specs.Prelude.{◌≡◌};
ghost use Rattle.page_bytes.specs.Decoding.{kind_from};
ghost use Rattle.page_bytes.specs.Spelling.{kind_word};

/// What a page of an index is for.
#[derive(Clone, Copy, Debug, PartialEq, Eq)]
pub enum PageKind {
    /// The one page of parameters, block 0.
    Meta,
    /// Elements and neighbour tuples of an HNSW index.
    Hnsw,
    /// The lists of an IVFFlat index.
    IvfLists,
    /// The entries of one list of an IVFFlat index. Only these pages have a next block.
    IvfEntries,
}

/// The number that stands for a kind in the last half word of its pages.
pub fn word_of(kind: PageKind) -> u8
    ensures { result ≡ kind_word kind }
{
    match kind {
        PageKind::Meta => 1,
        PageKind::Hnsw => 2,
        PageKind::IvfLists => 3,
        PageKind::IvfEntries => 4,
    }
}

/// The kind that a number stands for, which is one of those.
pub fn kind_of(word: u16) -> PageKind
    ensures { result ≡ kind_from word }
{
    match word {
        1 => PageKind::Meta,
        2 => PageKind::Hnsw,
        3 => PageKind::IvfLists,
        _ => PageKind::IvfEntries,
    }
}
