//! The layouts of a saved till.
ghost use Rattle.std.specs.Prelude.{◌≡◌, ℕ, Some, slice_get};
ghost use Rattle.zvt_till.specs.SnapshotEncoded.{entry_size, version};

/// The layout of a till's saved bytes.
#[derive(Clone, Copy)]
pub enum Layout {
    /// A row of the book has 13 bytes, without its doubt.
    First,
    /// A row of the book has 14 bytes. The last one is its doubt.
    Second,
}

/// Returns the byte that names the layout.
pub fn version(layout: Layout) -> u8
    ensures { result ≡ version layout }
{
    match layout {
        Layout::First => 1,
        Layout::Second => 2,
    }
}

/// Returns the size of a row of the book in bytes.
pub fn entry_size(layout: Layout) -> usize
    ensures { result ≡ entry_size layout }
{
    match layout {
        Layout::First => 13,
        Layout::Second => 14,
    }
}

/// Returns the layout that these bytes name, or any layout if they name none.
pub fn layout_of(bytes: &[u8]) -> Layout
    ensures { (layout : Layout) → slice_get bytes.now 3 ≡ Some (version layout) → result ≡ layout }
{
    match bytes.get(3) {
        Some(1) => Layout::First,
        _ => Layout::Second,
    }
}
