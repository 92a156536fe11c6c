//! A change of an item where it stands.

ghost use Rattle.std.specs.Prelude.{List, ℕ};

/// A change of the bytes of an item where they stand, which stay as many.
pub trait ItemChange {
    /// Which items may be changed so.
    ghost fits: { Self → List ℕ → Type 0 };

    /// What such an item may become.
    ghost makes: { Self → List ℕ → List ℕ → Type 0 };

    fn change(&self, item: &mut [u8])
        requires { fits self.now item.old }
        ensures { makes self.now item.old item.new };
}
