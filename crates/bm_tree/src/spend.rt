//! What becomes of the items of a tree that is given up.

/// Spends the items of a tree that ends before it is empty, as after an out of memory.
pub trait Spend<T> {
    /// This item, with this key, can be spent now.
    ghost can_spend: { Self → ℕ → T → Type 0 };

    /// What spending this item, with this key, does.
    ghost spends: { Self → ℕ → T → Self → Type 0 };

    ghost use Rattle.std.specs.Prelude.{ℕ};

    /// Spends an item, with its key.
    fn spend(&mut self, key: u32, item: T)
        requires { can_spend self.old key item }
        ensures { spends self.old key item self.new };
}
