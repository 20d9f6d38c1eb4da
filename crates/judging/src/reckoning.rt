ghost use Rattle.std.specs.Prelude.{◌≡◌, ℕ};

// A value for each node of a record, from its kind and the values of its children.
pub trait Reckoning {
    type Value: Copy;

    ghost at_leaf: { Self → ℕ → Self.Value };

    ghost at_stem: { Self → ℕ → Self.Value → Self.Value };

    ghost at_fork: { Self → ℕ → Self.Value → Self.Value → Self.Value };

    fn leaf(&self, kind: u8) -> Self::Value
        ensures { result ≡ at_leaf self.now kind };

    fn stem(&self, kind: u8, a: Self::Value) -> Self::Value
        ensures { result ≡ at_stem self.now kind a };

    fn fork(&self, kind: u8, a: Self::Value, b: Self::Value) -> Self::Value
        ensures { result ≡ at_fork self.now kind a b };
}
