//! What weights can do: compare and, in a scale, add.
ghost use Rattle.std.specs.Prelude.{◌≡◌, Bool};
ghost use Rattle.weights.specs.Orders.{Total, Chain};

/// Values that compare: of any two one is at most the other, and at most carries over a chain of three.
pub trait Order: Copy {
    ghost at_most: { Self → Self → Bool };

    /// Whether this value is at most the other.
    fn at_most(&self, other: &Self) -> bool
        ensures { result ≡ at_most self.now other.now };

    ghost total: { Total at_most };

    ghost chain: { Chain at_most };
}

/// An order with a zero and an adding besides.
pub trait Scale: Order {
    ghost zero: { Self };

    ghost plus: { Self → Self → Self };

    /// What nothing weighs.
    fn zero() -> Self
        ensures { result ≡ zero };

    /// This weight with the other added.
    fn plus(self, other: Self) -> Self
        ensures { result ≡ plus self other };
}
