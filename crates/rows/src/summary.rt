ghost use Rattle.std.specs.Prelude.{◌≡◌, ℕ, ◌+◌, ◌≤◌, Bool, true};
ghost use Rattle.rows.specs.Laws.{Laws, limit};

// What neighbouring leaves of a tree come to, in at most four whole numbers. Joins do not depend on the bracketing.
pub(crate) trait Summary: Copy {
    // The summary of nothing.
    ghost empty: { Self };

    // How many things it sums up.
    ghost size: { Self → ℕ };

    // Whether some things can come to it.
    ghost valid: { Self → Bool };

    // What an older and a newer summary come to.
    ghost joined: { Self → Self → Self };

    fn none() -> Self
        ensures { result ≡ empty };

    fn join(older: Self, newer: Self) -> Self
        requires { (valid older ≡ true) × ((valid newer ≡ true) × (size older + size newer ≤ limit)) }
        ensures { result ≡ joined older newer };

    ghost laws: { Laws empty joined size valid };
}
