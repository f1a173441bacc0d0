//! What takes a text piece after piece.

/// A writer or a counter. It takes each piece, whatever becomes of it: a writer whose write failed
/// passes over the rest.
pub(crate) trait Output {
    ghost use Rattle.std.specs.Prelude.{ℕ, ◌≤◌, ◌++◌, [], List, length};
    ghost use Rattle.std.specs.Fmt.{decimal};
    ghost use Rattle.ground_num.specs.Decimal.{thousandths_text};

    /// It took this text.
    ghost Takes: { Self → Self → List ℕ → Type 0 };

    /// Takes the bytes.
    fn put(&mut self, piece: &[u8])
        ensures { Takes self.old self.new piece.now };

    /// Takes the number.
    fn put_number(&mut self, number: u32)
        ensures { Takes self.old self.new (decimal number) };

    /// Takes the number of thousandths.
    fn put_thousandths(&mut self, value: i64)
        ensures takes { Takes self.old self.new (thousandths_text value) }
        ensures short { length (thousandths_text value) ≤ 25 };

    /// Nothing was taken.
    ghost takes_none: { (x : Self) → Takes x x [] };

    /// One text and then another.
    ghost takes_both: { (x y z : Self) (t u : List ℕ) → Takes x y t → Takes y z u → Takes x z (t ++ u) };
}
