// What a counter is.
ghost use Rattle.std.specs.Prelude.{◌≡◌};
ghost use Rattle.counters.specs.Tables.{Table, Lawful};

// Whatever answers questions by a table of amounts.
pub trait Counter {
    // The meaning of a counter: for each question an amount, or nothing.
    ghost table: { Self → Table };

    // No amount is above 999,999,999, and no question above it has an amount.
    ghost laws: { (c : Self) → Lawful (table c) };

    // The table's entry. A counter may keep working memory, and its table stays.
    fn answer(&mut self, question: u32) -> Option<u32>
        ensures entry { result ≡ table self.old question }
        ensures alike { table self.new ≡ table self.old };
}
