// What is proved of tight text, for callers that speak of it without a call of the writer.
ghost use Rattle.text.specs.Trips.{TightReads};

// The tight text of a term reads back as that term.
pub fn tight_reads()
    ensures { TightReads }
{
    grammar::reads_exactly();
    grammar::reads_once();
    grammar::tight_renders();
}
