// What the definitions of a header promise.

ghost use Rattle.dat_header.specs.Laws.{SpellingsDiffer, OneHeader, ReadsBack, ComputesHeader, ComputesRefusal, RefusesByBytes};

/// No header's spelling begins with another's, so that a file has at most one header.
pub fn one_header()
    ensures spellings { SpellingsDiffer }
    ensures header { OneHeader }
{}

/// What spells a header is read as that header, whatever follows it.
pub fn header_reads_back()
    ensures { ReadsBack }
{}

/// What is computed of a file's bytes is the header that it has, or its refusal.
pub fn header_is_computed()
    ensures header { ComputesHeader }
    ensures refusal { ComputesRefusal }
    ensures by_bytes { RefusesByBytes }
{}
