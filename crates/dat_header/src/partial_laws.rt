// What the definitions of a partial file promise.

ghost use Rattle.dat_header.specs.Partial.{ComputesPartial, ComputesPartialRefusal, OnePartial, WholeServes};

/// A partial file has at most one header, and a whole trace file serves as one.
pub fn one_partial_header()
    ensures header { OnePartial }
    ensures whole { WholeServes }
{}

/// What is computed of a partial file's bytes is the header that it has, or its refusal.
pub fn partial_header_is_computed()
    ensures header { ComputesPartial }
    ensures refusal { ComputesPartialRefusal }
{}
