//! The certificate by which something is shown can be written: the finder's multipliers stay within its limits, which are
//! those of a script; and a certificate that was given stays as it is. There is no code here: each law is the contract of
//! an empty function.
#![tactic(auto)]

ghost use Rattle.found_laws.specs.Laws.{FoundRowCanBeWritten, FoundFalsehoodCanBeWritten, ShownRowCanBeWritten, ShownFalsehoodCanBeWritten, ShownRowsCanBeWritten, GivenRowStays, GivenFalsehoodStays, GivenRowsStay};

/// Each multiplier of a certificate that the finder finds is within the range of a script; so the certificate by which
/// something is shown can be written where a given one could, and so can each of those by which several rows are shown.
pub fn shown_certificates_can_be_written()
    ensures found { FoundRowCanBeWritten }
    ensures found_false { FoundFalsehoodCanBeWritten }
    ensures shown { ShownRowCanBeWritten }
    ensures shown_false { ShownFalsehoodCanBeWritten }
    ensures shown_rows { ShownRowsCanBeWritten }
{}

/// What is shown by a given certificate is shown by just this one, and rows that are shown by a given one each, by these.
pub fn given_certificates_stay()
    ensures shown { GivenRowStays }
    ensures shown_false { GivenFalsehoodStays }
    ensures shown_rows { GivenRowsStay }
{}
