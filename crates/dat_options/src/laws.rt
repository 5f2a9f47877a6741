// What the definitions of options and tables promise.

ghost use Rattle.dat_options.specs.Options.{ComputesNoOptions, ComputesOptions, OneOptions, OptionsReadBack};
ghost use Rattle.dat_options.specs.Table.{ComputesNoTable, ComputesTable, OneTable, TableReadsBack};

/// A file has at most one list of options at a place.
pub fn one_options()
    ensures { OneOptions }
{}

/// Written options are read again, whatever follows them.
pub fn options_read_back()
    ensures { OptionsReadBack }
{}

/// A file has at most one table for so many processors at a place.
pub fn one_table()
    ensures { OneTable }
{}

/// A written table is read again, whatever follows it.
pub fn table_reads_back()
    ensures { TableReadsBack }
{}

/// The options that are computed at a place of a file are those that it has there, and none are computed exactly where it
/// has none.
pub fn options_are_computed()
    ensures found { ComputesOptions }
    ensures cut { ComputesNoOptions }
{}

/// The table that is computed at a place of a file is the one that it has there, and none is computed exactly where it has
/// none.
pub fn table_is_computed()
    ensures found { ComputesTable }
    ensures cut { ComputesNoTable }
{}
