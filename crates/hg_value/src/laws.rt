//! Laws of codings and keys. A function here computes nothing: its contract is the law.
ghost use Rattle.hg_value.specs.Laws as laws;

/// Codings: how long they are, and that bytes spell at most one row of so many values.
pub fn codings_tell()
    ensures value { laws.ValuesAreAsLong }
    ensures row { laws.RowsAreAsLong }
    ensures tell { laws.CodingsTell }
{}

/// How long keys are. In an index that of NULL has 1 byte, of a number 5, and of a text 2 more than the
/// text; by which joins and groups work they are as long, but for a number, which has 17.
pub fn keys_are_as_long()
    ensures index { laws.IndexKeysAreAsLong }
    ensures working { laws.WorkingKeysAreAsLong }
{}

/// Keys of indexes compare byte by byte as their values do, NULL first, also where more columns or
/// other bytes stand behind; and equal keys have equal values. Only two values of one type are compared.
pub fn index_keys_compare()
    ensures compare { laws.IndexKeysCompare }
    ensures columns { laws.IndexColumnsCompare }
    ensures tell { laws.IndexKeysTell }
{}

/// The same of the keys by which joins and groups work, over all numbers.
pub fn keys_compare()
    ensures compare { laws.WorkingKeysCompare }
    ensures columns { laws.WorkingColumnsCompare }
    ensures tell { laws.WorkingKeysTell }
{}
