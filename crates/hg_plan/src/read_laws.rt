//! Laws of statements that were read. A function here computes nothing: its contract is the law.
ghost use Rattle.hg_plan.specs.ReadLaws as read_laws;

/// The nodes of a SELECT that was read stand each behind those below it, each text literal names a part of the
/// texts of the line, FROM names a table, and there are not too many of anything.
pub fn read_selects_fit()
    ensures { read_laws.ReadSelectsFit }
{}

/// The nodes of the WHERE of a DELETE that was read stand each behind those below it, each text literal names a
/// part of the texts of the line, and there are not too many nodes.
pub fn read_deletes_fit()
    ensures { read_laws.ReadDeletesFit }
{}

/// The nodes of an UPDATE that was read stand each behind those below it, each text literal names a part of the
/// texts of the line, and there are not too many nodes and items.
pub fn read_updates_fit()
    ensures { read_laws.ReadUpdatesFit }
{}
