//! Laws of evaluation. A function here computes nothing: its contract is the law.
ghost use Rattle.hg_expr.specs.Laws as laws;

/// A row of 32-bit numbers, as tables hold them, fits the nodes of a statement; so does a row of the
/// columns of several tables that the nodes name.
pub fn rows_fit()
    ensures small { laws.SmallRowsFit }
    ensures tables { laws.TableRowsFit }
    ensures none { laws.NoAggregatesStand }
{}

/// While tables are joined, a node whose columns are all there has the value that it has over the whole row
/// of the cross product.
pub fn tables_so_far_tell()
    ensures { laws.TablesSoFarTell }
{}
