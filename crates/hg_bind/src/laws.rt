//! Laws of bound statements. A function here computes nothing: its contract is the law.
ghost use Rattle.hg_bind.specs.BoundMeaning as meaning;
ghost use Rattle.hg_bind.specs.Laws as laws;

/// The place of a column in a bound SELECT, the number of its table in FROM and its own number there, is its
/// position in a row of the cross product; and a key of ORDER BY orders by what it did before its name was
/// bound. Each column node has the place of a column.
pub fn places_are_positions()
    ensures places { laws.PlacesArePositions }
    ensures keys { laws.KeysOrderAlike }
    ensures columns { laws.ColumnsHavePlaces }
{}

/// A bound SELECT means what the statement means, whatever rows its tables have: rows are found by the numbers
/// of tables, values by their places, and no name is looked at again.
pub fn bound_means_the_same()
    ensures { meaning.BoundMeansTheSame }
{}

/// What has to hold of the nodes of a statement, so that they can be evaluated, holds of its bound form.
pub fn bound_is_sound()
    ensures { laws.BoundIsSound }
{}

/// In a SELECT that was read, alone or of OPEN, a name in ORDER BY is a node of its own: so the law holds of it.
pub fn read_keys_stand_apart()
    ensures alone { meaning.ReadKeysStandApart }
    ensures opened { meaning.OpenedKeysStandApart }
{}
