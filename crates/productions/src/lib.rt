// A property text as nested productions, and that they agree with the grammar's table of spots. Each function is a theorem, which its contract states.
#![tactic(auto)]

ghost use Rattle.productions.specs.Theorems.{NestedProductions, OneTree, TreesMean};

// A text has the form that the table of spots says exactly if it spells a tree by the productions.
pub fn texts_are_nested_productions()
    ensures { NestedProductions }
{}

// A text spells one tree at most.
pub fn texts_spell_one_tree()
    ensures { OneTree }
{}

// What an accepted text writes is what its tree means.
pub fn accepted_texts_mean_their_tree()
    ensures { TreesMean }
{}
