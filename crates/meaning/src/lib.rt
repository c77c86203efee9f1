// What a verdict means: the value of a formula on a network of processes, and what is proved of it.
// Each function here stands for one theorem: its contract is the statement.
#![tactic(auto)]

ghost use Rattle.meaning.specs.Known.{KnownCases};
ghost use Rattle.meaning.specs.Theorems.{ValueExists, ValueUnique, ValueStrong, ReadingExists, ReadingUnique, ReadingsBound, CutToVariant, RemovalKeeps, TrimKeeps, FoldKeeps};

// A graph that fits a network has a value there,
pub fn value_exists()
    ensures { ValueExists }
{}

// and only one.
pub fn value_is_one()
    ensures { ValueUnique }
{}

// The value is extreme even among what keeps the equations from the one side only.
pub fn value_is_strong()
    ensures { ValueStrong }
{}

// Without processes there is one value too.
pub fn reading_exists()
    ensures exists { ReadingExists }
    ensures one { ReadingUnique }
{}

// The two readings without processes bound the value.
pub fn readings_bound_the_value()
    ensures { ReadingsBound }
{}

// Each bit of a value on the variants scale is the value for its variant.
pub fn variants_are_cut()
    ensures { CutToVariant }
{}

// Taking a process into the graph leaves the value as it is.
pub fn removal_keeps_the_value()
    ensures { RemovalKeeps }
{}

// Trimming leaves the value as it is at every node that stays.
pub fn trim_keeps_the_value()
    ensures { TrimKeeps }
{}

// Folding leaves the value as it is.
pub fn fold_keeps_the_value()
    ensures { FoldKeeps }
{}

// Small cases have the values that they are known to have.
pub fn known_cases()
    ensures { KnownCases }
{}
