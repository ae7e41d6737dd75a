// What holds of every session store, by its meaning alone.
ghost use Rattle.store.specs.StoreLaws.{RulesAreKept, FoundAfter};

// No ID comes to stand twice, and where every session keeps its rules each change to one that does leaves them so.
pub fn stores_keep_the_rules()
    ensures { RulesAreKept }
{}

// A change shows under its own ID and under no other.
pub fn changes_are_found()
    ensures { FoundAfter }
{}
