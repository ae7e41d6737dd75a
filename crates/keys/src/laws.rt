// What holds of every change of keys.
ghost use Rattle.keys.specs.Rules.{RulesAreKept};

// The first key, and every change that is not refused, leave keys that keep the rules.
pub fn key_changes_keep_the_rules()
    ensures { RulesAreKept }
{}
