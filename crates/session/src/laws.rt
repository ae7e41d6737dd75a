// What holds of every change of a session.
ghost use Rattle.session.specs.Rules.{RulesAreKept};

// A new session, and every change that is not refused, leave a session that keeps the rules.
pub fn changes_keep_the_rules()
    ensures { RulesAreKept }
{}
