// The worked examples, as theorems about the definitions that the contracts use.
#![tactic(auto)]

ghost use Rattle.worked.specs.Examples.{Examples};

/// Does nothing; that it is proved says that every example of the table holds.
pub fn worked_examples_hold()
    ensures { Examples }
{}
