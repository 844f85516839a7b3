// The worked examples of the rules, all of them together.
ghost use Rattle.trees.specs.Examples.{WorkedExamples};

// Nothing happens: that the function is proved says that every example holds.
pub fn worked_examples_hold()
    ensures { WorkedExamples }
{}
