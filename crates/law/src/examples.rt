// The worked examples of the rules, all of them together.
ghost use Rattle.law.specs.Examples.{ArchiveExamples};

use trees::examples::worked_examples_hold;

// Nothing happens: that the function is proved says that every example holds.
pub fn archive_examples_hold()
    ensures { ArchiveExamples }
{
    worked_examples_hold();
}
