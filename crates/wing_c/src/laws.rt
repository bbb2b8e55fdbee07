// What holds of the numbers of all answers. Nothing here crosses the border.
ghost use Rattle.wing_c.specs.Meanings.{NumbersSay};
ghost use Rattle.wing_c.specs.DefinitionMeanings.{DefinitionsSay};
ghost use Rattle.wing_c.specs.WindowMeanings.{WindowsSay};

// Every answer is what its numbers mean by the header's words: a status below 0 is the refusal of that number, 1 and 5 with the good beside
// them, and nothing of an answer is dropped; what a case has not is 0.
// So it is of what a next call, a set order of a string, a set and a load answer, whatever they are given.
pub fn numbers_say_answers()
    ensures { NumbersSay }
{}

// The same of definitions, items and walks, and of what the calls over a body and the writers answer, whatever the bytes are; and the
// fields of a definition that was read are written as its body is anew.
// What is written of numbers reads back as these numbers, those that the type lacks left out (02).
pub fn numbers_say_definitions()
    ensures { DefinitionsSay }
{}

// The same of a window and of what its calls answer, whatever they are given.
pub fn numbers_say_windows()
    ensures { WindowsSay }
{}
