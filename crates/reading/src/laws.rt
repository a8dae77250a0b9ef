ghost use Rattle.reading.specs.Declares.{TextDeclares};
ghost use Rattle.reading.specs.Laws.{FirstFaultStays, ClosedStays, ClosedIsSound};
ghost use Rattle.reading.specs.Examples.{Examples};

// Once a line is refused before the closing line, each further line gets that fault.
pub fn first_fault_stays()
    ensures { FirstFaultStays }
{}

// After the closing line each line gets the letter fault, and the tables stay.
pub fn closed_stays()
    ensures { ClosedStays }
{}

// A closed domain keeps the mark rule, the ladder rule and the ranges of all that it refers to.
pub fn closed_is_sound()
    ensures { ClosedIsSound }
{}

// A text is accepted and closes with these tables exactly when it declares them.
pub fn text_declares()
    ensures { TextDeclares }
{}

// Small texts: which are refused, with which fault, and which are accepted.
pub fn examples_hold()
    ensures { Examples }
{}
