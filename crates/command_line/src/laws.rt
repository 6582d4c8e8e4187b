ghost use Rattle.command_line.specs.Taken.{ReadWordsAreTaken, TakenWordsAreRead};

/// Words that are taken are read: the command is that of the values that clap finds in them.
pub fn taken_words_are_read()
    ensures { TakenWordsAreRead }
{}

/// Words that are read are in plain form or taken.
pub fn read_words_are_taken()
    ensures { ReadWordsAreTaken }
{}
