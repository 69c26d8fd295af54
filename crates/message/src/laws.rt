ghost use Rattle.message.specs.Laws.{ReadThenWritten, WrittenThenRead, OneToOne, CursorReads, CursorStands};

// What holds of all messages and records. A law is held only where a contract names it, so each law has a function that names it and
// does nothing.

pub fn read_then_written_is_the_same()
    ensures { ReadThenWritten }
{}

pub fn written_then_read_is_the_same()
    ensures { WrittenThenRead }
{}

pub fn encoding_is_one_to_one()
    ensures { OneToOne }
{}

pub fn cursor_answers_the_message()
    ensures { CursorReads }
{}

pub fn cursor_stands_behind_what_it_read()
    ensures { CursorStands }
{}
