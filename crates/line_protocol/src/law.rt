//! What holds of all lines, whoever reads them.

ghost use Rattle.line_protocol.specs.Grammar.{edit, edit_rows, request, request_rows};
ghost use Rattle.line_protocol.specs.Laws.{KeepsFirstWord, OneFaultOffset, ReadsEachRow};

/// The laws of the grammar: no row of its tables is shadowed by another, a line has at most one fault
/// offset, and no request's line goes on to a request with another first word.
pub fn grammar_law()
    ensures requests { ReadsEachRow request request_rows }
    ensures edits { ReadsEachRow edit edit_rows }
    ensures one_offset { OneFaultOffset }
    ensures first_word { KeepsFirstWord }
{}
