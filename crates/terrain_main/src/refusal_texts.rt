//! The refusals of each edit, and which of two that hold comes first: after the rows to begin with and
//! a blank line, each row has a name, the limits, a request and its reply.

/// After one point.
pub(crate) const AFTER_POINT: &str = "\
0 0 2

occupied||do add 0 0 5|refused 1 occupied 2.000
occupied before points-full|points 1|do add 0 0 5|refused 1 occupied 2.000
occupied before log-full|log 1|do add 0 0 5|refused 1 occupied 2.000
points-full|points 1|do add 1 0 0|refused 1 points-full
points-full before log-full|points 1, log 1|do add 1 0 0|refused 1 points-full
log-full to a point added|log 1|do add 1 0 0|refused 1 log-full
the last point and the last entry|points 2, log 2|do add 1 0 0|done 2
absent to a point removed||do remove 1 0|refused 1 absent 1.000 0.000
absent to a point removed before log-full|log 1|do remove 1 0|refused 1 absent 1.000 0.000
log-full to a point removed|log 1|do remove 0 0|refused 1 log-full
absent to a level set||do set 1 0 5|refused 1 absent 1.000 0.000
absent to a level set before log-full|log 1|do set 1 0 5|refused 1 absent 1.000 0.000
log-full to a level set|log 1|do set 0 0 5|refused 1 log-full
no-line||do unline 1|refused 1 no-line 1
no-line before log-full|log 1|do unline 1|refused 1 no-line 1";

/// After two lines over a square's diagonals, and a point where they meet.
pub(crate) const AFTER_JOINT: &str = "\
0 0 2, 0 10 0, 10 0 0, 10 10 4, 5 5 0
do line break 0 0 10 10|done 6 line 1
do line break 10 0 0 10|done 7 line 2

held||do remove 10 0|refused 7 held 2
held before log-full|log 7|do remove 10 0|refused 7 held 2
joint||do remove 5 5|refused 7 joint 1 2
joint before log-full|log 7|do remove 5 5|refused 7 joint 1 2
log-full to a line removed|log 7|do unline 1|refused 7 log-full
the last entry|log 8|do unline 1|done 8";

/// After a third line, which ends where those two meet.
pub(crate) const AFTER_END: &str = "\
0 0 2, 0 10 0, 10 0 0, 10 10 4, 5 5 0
do line break 0 0 10 10|done 6 line 1
do line break 10 0 0 10|done 7 line 2
do line break 5 5 10 10|done 8 line 3

held before joint||do remove 5 5|refused 8 held 3";

/// After a square without lines.
pub(crate) const AFTER_SQUARE: &str = "\
0 0 2, 0 10 0, 10 0 0, 10 10 4

short to a breakline||do line break 0 0|refused 4 short
short to a ring||do line island 0 0 0 10|refused 4 short
short before repeated||do line outer 0 0 0 0|refused 4 short
short before not-point||do line break 5 5|refused 4 short
short before vertices-full|places 0|do line break 0 0|refused 4 short
short before lines-full|lines 0|do line break 0 0|refused 4 short
short before log-full|log 4|do line break 0 0|refused 4 short
repeated||do line break 0 0 0 10 0 10|refused 4 repeated 3
repeated where a ring closes||do line outer 0 0 0 10 10 10 0 0|refused 4 repeated 4
repeated before not-point||do line break 5 5 5 5|refused 4 repeated 2
repeated before vertices-full|places 1|do line break 0 0 0 0|refused 4 repeated 2
repeated before lines-full|lines 0|do line break 0 0 0 0|refused 4 repeated 2
repeated before self-cross||do line break 0 0 10 10 10 0 0 10 0 10|refused 4 repeated 5
repeated before log-full|log 4|do line break 0 0 0 0|refused 4 repeated 2
not-point||do line break 0 0 5 5 6 6|refused 4 not-point 2
not-point before vertices-full|places 1|do line break 0 0 5 5|refused 4 not-point 2
not-point before lines-full|lines 0|do line break 0 0 5 5|refused 4 not-point 2
not-point before self-cross||do line break 0 0 10 10 10 0 0 10 5 5|refused 4 not-point 5
not-point before log-full|log 4|do line break 0 0 5 5|refused 4 not-point 2
vertices-full to one line|places 2|do line break 0 0 0 10 10 0|refused 4 vertices-full
vertices-full to the first line|vertices 2|do line break 0 0 0 10 10 0|refused 4 vertices-full
vertices-full before lines-full|places 1, lines 0|do line break 0 0 0 10|refused 4 vertices-full
vertices-full before self-cross|places 3|do line break 0 0 10 10 10 0 0 10|refused 4 vertices-full
vertices-full before log-full|places 1, log 4|do line break 0 0 0 10|refused 4 vertices-full
lines-full|lines 0|do line break 0 0 0 10 10 0|refused 4 lines-full
lines-full before self-cross|lines 0|do line break 0 0 10 10 10 0 0 10|refused 4 lines-full
lines-full before log-full|lines 0, log 4|do line break 0 0 0 10|refused 4 lines-full
self-cross||do line break 0 0 10 10 10 0 0 10|refused 4 self-cross 1 3
self-cross before log-full|log 4|do line break 0 0 10 10 10 0 0 10|refused 4 self-cross 1 3
log-full to a line added|log 4|do line break 0 0 0 10|refused 4 log-full
the last place, line and entry|places 2, lines 1, log 5|do line break 0 0 0 10|done 5 line 1";

/// After a square and a line over its diagonal.
pub(crate) const AFTER_DIAGONAL: &str = "\
0 0 2, 0 10 0, 10 0 0, 10 10 4
do line break 0 0 10 10|done 5 line 1

short before crosses||do line outer 10 0 0 10|refused 5 short
repeated before crosses||do line break 10 0 0 10 0 10|refused 5 repeated 3
not-point before crosses||do line break 10 0 0 10 5 5|refused 5 not-point 3
vertices-full to all lines|vertices 4|do line break 0 0 0 10 10 10|refused 5 vertices-full
vertices-full before crosses|vertices 3|do line break 10 0 0 10|refused 5 vertices-full
lines-full before crosses|lines 1|do line break 10 0 0 10|refused 5 lines-full
self-cross before crosses||do line break 0 0 10 10 10 0 0 10|refused 5 self-cross 1 3
crosses||do line break 10 0 0 10|refused 5 crosses 1
crosses before log-full|log 5|do line break 10 0 0 10|refused 5 crosses 1
the last places and the last line|vertices 4, lines 2|do line break 0 0 0 10|done 6 line 2";
