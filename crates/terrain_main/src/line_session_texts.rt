//! The worked sessions of lines, rings and crossings, in the form of the others.

/// Lines and rings, one case of each kind.
pub(crate) const LINES: &str = "\
a breakline turns the diagonal, and a point may stand on it
0 0 2, 0 10 0, 10 0 0, 10 10 4
do line break 10 0 0 10|done 5 line 1
level 5 5|level 5 0.000
do line break 0 0 10 10|refused 5 crosses 1
do add 5 5 7|done 6
level 5 5|level 6 7.000
do remove 5 5|done 7
level 5 5|level 7 0.000

two lines over one point, which joins them
0 0 0, 10 10 0, 10 0 0, 0 10 0, 5 5 0
do line break 0 0 10 10|done 6 line 1
do line break 10 0 0 10|done 7 line 2
do remove 5 5|refused 7 joint 1 2
do remove 0 0|refused 7 held 1

an outer ring, a void in it and an island in that
0 0 1, 0 100 1, 100 100 1, 100 0 1, 20 20 1, 20 80 1, 80 80 1, 80 20 1, \
40 40 1, 40 60 1, 60 60 1, 60 40 1
do line outer 0 0 0 100 100 100 100 0|done 13 line 1
do line void 20 20 20 80 80 80 80 20|done 14 line 2
do line island 40 40 40 60 60 60 60 40|done 15 line 3
level 10 10|level 15 1.000
level 30 30|outside 15
level 50 50|level 15 1.000
level 20 50|level 15 1.000
do unline 3|done 16
level 50 50|outside 16
do unline 2|done 17
level 30 30|level 17 1.000

a short line, a repeated place, no point, no line and no point to set
0 0 0
do line break 0 0|refused 1 short
do line break 0 0 0 0|refused 1 repeated 2
do line break 0 0 1 1|refused 1 not-point 2
do unline 7|refused 1 no-line 7
do set 1 1 0|refused 1 absent 1.000 1.000

a level set anew and again, and a point removed and added again
0 0 2, 0 10 0, 10 0 0, 10 10 4
do set 0 0 6|done 5
level 5 5|level 5 5.000
do set 0 0 6|done 6
do remove 0 0|done 7
level 5 5|level 7 0.000
level 2 2|outside 7
do add 0 0 8|done 8
level 5 5|level 8 6.000

a number that is never given again
0 0 0, 0 10 0
do line break 0 0 0 10|done 3 line 1
do unline 1|done 4
do unline 1|refused 4 no-line 1
do line break 0 0 0 10|done 5 line 2
stat|stat 5 points 2 lines 1";

/// Rings beside, over and within one another.
pub(crate) const RINGS: &str = "\
outer rings that touch in a point
0 0 1, 0 10 1, 5 5 1, 10 0 1, 10 10 1
do line outer 0 0 0 10 5 5|done 6 line 1
do line outer 10 0 10 10 5 5|done 7 line 2
level 2 5|level 7 1.000
level 8 5|level 7 1.000
level 5 2|outside 7

outer rings that share a side
0 0 1, 0 10 1, 0 20 1, 10 0 1, 10 10 1, 10 20 1
do line outer 0 0 0 10 10 10 10 0|done 7 line 1
do line outer 0 10 0 20 10 20 10 10|done 8 line 2
level 5 5|level 8 1.000
level 5 15|level 8 1.000
do unline 1|done 9
level 5 5|outside 9
level 5 10|level 9 1.000

a void along a side of its outer ring
0 0 1, 0 10 1, 0 20 1, 10 0 1, 10 10 1, 10 20 1
do line outer 0 0 0 20 10 20 10 0|done 7 line 1
do line void 0 10 0 20 10 20 10 10|done 8 line 2
level 5 5|level 8 1.000
level 5 15|outside 8

a void over its outer ring, which meet only where there are points
0 0 1, 0 20 1, 20 20 1, 20 0 1, 10 10 1, 10 30 1, 30 30 1, 30 10 1
do line outer 0 0 0 20 20 20 20 0|done 9 line 1
do line void 10 10 10 30 30 30 30 10|refused 9 crosses 1
do add 10 20 1|done 10
do line void 10 10 10 30 30 30 30 10|refused 10 crosses 1
do add 20 10 1|done 11
do line void 10 10 10 30 30 30 30 10|done 12 line 2
level 5 5|level 12 1.000
level 15 15|outside 12
do remove 10 20|refused 12 joint 1 2

a void numbered after its island, and an island numbered after that
20 20 1, 20 80 1, 80 80 1, 80 20 1, 40 40 1, 40 60 1, 60 60 1, 60 40 1
do line island 40 40 40 60 60 60 60 40|done 9 line 1
do line void 20 20 20 80 80 80 80 20|done 10 line 2
level 50 50|outside 10
do unline 1|done 11
do line island 60 40 60 60 40 60 40 40|done 12 line 3
level 50 50|level 12 1.000

a ring over a breakline
0 0 2, 0 10 0, 10 0 0, 10 10 4
do line break 10 0 0 10|done 5 line 1
do line outer 0 0 0 10 10 0|done 6 line 2
level 2 2|level 6 1.200
level 8 8|outside 6
do unline 1|done 7
level 5 5|level 7 0.000
do unline 2|done 8
level 5 5|level 8 3.000

a ring with four collinear places
0 0 0, 0 10 0, 0 20 0, 0 30 0, 10 15 10
do line outer 0 0 0 10 0 20 0 30 10 15|done 6 line 1
level 5 15|level 6 5.000
do line void 0 0 0 10 0 20 0 30 10 15|done 7 line 2
level 5 15|outside 7

rings of collinear places, in which nothing lies
0 0 1, 0 10 1, 0 20 1, 10 10 1
do line void 0 0 0 10 0 20|done 5 line 1
level 2 10|level 5 1.000
do line outer 0 0 0 10 0 20|done 6 line 2
level 2 10|outside 6

a ring that crosses itself, and one that touches itself in a point
0 0 1, 0 10 1, 10 0 1, 10 10 1
do line outer 0 0 10 10 10 0 0 10|refused 4 self-cross 1 3
do add 5 5 1|done 5
do line outer 0 0 10 10 10 0 0 10|done 6 line 1
level 2 5|level 6 1.000
level 8 5|level 6 1.000
level 5 2|outside 6
do remove 5 5|refused 6 joint 1 1

a ring's last link crosses its second, where an open line has no such link
0 0 1, 0 10 1, 10 0 1, 10 10 1
do line void 0 0 0 10 10 0 10 10|refused 4 self-cross 2 4
do line break 0 0 0 10 10 0 10 10|done 5 line 1

a closed breakline is no ring
0 0 1, 0 10 1, 10 0 1, 10 10 1, 5 20 1
do line break 0 0 0 10 10 10 10 0 0 0|done 6 line 1
level 5 5|level 6 1.000
level 5 12|level 6 1.000
do line outer 0 0 0 10 10 10 10 0|done 7 line 2
level 5 12|outside 7";

/// Lines over one another.
pub(crate) const CROSSINGS: &str = "\
two lines over one edge
0 0 2, 0 10 0, 10 0 0, 10 10 4
do line break 10 0 0 10|done 5 line 1
do line break 0 10 10 0|done 6 line 2
do unline 1|done 7
level 5 5|level 7 0.000
do unline 2|done 8
level 5 5|level 8 3.000

a line that comes back has its piece once
0 0 2, 0 10 0, 10 0 0, 10 10 4
do line break 10 0 0 10|done 5 line 1
do line break 10 0 0 10 10 0|done 6 line 2
do unline 1|done 7
level 5 5|level 7 0.000
do unline 2|done 8
level 5 5|level 8 3.000

a line that ends within a link of another
0 0 1, 0 10 1, 0 20 1, 10 10 1
do line break 0 0 0 20|done 5 line 1
do line break 10 10 0 10|done 6 line 2
do remove 0 10|refused 6 held 2
do unline 2|done 7
do remove 0 10|done 8

the lesser of two lines that have a place
0 0 2, 0 10 0, 10 0 0, 10 10 4
do line break 0 0 0 10|done 5 line 1
do line break 10 0 0 0|done 6 line 2
do remove 0 0|refused 6 held 1
do unline 1|done 7
do remove 0 0|refused 7 held 2

the lesser of two lines that are crossed, though it is crossed after the other
0 10 1, 10 10 1, 0 20 1, 10 20 1, 5 0 1, 5 30 1
do line break 0 20 10 20|done 7 line 1
do line break 0 10 10 10|done 8 line 2
do line break 5 0 5 30|refused 8 crosses 1
do unline 1|done 9
do line break 5 0 5 30|refused 9 crosses 2
do unline 2|done 10
do line break 5 0 5 30|done 11 line 3

the least two of three lines over a point
0 0 0, 10 10 0, 10 0 0, 0 10 0, 0 5 0, 10 5 0, 5 5 0
do line break 0 5 10 5|done 8 line 1
do line break 0 0 10 10|done 9 line 2
do line break 10 0 0 10|done 10 line 3
do remove 5 5|refused 10 joint 1 2
do unline 1|done 11
do remove 5 5|refused 11 joint 2 3
do unline 2|done 12
do remove 5 5|done 13

the two links that cross with the least first of them
5 -10 1, 0 0 1, 10 10 1, 0 10 1, 10 0 1, 0 -5 1
do line break 5 -10 0 0 10 10 0 10 10 0 0 -5|refused 6 self-cross 1 5";
