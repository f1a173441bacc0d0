//! The worked sessions, which blank lines part: a name, then a request and its reply in each row. A
//! first row without a bar has the points to begin with.

/// Points and what any line may be.
pub(crate) const POINTS: &str = "\
a point added, and a place that has one
do add 0 0 0|done 1
do add 0 0 5|refused 1 occupied 0.000
stat|stat 1 points 1 lines 0
quit|bye

levels of an empty surface
level 0 0|outside 0

the diagonal of the least place
0 0 2, 0 10 0, 10 0 0, 10 10 4
level 5 5|level 4 3.000

the same diagonal where the least place is added last but one
10 10 4, 10 0 0, 0 0 2, 0 10 0
level 5 5|level 4 3.000

nine points, and the least facet that has a place
0 0 0, 0 1 0, 0 2 0, 1 0 0, 1 1 1, 1 2 0, 2 0 0, 2 1 0, 2 2 0
level 0.5 0.5|level 9 0.500
level 0.5 1.5|level 9 0.000
level 2.001 1|outside 9
volume 0|volume 9 1.000 0.000 1.000 sixths 6000000000 0 6000000000

collinear points, which have no facet
0 0 0, 0 1 0, 0 2 0
level 0 1|outside 3
volume 0|volume 3 0.000 0.000 0.000 sixths 0 0 0
contour 0|contour 3 0

syntax
do move|error syntax 3
do add 1.2345 0 0|error syntax 12
level 0|error syntax 7
|error syntax 0

plans, and a conflict with an edit of one's own
do add 0 0 0|done 1
sync|front 1
plan set 0 0 9|planned 1 1
commit|done 2
plan remove 0 0|planned 2 1
commit|done 3
commit|error no-plan
do add 0 0 0|done 4
plan set 0 0 5|planned 4 1
plan add 0 0 1|refused 4 occupied 0.000
do set 0 0 7|done 5
commit|conflict 5 at 0.000 0.000
stat|stat 5 points 1 lines 0

the range of numbers
do unline 7|refused 0 no-line 7
contour 67108.865|error range
do add 0 536870.913 0|error range
do add 0 536870.912 0|done 1
do add -1.5 2.25 -0.001|done 2
do add -1.500 2.250 0|refused 2 occupied -0.001";

/// Contours and volumes. The lines of a contour are parted by ` / `.
pub(crate) const MEASURES: &str = "\
a contour, whose lines end in points and on edges
0 0 0, 0 10 10, 10 0 10, 10 10 10
do line break 0 10 10 0|done 5 line 1
contour 5|contour 5 1 / 5.000 0.000 0.000 5.000
contour 10|contour 5 1 / 10.000 0.000 0.000 10.000
contour 0|contour 5 0

cuts of both facets of a diagonal, in facet order
0 0 0, 10 0 10, 10 10 20, 0 10 10
contour 5|contour 4 2 / 2.500 2.500 0.000 5.000 / 5.000 0.000 2.500 2.500
contour 20|contour 4 2 / 10.000 10.000 10.000 10.000 / 10.000 10.000 10.000 10.000
volume 10|volume 4 166.667 166.667 0.000 sixths 1000000000000 1000000000000 0

a corner above and two below, as far
0 0 1, 0 10 -1, 10 0 -1
volume 0|volume 3 4.167 20.833 -16.667 sixths 25000000000 125000000000 -100000000000

a corner above and two below, one of them farther
0 0 1, 0 10 -2, 10 0 -1
volume 0|volume 3 2.778 36.111 -33.333 sixths 16666667000 216666667000 -200000000000

the square of all places
536870.912 536870.912 0, 536870.912 -536870.912 0, -536870.912 536870.912 0, \
-536870.912 -536870.912 0
volume -1|volume 4 1152921504606.847 0.000 1152921504606.847 sixths \
6917529027641081856000 0 6917529027641081856000

a void, whose facets have no volume and no cuts
0 0 0, 0 10 0, 10 0 0, 10 10 20
do line void 0 0 0 10 10 10|done 5 line 1
volume -1|volume 5 383.333 0.000 383.333 sixths 2300000000000 0 2300000000000
contour 10|contour 5 1 / 10.000 5.000 5.000 5.000

the held version after an edit of one's own
0 0 1, 0 10 1, 10 0 1
volume 0|volume 3 50.000 0.000 50.000 sixths 300000000000 0 300000000000
do set 0 0 4|done 4
volume 0|volume 4 100.000 0.000 100.000 sixths 600000000000 0 600000000000
contour 2|contour 4 1 / 0.000 6.667 6.667 0.000";
