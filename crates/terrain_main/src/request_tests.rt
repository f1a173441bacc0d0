//! Lines and what is read of them, worked out by hand.

use ground_num::{Origin, Thousandths};
use line_protocol::{LineFault, read_request};
use std::alloc::Global;
use std::process::Abort;
use std::test::Fail;

// A line a row, and after the bar `ok`, `range` or its fault offset: each request; each word cut
// short; other words; too few numbers and too many; signs, digits and points; spaces and other
// bytes that part nothing; and what is outside its limit.
const LINES: &str = "\
sync|ok
plan add 1 2 3|ok
commit|ok
do add -1.5 2.25 3.125|ok
do remove 1 2|ok
do set 1 2 -3|ok
do line break 0 0|ok
do line outer 0 0 1 0 1 1|ok
do line void 0 0 1 0|ok
plan line island 0 0 1 0|ok
do unline 1|ok
level 0 0|ok
level 000000000.000 -0|ok
contour 3|ok
volume -3.5|ok
stat|ok
export|ok
quit|ok
|0
s|1
syn|3
sta|3
pla|3
plan|4
plan |5
commi|5
d|1
do|2
do |3
do a|4
do add|6
do add |7
do remov|8
do se|5
do li|5
do line|7
do line |8
do line brea|12
do line break|13
do line oute|12
do line voi|11
do line islan|13
do unline|9
leve|4
level|5
contou|6
volum|5
volume |7
expor|5
qui|3
Sync|0
sx|1
cox|2
contact|4
syncs|4
do move|3
do sync|4
do do add 1 2 3|3
plan plan|5
do line ring 0 0|8
export 1|6
0|0
sync\u{e9}|4
do add 1|8
do add 1 2|10
do add 1 2 3 4|12
do remove 1|11
do remove 1 2 3|13
do set 1 2|10
do line break 0|15
do line break 0 0 |18
do line outer 0 0 0|19
level 0|7
level 0 0 0|9
contour 1 2|9
do unline 1 2|11
do add -|8
do add --1 0 0|8
do add +1 0 0|7
do add 1- 0 0|8
do add .5 0 0|7
do add 1. 0 0|9
do add 1..2 0 0|9
do add 1.5.2 0 0|10
do add 1e5 0 0|8
do add 1.2345 0 0|12
do add 1234567890 0 0|16
do add -1234567890 0 0|17
contour 123456789.1234|21
do line island 0 x|17
do unline 0|10
do unline -1|10
do unline 1.0|11
do unline 99999999|ok
do unline 123456789|18
 sync|0
sync |4
do  add 1 2 3|3
do add  1 2 3|7
do add 1  2 3|9
do add 1 2 3 |12
do line void 0 0  1 1|17
level\t0 0|5
sync\r|4
do add 1\r 2 3|8
do add 1 2 3\r|12
do line break\r0 0|13
\0|0
level 999999999 x|16
level 999999999 0|range
level 0 -999999999.999|range
contour 999999999|range
do set 0 0 999999999|range
plan remove 999999999 0|range
do line break 0 0 999999999 0|range";

// Why the line has no request, without the clauses of the call, which only make the proof of its
// caller slow.
fn fault_of(rt: &impl Abort, alloc: Global, line: &str) -> Option<LineFault> {
    let origin = Origin {
        n: Thousandths(0),
        e: Thousandths(0),
    };
    assert!(rt; line.len() < 1 << 32);
    read_request(alloc, line.as_bytes(), &origin).err()
}

fn named_fault(name: &str) -> Result<Option<LineFault>, Fail> {
    if name == "ok" {
        return Ok(None);
    }
    if name == "range" {
        return Ok(Some(LineFault::Range));
    }
    Ok(Some(LineFault::Syntax(name.parse()?)))
}

fn check_row(rt: &impl Abort, alloc: Global, row: &str) -> Result<(), Fail> {
    let (line, name) = row.split_once('|').ok_or("a row without a bar")?;
    let wanted = named_fault(name)?;
    assert_eq!(rt; fault_of(rt, alloc, line), wanted, "at {line}");
    Ok(())
}

#[test]
fn lines_are_read_or_refused_at_their_fault_offset(rt: HostRuntime) -> Result<(), Fail> {
    for row in LINES.split('\n') {
        check_row(&rt, rt.alloc(), row)?;
    }
    Ok(())
}

#[test]
fn a_line_of_a_thousand_places_is_read(rt: HostRuntime) -> Result<(), Fail> {
    let mut line = "do line break".to_string(rt.alloc())?;
    for _k in 0..1_000u32 {
        line.push_str(" 0 0")?;
    }
    assert_eq!(rt; fault_of(&rt, rt.alloc(), line.as_str()), None);
    Ok(())
}
